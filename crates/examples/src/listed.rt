// Lines that the entries over a slice of records build, printed: an ordinary line, a batch line, and two refusals.
use pages::front;
use rules::{Arg, Line, Refusal};
use slices::{make_bat_command_line_of, make_command_line_of};
use std::io;
use units::refusals::{number_of, place_of};

// A line of so many units, as far as a page holds it.
// The count beside the output: it is what the builder answered, and the output may be shorter.
fn print_line(rt: &impl Print, out: &[u16], units: usize) -> io::Result<()> {
    let Some(page) = front(out, units) else {
        return Ok(());
    };
    rt.write_all(b"line ")?;
    rt.write_all(page.bytes())?;
    rt.write_all(b"\n")
}

// An answer on a line of its own: a line, or a refusal's number and place.
fn print_answer(rt: &impl Print, answer: Result<Line, Refusal>, out: &[u16]) -> io::Result<()> {
    match answer {
        Ok(Line { units }) => print_line(rt, out, units),
        Err(refusal) => println!(rt; "refused {} {}", number_of(refusal), place_of(refusal)),
    }
}

// Four records, the third of a kind that is given.
fn records(third: u32) -> [Arg; 4] {
    [(0, 0, 7), (0, 7, 9), (third, 16, 4), (1, 20, 4)].map(|(kind, start, len)| Arg {
        kind,
        start,
        len,
    })
}

// Two lines, of program `p\go.exe` and, with forced quotes, of script `go.bat`; a record of no kind; a line that has no room.
pub fn print_lines(rt: &impl Print) -> io::Result<()> {
    let program = b"p\\go.exe".map(u16::from);
    let script = b"go.bat".map(u16::from);
    let text = b"one twosay \"hi\"\\100%/raw".map(u16::from);
    let mut out = [0u16; 128];
    let mut short = [0u16; 20];
    println!(rt; "Lines from a slice of records")?;
    let line = make_command_line_of(&program, &records(0), &text, false, &mut out);
    print_answer(rt, line, &out)?;
    let line = make_bat_command_line_of(&script, &records(0), &text, true, &mut out);
    print_answer(rt, line, &out)?;
    let line = make_command_line_of(&program, &records(2), &text, false, &mut out);
    print_answer(rt, line, &out)?;
    let line = make_command_line_of(&program, &records(0), &text, false, &mut short);
    print_answer(rt, line, &short)
}
