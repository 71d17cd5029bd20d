// The kinds of example: each runs an entry point on small lent memory and compares what comes out with what is stated.
#![tactic(auto)]

use octets::widen;
use pages::{Page, compare, front, verdict};
use rules::{Arguments, Line, Refusal};
use std::io;
use units::refusals::{number_of, place_of};

// The arguments that were read, each with a line feed behind it.
// A count and an index: the table is longer than what was read, and `reading::argument` takes an index.
fn page_of(text: &[u16], spans: &[u32], count: usize) -> Page {
    let mut page = Page::new();
    for i in 0..count {
        page.put_units(reading::argument(text, spans, i));
        page.put(b'\n');
    }
    page
}

// A line is read as these arguments, each with a line feed behind it.
pub fn reads(rt: &impl Print, line: &[u8], stated: &[u8]) -> io::Result<()> {
    let mut units = [0u16; 64];
    let mut text = [0u16; 64];
    let mut spans = [0u32; 32];
    let n = widen(line, &mut units);
    match reading::parse_lp_cmd_line(&units[..n], &[], &mut text, &mut spans) {
        Ok(Arguments { count, .. }) => {
            let page = page_of(&text, &spans, count);
            compare(rt, b"read ", line, page.bytes(), stated)
        }
        Err(_) => verdict(rt, b"read ", line, false),
    }
}

// The verdict where a builder should have written this line. What is refused has no units.
fn written(
    rt: &impl Print,
    verb: &[u8],
    arg: &[u8],
    built: Result<Line, Refusal>,
    out: &[u16],
    stated: &[u8],
) -> io::Result<()> {
    let units = built.map_or(0, |line| line.units);
    match front(out, units) {
        Some(page) => compare(rt, verb, arg, page.bytes(), stated),
        None => verdict(rt, verb, arg, false),
    }
}

// Program `exe` and one regular argument are written as this line.
pub fn writes(rt: &impl Print, arg: &[u8], stated: &[u8]) -> io::Result<()> {
    let program = b"exe".map(u16::from);
    let mut text = [0u16; 32];
    let mut out = [0u16; 96];
    let n = widen(arg, &mut text);
    let records = [0, 0, n as u32];
    let built = building::make_command_line(&program, &records, &text, false, &mut out);
    written(rt, b"write ", arg, built, &out, stated)
}

// The batch line of script `a.bat` and one regular argument.
fn batch_line(arg: &[u8], out: &mut [u16]) -> Result<Line, Refusal> {
    let script = b"a.bat".map(u16::from);
    let mut text = [0u16; 32];
    let n = widen(arg, &mut text);
    let records = [0, 0, n as u32];
    building::make_bat_command_line(&script, &records, &text, false, out)
}

// Script `a.bat` and one regular argument are written as this batch line.
pub fn batches(rt: &impl Print, arg: &[u8], stated: &[u8]) -> io::Result<()> {
    let mut out = [0u16; 96];
    let built = batch_line(arg, &mut out);
    written(rt, b"batch ", arg, built, &out, stated)
}

// One regular argument of a batch line is refused by this number at this place, or built, where the number is 0.
// Numbers and no refusal, here and below: a number may be one that no refusal has.
pub fn batch_refused(
    rt: &impl Print,
    arg: &[u8],
    number: u32,
    place: usize,
    name: &[u8],
) -> io::Result<()> {
    let mut out = [0u16; 96];
    let holds = match batch_line(arg, &mut out) {
        Ok(_) => number == 0,
        Err(refusal) => number_of(refusal) == number && place_of(refusal) == place,
    };
    verdict(rt, b"batch ", name, holds)
}

// A line of so many units is read into as many, where the number is 0, or refused by this number.
pub fn limit(rt: &impl Print, units: usize, number: u32, name: &[u8]) -> io::Result<()> {
    let line = [u16::from(b'a'); 32768];
    let mut text = [0u16; 32768];
    let mut spans = [0u32; 4];
    let Some(front) = line.get(..units) else {
        return Ok(());
    };
    let holds = match reading::parse_lp_cmd_line(front, &[], &mut text, &mut spans) {
        Ok(arguments) => number == 0 && arguments.units == units,
        Err(refusal) => number_of(refusal) == number,
    };
    verdict(rt, b"read ", name, holds)
}

// Four quotes, forced, take 10 units: a line of program `p` then has 14.
pub fn bounds(rt: &impl Print) -> io::Result<()> {
    let program = [u16::from(b'p')];
    let text = [u16::from(b'"'); 4];
    let mut out = [0u16; 32];
    let built = building::make_command_line(&program, &[0, 0, 4], &text, true, &mut out);
    verdict(
        rt,
        b"write ",
        b"four quotes, forced, take 10 units",
        built == Ok(Line { units: 14 }),
    )
}

// Nothing is written before a later argument is refused.
pub fn unchanged(rt: &impl Print) -> io::Result<()> {
    let program = [u16::from(b'p')];
    let text = [u16::from(b'a'), 0];
    let before = [u16::from(b'.'); 8];
    let mut out = before;
    let built = building::make_command_line(&program, &[0, 0, 1, 0, 1, 1], &text, false, &mut out);
    verdict(
        rt,
        b"write ",
        b"a, NUL is refused by 5, place 2, and the output is as it was",
        built == Err(Refusal::Nul(2)) && out == before,
    )
}
