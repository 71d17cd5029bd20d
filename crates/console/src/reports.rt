// What is written to standard output. A call that fails writes `error` or `refused` first.
use crate::room;
use shown::show;
use std::fmt;
use std::io::Result;

// How many units there are, in words.
#[derive(Clone, Copy)]
struct Count(usize);

impl fmt::Display for Count {
    fn fmt<W: fmt::Write>(&self, f: &mut fmt::Formatter<W>) -> fmt::Result {
        match self.0 {
            1 => write!(f, "1 unit"),
            count => write!(f, "{count} units"),
        }
    }
}

// Units as they are shown, on a page that is lent; or that the page was too small for what stands there.
fn say_on(rt: &impl Print, page: &mut [u8], units: &[u16]) -> Result<()> {
    let count = show(units, page);
    match page.get(..count) {
        Some(front) => rt.write_all(front),
        None => print!(rt; "(too long to show)"),
    }
}

// Units as they are shown, on the page that has room for the longest block.
fn say_long(rt: &impl Print, units: &[u16]) -> Result<()> {
    say_on(rt, &mut room::page(), units)
}

// Units as they are shown. Most texts are short, and a small page is made sooner than a large one.
fn say_text(rt: &impl Print, units: &[u16]) -> Result<()> {
    if 600 < units.len() {
        say_long(rt, units)
    } else {
        say_on(rt, &mut [0u8; 3600], units)
    }
}

// What a result is, how long it is, and the result on a line of its own.
pub fn say_result(rt: &impl Print, what: &str, units: &[u16]) -> Result<()> {
    let count = Count(units.len());
    println!(rt; "{what}, {count}:")?;
    say_text(rt, units)?;
    println!(rt)
}

// Units in brackets, so that blanks at their ends show, and the line's end.
pub fn say_bracketed(rt: &impl Print, units: &[u16]) -> Result<()> {
    print!(rt; "[")?;
    say_text(rt, units)?;
    println!(rt; "]")
}

// An argument.
pub fn say_argument(rt: &impl Print, index: usize, units: &[u16]) -> Result<()> {
    let count = Count(units.len());
    print!(rt; "argument {index}, {count}: ")?;
    say_bracketed(rt, units)
}

// An entry, in brackets too: key and value have their `=` between them.
pub fn say_entry(rt: &impl Print, number: usize, key: &[u16], value: &[u16]) -> Result<()> {
    print!(rt; "entry {number}: [")?;
    say_text(rt, key)?;
    print!(rt; "=")?;
    say_text(rt, value)?;
    println!(rt; "]")
}

// What stands behind the units that are used.
pub fn say_behind(rt: &impl Print, units: &[u16]) -> Result<()> {
    if units.is_empty() {
        println!(rt; ", nothing stands behind them")
    } else {
        say_result(rt, "\nbehind them", units)
    }
}

// What is wrong with a word of the call, counted from the command on, and the line's end.
pub fn say_error(rt: &impl Print, index: usize, what: &str) -> Result<()> {
    println!(rt; "error: word {index} {what}")
}

// A word for which there is no room. The tool has room for more than the longest line or block.
pub fn no_room(rt: &impl Print, index: usize) -> Result<()> {
    say_error(
        rt,
        index,
        "is too much: the words together are more than any line or block may hold",
    )
}

// A word that is no UTF-8: what is read of it, and how many bytes that is.
pub fn no_utf8(rt: &impl Print, index: usize, front: &[u16], bytes: usize) -> Result<()> {
    print!(rt;
        "error: word {index} is no UTF-8: no character begins at its byte {bytes}, behind "
    )?;
    say_bracketed(rt, front)
}

// A word that is no entry.
pub fn no_entry(rt: &impl Print, index: usize, units: &[u16]) -> Result<()> {
    print!(rt; "error: word {index} is no entry: there is no = behind the first unit of ")?;
    say_bracketed(rt, units)
}

// What the tool does.
const HELP: &str =
    "Command lines, batch lines and environment blocks for Windows processes, written and read.

  lines read LINE                       the arguments that a command line is read as
  lines write [--force] PROGRAM ARG..   the command line of a program, and the arguments read back from it
  lines batch [--force] SCRIPT ARG..    the command line that runs a batch script
  lines env KEY=VALUE..                 the environment block of these entries
  lines entries FILE                    the entries of the environment block in a dump
  lines status NUMBER                   the text and the signed code of a finished process's status
  lines suffix PATH                     whether a path ends in .bat or .cmd
  lines help                            this page

Words are UTF-8 and become UTF-16 units, which is what lengths count. --force puts quotes round each argument.
A dump is the units' bytes, two each, the low one first; FILE is - where it comes by standard input.
A unit that cannot be seen is shown as {hex}, and so are { and }: a tab is {9}, a NUL {0}.
";

// The page that says what the tool does. One write and no format: it is longer than what a format gathers, and would go in two.
pub fn help(rt: &impl Print) -> Result<()> {
    rt.write_all(HELP.as_bytes())
}
