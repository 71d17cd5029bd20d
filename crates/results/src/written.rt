// What was written, or why nothing was.
ghost use Rattle.std.specs.Prelude.{◌≤◌, length, IfOk, IfSome};

use console::messages::line_refused;
use console::reports::say_result;
use rules::{Line, Refusal};
use std::io;

// What was written, so many units of what was lent. The answer is what was said, none where less was lent.
pub fn say_written<'a>(
    rt: &impl Print,
    what: &str,
    units: usize,
    out: &'a [u16],
) -> io::Result<Option<&'a [u16]>>
    ensures { IfOk result (λ said. IfSome said (λ written. length written.now ≤ length out.now)) }
{
    let Some(written) = out.get(..units) else {
        return Ok(None);
    };
    say_result(rt, what, written)?;
    Ok(Some(written))
}

// A line that was built, or why it was not, by its limit. The answer is the line, none where it is refused.
pub fn say_built<'a>(
    rt: &impl Print,
    built: Result<Line, Refusal>,
    out: &'a [u16],
    limit: usize,
) -> io::Result<Option<&'a [u16]>>
    ensures { IfOk result (λ said. IfSome said (λ line. length line.now ≤ length out.now)) }
{
    match built {
        Ok(Line { units }) => say_written(rt, "line", units, out),
        Err(refusal) => {
            line_refused(rt, refusal, limit)?;
            Ok(None)
        }
    }
}

// The signed code of a status.
pub fn say_code(rt: &impl Print, code: i32) -> io::Result<()> {
    println!(rt; "signed code: {code}")
}

// Whether a path has the suffix of a batch script, in words.
pub fn say_suffix(rt: &impl Print, batch: bool) -> io::Result<()> {
    if batch {
        println!(rt; "yes, the path ends in .bat or .cmd: start it with a batch line")
    } else {
        println!(rt; "no, the path ends neither in .bat nor in .cmd")
    }
}
