// The steps of a reader through a later argument: a run of plain units, a run of backslashes, a quote mark. Each is read at a point of the rest of
// the line and written at its place in the output.
ghost use Rattle.std.specs.Prelude.{false, ◌+◌, ◌≤◌, ◌<◌, length, drop};
ghost use Rattle.arguments.specs.Step.{Stepped, mark_step, slashes_at, step_at};

use super::runs::{BACKSLASH, QUOTE, plain_run, starts_with_quote};
use scans::backslashes;
use stores::{copy_run, put, repeat};

// Where a reader stands: how many units of the rest are used, how many of the argument are written, and whether quoted mode is on.
// What each step asks of a point is said there: a ghost field for it would forbid `..here`.
#[derive(Clone, Copy, Debug, PartialEq, Eq)]
pub struct Point {
    pub used: usize,
    pub units: usize,
    pub quoted: bool,
}

// A run of k backslashes: before a quote mark it gives k/2, and a literal mark where k is odd; before anything else it is literal.
fn read_slashes(rest: &[u16], out: &mut [u16], here: Point) -> Point
    requires { (here.used < length rest.now) × (here.units ≤ here.used) }
    ensures { Stepped (slashes_at here.quoted (drop here.used rest.now)) here out.old out.new result }
{
    let i = here.used;
    let k = backslashes(&rest[i..]);
    let end = i + k;
    if !starts_with_quote(&rest[end..]) {
        repeat(out, here.units, BACKSLASH, k);
        return Point {
            used: end,
            units: here.units + k,
            ..here
        };
    }
    let half = k / 2;
    repeat(out, here.units, BACKSLASH, half);
    let units = here.units + half;
    if k % 2 == 1 {
        put(out, units, QUOTE);
        Point {
            used: end + 1,
            units: units + 1,
            ..here
        }
    } else {
        Point {
            used: end,
            units,
            ..here
        }
    }
}

// A quote mark that is handled as a quote. Outside quotes it opens quoted mode. Inside, as the last unit of the line it leaves quoted mode set;
// two give one literal mark; before another unit it closes.
fn read_mark(rest: &[u16], out: &mut [u16], here: Point) -> Point
    requires { (here.used < length rest.now) × (here.units ≤ here.used) }
    ensures { Stepped (mark_step here.quoted (drop (here.used + 1) rest.now)) here out.old out.new result }
{
    let next = here.used + 1;
    if !here.quoted {
        return Point {
            used: next,
            quoted: true, // it opens
            ..here
        };
    }
    match rest.get(next) {
        // Quoted mode is still set, so that even an empty argument is added.
        None => Point { used: next, ..here },
        Some(&QUOTE) => {
            put(out, here.units, QUOTE);
            Point {
                used: next + 1,
                units: here.units + 1,
                ..here
            }
        }
        Some(_) => Point {
            used: next,
            quoted: false,
            ..here
        },
    }
}

// A step: whatever stands at the point, which is no blank outside quotes.
pub fn read_step(rest: &[u16], out: &mut [u16], here: Point) -> Point
    requires { (here.used < length rest.now) × (here.units ≤ here.used) }
    ensures { Stepped (step_at here.quoted (drop here.used rest.now)) here out.old out.new result }
{
    let i = here.used;
    match rest[i] {
        QUOTE => read_mark(rest, out, here),
        BACKSLASH => read_slashes(rest, out, here),
        _ => {
            let run = plain_run(&rest[i..], here.quoted);
            let end = i + run;
            copy_run(out, here.units, &rest[i..end]);
            Point {
                used: end,
                units: here.units + run,
                ..here
            }
        }
    }
}
