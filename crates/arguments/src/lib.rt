// One argument from the rest of a line: argument 0, and a later one.
#![tactic(auto)]

mod runs;
mod steps;

ghost use Rattle.std.specs.Prelude.{false};
ghost use Rattle.arguments.specs.Next.{first_argument, later_argument, OneRead};

use runs::QUOTE;
use steps::{Point, read_step};
use stores::copy_run;

// How many units of the line an argument takes, with the blank that ends it, and how many it has.
#[derive(Clone, Copy, Debug, PartialEq, Eq)]
pub struct Took {
    pub used: usize,
    pub units: usize,
}

// Reads argument 0 and writes it to the front of the output, as far as there is room. Backslashes mean nothing there.
pub fn read_first(line: &[u16], out: &mut [u16]) -> Took
    ensures { OneRead (first_argument false line.now) line.now out.old out.new result.used result.units }
{
    let mut i = 0;
    let mut n = 0;
    let mut quoted = false;
    // A while and no iterator: each run's own length leads on.
    while i < line.len() {
        let run = runs::kept_run(&line[i..], quoted);
        let end = i + run;
        copy_run(out, n, &line[i..end]);
        n += run;
        match line.get(end) {
            None => {
                return Took {
                    used: end,
                    units: n,
                };
            }
            Some(&QUOTE) => quoted = !quoted,
            Some(_) => {
                return Took {
                    used: end + 1,
                    units: n,
                };
            }
        }
        i = end + 1;
    }
    Took { used: i, units: n }
}

// Reads one later argument from the rest of the line, which begins with it, and writes it to the front of the output, as far as there is room.
pub fn read_later(rest: &[u16], out: &mut [u16]) -> Took
    ensures { OneRead (later_argument false rest.now) rest.now out.old out.new result.used result.units }
{
    let mut here = Point {
        used: 0,
        units: 0,
        quoted: false,
    };
    // A while and no iterator: each step tells itself how far it leads.
    while here.used < rest.len() {
        if runs::is_end(rest[here.used], here.quoted) {
            return Took {
                used: here.used + 1,
                units: here.units,
            };
        }
        here = read_step(rest, out, here);
    }
    Took {
        used: here.used,
        units: here.units,
    }
}
