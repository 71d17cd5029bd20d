// One turn of building a line: the order of the passes, said once. Whoever has the records drives it.
ghost use Rattle.std.specs.Prelude.{◌≡◌, ◌<◌};
ghost use Rattle.building.specs.Passes.{lent_units};
ghost use Rattle.building.specs.Works.{TakenRecord, Closed, Turned};

use crate::works::{Pass, Turn, Work};
use crate::{stages, works};
use adding::{judging, writing};
use rules::{Arg, Refusal};
use units::classes::Classes;

// How much of an output of so many units a pass is lent: measuring is lent nothing.
fn lent_units(pass: Pass, room: usize) -> usize
    ensures { result ≡ lent_units pass room }
{
    match pass {
        Pass::Records | Pass::Units | Pass::Measure => 0,
        Pass::Write => room,
    }
}

// The next record of the pass.
fn take(
    work: Work,
    arg: Arg,
    classes: &Classes,
    text: &[u16],
    out: &mut [u16],
) -> Result<Work, Refusal>
    requires { work.at < work.count }
    ensures { TakenRecord text.now arg work result out.old out.new }
{
    let style = work.style;
    let at = work.at + 1;
    let units = match work.pass {
        Pass::Records => judging::judge_record(text, work.units, at, arg)?,
        Pass::Units => judging::judge_units(style.batch, text, work.units, at, arg)?,
        Pass::Measure | Pass::Write => {
            let end = lent_units(work.pass, out.len());
            writing::add_argument(classes, &mut out[..end], work.units, text, arg, style)
        }
    };
    Ok(Work { units, at, ..work })
}

// Behind the last record of a pass: its stage, and into the next pass.
fn close(work: Work, lent: &[u16], out: &mut [u16]) -> Result<Turn, Refusal>
    ensures { Closed lent.now work result out.old out.new }
{
    match work.pass {
        Pass::Records => Ok(Turn::On(stages::after_records(work, lent)?)),
        Pass::Units => Ok(Turn::On(stages::after_units(work, lent, out))),
        Pass::Measure => Ok(Turn::On(stages::after_measuring(work, lent, out)?)),
        Pass::Write => Ok(Turn::Done(stages::after_writing(work, out))),
    }
}

// One turn: the next record of the pass, or where none is left the stage behind it. Then the record is not looked at: it is no Option, because the count in
// the state says whether one is left, and so keeps the index from wrapping.
pub fn turn(
    work: Work,
    arg: Arg,
    classes: &Classes,
    lent: &[u16],
    text: &[u16],
    out: &mut [u16],
) -> Result<Turn, Refusal>
    ensures { Turned lent.now text.now arg work result out.old out.new }
{
    if work.at < work.count {
        Ok(Turn::On(take(work, arg, classes, text, out)?))
    } else {
        close(work, lent, out)
    }
}
