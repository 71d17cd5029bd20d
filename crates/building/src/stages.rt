// The stages of building a line, one behind each pass over the records: what is judged there, what is stored, and which pass comes next.
ghost use Rattle.std.specs.Prelude.{◌≡◌, length};
ghost use Rattle.building.specs.Line.{frame_units};
ghost use Rattle.building.specs.Works.{after_records, Staged, surely_fits, after_units, after_units_out, after_measuring, after_measuring_out, opened, opened_out, after_writing, after_writing_out};

use crate::works;
use crate::works::{Pass, Work};
use adding::limits;
use rules::{Line, Refusal};

// The last quote of a batch line.
const QUOTE: u16 = 34;

// How many units stand round the name of an ordinary line and round the arguments: two quotes.
const LINE_FRAME: usize = 2;

// The same in a batch line, with the last quote behind the arguments.
const BATCH_FRAME: usize = 31;

// How many units stand round the arguments: before them, and behind them the last quote of a batch line.
fn frame_units(batch: bool, name: &[u16]) -> usize
    ensures { result ≡ frame_units batch name.now }
{
    let around = if batch { BATCH_FRAME } else { LINE_FRAME };
    limits::count_on(name.len(), around)
}

// Behind the record pass: 7, then 5 for program or script. The next one begins with what stands round the arguments.
// What is lent stands beside the state, here and below: the state goes by value from turn to turn, and what is lent does not.
pub fn after_records(work: Work, lent: &[u16]) -> Result<Work, Refusal>
    ensures { result ≡ after_records lent.now work }
{
    let batch = work.style.batch;
    if names::is_no_script(batch, lent) {
        return Err(Refusal::Script);
    }
    let name = names::name_of(batch, lent);
    if scans::has_nul(name) {
        return Err(Refusal::Nul(0));
    }
    Ok(works::enter(work, Pass::Units, frame_units(batch, name)))
}

// Into writing: what stands before the arguments. Nothing is stored before this.
fn open(work: Work, lent: &[u16], out: &mut [u16]) -> Work
    ensures { Staged (opened lent.now work) (opened_out lent.now work out.old) result out.new }
{
    let batch = work.style.batch;
    let units = names::put_head(batch, names::name_of(batch, lent), out);
    works::enter(work, Pass::Write, units)
}

// Whether the most that a line can take is neither past the limit nor past the room.
fn surely_fits(batch: bool, units: usize, room: usize) -> bool
    ensures { result ≡ surely_fits batch units room }
{
    units <= limits::limit_of(batch) && units <= room
}

// Behind the units pass: where even the most that the arguments can take fits the limit and the room, nothing is measured.
pub fn after_units(work: Work, lent: &[u16], out: &mut [u16]) -> Work
    ensures { Staged (after_units lent.now (length out.old) work) (after_units_out lent.now work out.old) result out.new }
{
    let batch = work.style.batch;
    if surely_fits(batch, work.units, out.len()) {
        return open(work, lent, out);
    }
    let name = names::name_of(batch, lent);
    works::enter(work, Pass::Measure, frame_units(batch, name))
}

// Behind measuring: 2, then 4, both on the whole line.
pub fn after_measuring(work: Work, lent: &[u16], out: &mut [u16]) -> Result<Work, Refusal>
    ensures { Staged (after_measuring lent.now (length out.old) work) (after_measuring_out lent.now work out.old) result out.new }
{
    if limits::limit_of(work.style.batch) < work.units {
        return Err(Refusal::Length);
    }
    if out.len() < work.units {
        return Err(Refusal::Room);
    }
    Ok(open(work, lent, out))
}

// Behind writing: the last quote of a batch line.
pub fn after_writing(work: Work, out: &mut [u16]) -> Line
    ensures { Staged (after_writing work) (after_writing_out work out.old) result out.new }
{
    let units = work.units;
    if work.style.batch {
        stores::put(out, units, QUOTE);
        Line {
            units: limits::count_on(units, 1),
        }
    } else {
        Line { units }
    }
}
