// A line of either kind from a flat list of records: the records are judged at once, then every turn of the work is driven.
ghost use Rattle.std.specs.Prelude.{length};
ghost use Rattle.rules.specs.Answer.{Answered, built_said};
ghost use Rattle.rules.specs.Building.{either_line};

use crate::works::Turn;
use crate::{turns, works};
use rules::{Line, Refusal};
use units::classes::Classes;

// Builds a line.
// Two flags and no `Style`: whoever asks for a line has them one by one.
pub fn build(
    batch: bool,
    lent: &[u16],
    records: &[u32],
    text: &[u16],
    force_quotes: bool,
    out: &mut [u16],
) -> Result<Line, Refusal>
    ensures { Answered (either_line batch force_quotes lent.now records.now text.now (length out.old)) (built_said result) out.old out.new }
{
    let classes = Classes::new();
    records::first_fault(text, records)?;
    let mut work = works::begin_judged(batch, force_quotes, records.len() / 3);
    loop {
        let arg = records::record_at(records, work.at);
        match turns::turn(work, arg, &classes, lent, text, out)? {
            Turn::On(next) => work = next,
            Turn::Done(line) => return Ok(line),
        }
    }
}
