// Environment blocks from flat records of keys and values in a lent text.
#![tactic(auto)]

ghost use Rattle.std.specs.Prelude.{length};
ghost use Rattle.rules.specs.Answer.{Answered, filled_said};
ghost use Rattle.rules.specs.Block.{environment_block};

use rules::Refusal;

mod entry_records;
mod judging;
mod writing;

// The most units of a block that is built.
pub const BLOCK_LIMIT: usize = 65535;

// Writes the environment block (Rust: `make_envp`). A refusal is decided before anything is stored.
pub fn make_envp(records: &[u32], text: &[u16], out: &mut [u16]) -> Result<usize, Refusal>
    ensures { Answered (environment_block records.now text.now (length out.old)) (filled_said result) out.old out.new }
{
    if let Some(place) = judging::first_outside(records, text) {
        return Err(Refusal::Record(place));
    }
    if let Some(place) = judging::first_with_nul(records, text) {
        return Err(Refusal::Nul(place));
    }
    let units = writing::block_len(records, text);
    if BLOCK_LIMIT < units {
        return Err(Refusal::Length);
    }
    if out.len() < units {
        return Err(Refusal::Room);
    }
    writing::put_block(out, records, text);
    Ok(units)
}
