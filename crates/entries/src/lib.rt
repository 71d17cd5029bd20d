// The entries of an environment block: the spans of keys and values in the lent block itself, into a lent table.
#![tactic(auto)]

ghost use Rattle.std.specs.Prelude.{length};
ghost use Rattle.rules.specs.Answer.{Listing};
ghost use Rattle.rules.specs.BlockReading.{block_reading};

use rules::{Entries, Refusal};
use walking::walk;

mod marks;
mod walking;

// The most units of a slice that a block is read from.
pub const BLOCK_LIMIT: usize = 65535;

// Lists the entries of a block that `make_envp` or a process has made. A refusal is decided before anything is stored.
pub fn read_envp(block: &[u16], spans: &mut [u32]) -> Result<Entries, Refusal>
    ensures { Listing (block_reading block.now (length spans.old)) result spans.old spans.new }
{
    if BLOCK_LIMIT < block.len() {
        return Err(Refusal::Length);
    }
    let need = walk(block, &mut [])?;
    if spans.len() / 2 < 2 * need.count {
        return Err(Refusal::Places);
    }
    walk(block, spans)
}
