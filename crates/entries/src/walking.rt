// The entries of a block one after another, up to its final NUL or to the first bad one.
ghost use Rattle.std.specs.Prelude.{◌≡◌, true, [], ◌∷◌, ◌+◌, ◌*◌, ◌≤◌, ◌<◌, length};
ghost use Rattle.std.proofs.lemmas.List.Edits.{sets};
ghost use Rattle.rules.specs.Block.{block_limit};
ghost use Rattle.rules.specs.BlockReading.{starts_with_nul};
ghost use Rattle.entries.specs.Tallied.{Tallied, Walked};

use crate::marks::{NUL, Sizes, measure_entry};
use rules::{Entries, Refusal};
use stores::put;

// A block that starts with NUL has no entries, and a second NUL ends it.
fn no_entries(block: &[u16]) -> Result<Entries, Refusal>
    requires { starts_with_nul block.now ≡ true }
    ensures { Tallied block.now result }
{
    match block {
        [_, NUL, ..] => Ok(Entries { count: 0, units: 2 }),
        _ => Err(Refusal::Entry(1)),
    }
}

// Start and length of a key and of its value at an entry's places of the table, as far as the table has them.
// Four numbers of a flat table and no struct: the C interface has it so.
fn put_entry(spans: &mut [u32], i: usize, start: usize, entry: Sizes)
    requires { (i < 65536) × (start < 65536) × (entry.key < 65536) × (entry.value < 65536) }
    ensures { spans.new ≡ sets spans.old (4 * i) (start ∷ entry.key ∷ (start + entry.key + 1) ∷ entry.value ∷ []) }
{
    put(spans, 4 * i, start as u32);
    put(spans, 4 * i + 1, entry.key as u32);
    put(spans, 4 * i + 2, (start + entry.key + 1) as u32);
    put(spans, 4 * i + 3, entry.value as u32);
}

// The spans of the entries, as far as the table has places. Lent an empty table, it judges and counts.
pub fn walk(block: &[u16], spans: &mut [u32]) -> Result<Entries, Refusal>
    requires { length block.now ≤ block_limit }
    ensures { Walked block.now spans.old spans.new result }
{
    let mut at = 0;
    let mut count = 0;
    // A while and no iterator: each entry's own sizes lead to the next.
    while at < block.len() {
        if block[at] == NUL {
            if count == 0 {
                return no_entries(block);
            }
            return Ok(Entries {
                count,
                units: at + 1,
            });
        }
        let Some(entry) = measure_entry(&block[at..]) else {
            return Err(Refusal::Entry(count + 1));
        };
        put_entry(spans, count, at, entry);
        at += entry.key + entry.value + 2;
        count += 1;
    }
    Err(Refusal::Entry(count + 1))
}
