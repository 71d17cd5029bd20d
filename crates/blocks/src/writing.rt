// The units of a block. The same routine measures and writes: lent no output, it stores nothing.
ghost use Rattle.std.specs.Prelude.{◌≡◌, ◌≤◌, length};
ghost use Rattle.rules.specs.Record.{entries_of, entry_of};
ghost use Rattle.rules.specs.Block.{block_limit};
ghost use Rattle.blocks.specs.Entries.{ruled, one_entry, Written, until_past, block_until_past};

use crate::BLOCK_LIMIT;
use crate::entry_records::{EntryRecord, NUMBERS};
use stores::{copy_run, put};
use units::parts;

// `=`, which stands behind a key.
const EQUALS: u16 = 61;

// NUL, which ends an entry and the block.
const NUL: u16 = 0;

// Key, `=`, value, NUL from a place on, as far as the output has places. Answers the place behind.
fn put_entry(out: &mut [u16], at: usize, text: &[u16], entry: EntryRecord) -> usize
    requires { at ≤ block_limit }
    ensures { Written at (one_entry (entry_of text.now (ruled entry))) out.old out.new result }
{
    let key = parts::part_of(text, entry.key_start, entry.key_len);
    copy_run(out, at, key);
    let mark = at + key.len();
    put(out, mark, EQUALS);
    let value = parts::part_of(text, entry.value_start, entry.value_len);
    let start = mark + 1;
    copy_run(out, start, value);
    let last = start + value.len();
    put(out, last, NUL);
    last + 1
}

// The entries from the front on. Many records can name the same long text, so counting stops once past the limit: a further sum could wrap.
fn put_entries(out: &mut [u16], records: &[u32], text: &[u16]) -> usize
    ensures { Written 0 (until_past block_limit 0 (entries_of text.now records.now)) out.old out.new result }
{
    let (whole, _) = records.as_chunks::<NUMBERS>();
    let mut to = 0;
    for numbers in whole {
        to = put_entry(out, to, text, EntryRecord::from(numbers));
        if BLOCK_LIMIT < to {
            return to;
        }
    }
    to
}

// The block: the entries and one NUL, or two NULs where there are none; past the limit the entries that were counted.
pub fn put_block(out: &mut [u16], records: &[u32], text: &[u16]) -> usize
    ensures { Written 0 (block_until_past block_limit (entries_of text.now records.now)) out.old out.new result }
{
    let end = put_entries(out, records, text);
    if BLOCK_LIMIT < end {
        return end;
    }
    put(out, end, NUL);
    if end == 0 {
        put(out, 1, NUL);
        2
    } else {
        end + 1
    }
}

// How many units the block has, or a number past the limit where it has more than that.
pub fn block_len(records: &[u32], text: &[u16]) -> usize
    ensures { result ≡ length (block_until_past block_limit (entries_of text.now records.now)) }
{
    put_block(&mut [], records, text)
}
