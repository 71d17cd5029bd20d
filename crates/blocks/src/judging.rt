// The refusals that are decided before anything is counted: 1 over all records, then 5 entry by entry.
ghost use Rattle.std.specs.Prelude.{◌≡◌, ◌+◌, ltb};
ghost use Rattle.rules.specs.Record.{entry_fault, entries_of, entry_of};
ghost use Rattle.rules.specs.Outcome.{first_fault};
ghost use Rattle.rules.specs.Block.{entry_nul_finding};
ghost use Rattle.blocks.specs.Entries.{ruled, is_outside, has_nul, fault_if};

use crate::entry_records::{EntryRecord, NUMBERS};
use units::parts;

// Whether start plus length exceeds a text's length. Both are widened first, so that their sum cannot wrap.
// Not one with the test of an argument record: each is a line, by a definition of its own.
fn exceeds(units: usize, start: u32, len: u32) -> bool
    ensures { result ≡ ltb units (start + len) }
{
    units < start as usize + len as usize
}

// Whether a record's key or value exceeds the text.
fn is_outside(text: &[u16], entry: EntryRecord) -> bool
    ensures { result ≡ is_outside text.now (ruled entry) }
{
    exceeds(text.len(), entry.key_start, entry.key_len)
        || exceeds(text.len(), entry.value_start, entry.value_len)
}

// The place of the first record that exceeds the text or is cut.
pub fn first_outside(records: &[u32], text: &[u16]) -> Option<usize>
    ensures { entry_fault text.now records.now ≡ fault_if 1 result }
{
    let (whole, cut) = records.as_chunks::<NUMBERS>();
    let found = whole
        .iter()
        .position(|numbers| is_outside(text, EntryRecord::from(numbers)));
    match found {
        Some(i) => Some(i + 1),
        None if cut.is_empty() => None,
        None => Some(whole.len() + 1),
    }
}

// Whether a record's key or value has a NUL.
fn has_nul(text: &[u16], entry: EntryRecord) -> bool
    ensures { result ≡ has_nul (entry_of text.now (ruled entry)) }
{
    let key = parts::part_of(text, entry.key_start, entry.key_len);
    let value = parts::part_of(text, entry.value_start, entry.value_len);
    scans::has_nul(key) || scans::has_nul(value)
}

// The place of the first entry with a NUL.
pub fn first_with_nul(records: &[u32], text: &[u16]) -> Option<usize>
    ensures { first_fault entry_nul_finding (entries_of text.now records.now) ≡ fault_if 5 result }
{
    let (whole, _) = records.as_chunks::<NUMBERS>();
    let found = whole
        .iter()
        .position(|numbers| has_nul(text, EntryRecord::from(numbers)));
    found.map(|i| i + 1)
}
