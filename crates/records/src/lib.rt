// Argument records in a flat list of numbers, and the first of them that is at fault.
#![tactic(auto)]

ghost use Rattle.std.specs.Prelude.{◌≡◌, get_or};
ghost use Rattle.rules.specs.Record.{argument_fault};
ghost use Rattle.records.specs.Records.{is_wrong, records_of, no_arg, verdict_fault};

use rules::{Arg, Refusal};
use units::kinds;

// 1: a kind that is none, or a part that exceeds the text. Start and length are widened first, so their sum cannot wrap.
pub fn is_wrong(text: &[u16], arg: Arg) -> bool
    ensures { result ≡ is_wrong text.now arg }
{
    kinds::is_no_kind(arg.kind) || text.len() < arg.start as usize + arg.len as usize
}

// What stands for a record where a list has none.
pub const NO_ARG: Arg = Arg {
    kind: 0,
    start: 0,
    len: 0,
};

// The record of an index, or one of zeros where the list has none.
// Zeros and no Option: a turn of building takes a record, and looks at none where no record is left.
pub fn record_at(records: &[u32], index: usize) -> Arg
    ensures { result ≡ get_or (records_of records.now) index no_arg }
{
    if index < records.len() / 3 {
        let at = index * 3;
        Arg {
            kind: records[at],
            start: records[at + 1],
            len: records[at + 2],
        }
    } else {
        NO_ARG
    }
}

// 1 over all records, lowest index first. A list that ends inside a record is wrong at the place behind the whole ones.
pub fn first_fault(text: &[u16], records: &[u32]) -> Result<(), Refusal>
    ensures { verdict_fault result ≡ argument_fault text.now records.now }
{
    let whole = records.len() / 3;
    for i in 0..whole {
        if is_wrong(text, record_at(records, i)) {
            return Err(Refusal::Record(i + 1));
        }
    }
    if whole * 3 < records.len() {
        return Err(Refusal::Record(whole + 1));
    }
    Ok(())
}
