// The calls to a store of prepared lines: the table with a row for each, and the functions that answer them.
#![tactic(auto)]

ghost use Rattle.std.specs.Prelude.{◌≤◌, ◌≡◌, length};
ghost use Rattle.rules.specs.Cache.{cache_places};
ghost use Rattle.rules.specs.Key.{launch};
ghost use Rattle.rules.specs.Store.{LooksUp, Stores};
ghost use Rattle.services.specs.Call.{Shows, fingerprint_in, launch_in, units_of};

use cache::WORDS;
use fields::values::{number_at, rest_from, text_at, wide_at};
use replies::answers::{Answer, Word};
use sayings::{cached_told, said};
use words::lines::{Line, take_line};

// Each call's verb, and a letter for each word behind it (`words`, shapes); the last letter stands for all further words, and `.` for none.
// One text a row: `words::take_line` takes rows of 20 bytes, and tells verb and letters apart.
const ROWS: [[u8; 20]; 4] = [
    *b"make n.             ",
    *b"look wfta           ",
    *b"store wfta          ",
    *b"clear .             ",
];

// What `look` and `store` ask for, apart from the text of the records.
// Not the `Lent` of the cache: that has the text, and no fingerprint.
struct Call<'a> {
    fingerprint: u64,
    force: bool,
    program: &'a [u16],
    records: &'a [u32],
}

// `FP F PROGRAM [K:TEXT ..]`
fn call_in<'a>(text: &'a [u16], numbers: &'a [u32]) -> Call<'a>
    ensures fingerprint { result.fingerprint ≡ fingerprint_in numbers.now }
    ensures launches { launch result.force result.program.now result.records.now text.now ≡ launch_in text.now numbers.now }
{
    Call {
        fingerprint: wide_at(numbers, 0),
        force: number_at(numbers, 2) == 1,
        program: text_at(text, numbers, 3),
        records: rest_from(numbers, 5),
    }
}

// `make UNITS`, where so many are lent. Of more no store is made, and the one that there is stays.
fn make(numbers: &[u32], made: &mut Option<usize>, index: &mut [u64; WORDS], lent: usize) -> Answer
    requires { units_of made.old ≤ lent }
    ensures { units_of made.new ≤ lent }
{
    let units = number_at(numbers, 0) as usize;
    if lent < units {
        return said(Word::Bad);
    }
    cache::make(index);
    *made = Some(units);
    said(Word::Ok)
}

// `look FP F PROGRAM [K:TEXT ..]`
fn look(
    text: &[u16],
    numbers: &[u32],
    index: &[u64; WORDS],
    units: &[u16],
    spans: &mut [u32],
) -> Answer
    ensures { Shows (LooksUp cache_places index.now units.now (fingerprint_in numbers.now) (launch_in text.now numbers.now)) result spans.old spans.new }
{
    let Call {
        fingerprint,
        force,
        program,
        records,
    } = call_in(text, numbers);
    let cached = cache::lookup(index, units, fingerprint, program, records, text, force);
    cached_told(cached, spans)
}

// `store FP F PROGRAM [K:TEXT ..]`
// A function beside `look`, and not one that takes which: the one is lent the store to read it, the other to write it.
fn store(
    text: &[u16],
    numbers: &[u32],
    index: &mut [u64; WORDS],
    units: &mut [u16],
    spans: &mut [u32],
) -> Answer
    ensures { Shows (λ c. Stores cache_places (fingerprint_in numbers.now) (launch_in text.now numbers.now) c index.old units.old index.new units.new) result spans.old spans.new }
{
    let Call {
        fingerprint,
        force,
        program,
        records,
    } = call_in(text, numbers);
    let cached = cache::store(index, units, fingerprint, program, records, text, force);
    cached_told(cached, spans)
}

// `clear`
fn clear(index: &mut [u64; WORDS]) -> Answer {
    cache::clear(index);
    said(Word::Ok)
}

// The call of a row, in the order of the table. Before a store was made, any but `make` is bad.
// A row, which is the table's index: an enum would name each call three times.
fn serve_row(
    row: usize,
    text: &[u16],
    numbers: &[u32],
    made: &mut Option<usize>,
    index: &mut [u64; WORDS],
    units: &mut [u16],
    spans: &mut [u32],
) -> Answer
    requires { units_of made.old ≤ length units.old }
    ensures { units_of made.new ≤ length units.old }
{
    if row == 0 {
        return make(numbers, made, index, units.len());
    }
    let Some(end) = *made else {
        return said(Word::Bad);
    };
    let units = &mut units[..end];
    match row {
        1 => look(text, numbers, index, units, spans),
        2 => store(text, numbers, index, units, spans),
        _ => clear(index),
    }
}

// Answers a call, over a store that was made over so many of the lent units, or none. A bad one leaves the store as it is.
// The store is lent in parts, what was made of it beside them: a struct that lent them would have to say in each clause that it still lends the same ones.
pub fn serve(
    line: &[u8],
    text: &mut [u16],
    numbers: &mut [u32],
    made: &mut Option<usize>,
    index: &mut [u64; WORDS],
    units: &mut [u16],
    spans: &mut [u32],
) -> Answer
    requires { units_of made.old ≤ length units.old }
    ensures { units_of made.new ≤ length units.old }
{
    let Some(Line { row, held }) = take_line(&ROWS, line, text, numbers) else {
        return said(Word::Bad);
    };
    let text = &text[..held.units];
    let numbers = &numbers[..held.count];
    serve_row(row, text, numbers, made, index, units, spans)
}
