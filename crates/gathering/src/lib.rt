// The words of the call, taken from UTF-8 into one text, with a record for each. Where none is answered, what is wrong was said.
#![tactic(auto)]

ghost use Rattle.std.specs.Prelude.{◌≡◌, ◌+◌, ◌<◌, ◌≤◌, ◌^◌, true, length, IfOk, IfSome, OnErr};

use console::reports::{no_entry, no_room, no_utf8, say_error};
use console::room;
use std::io::Result;
use std::rt::Env;
use stores::put;
use terminal::utf8::decode;
use terminal::words::{arg_count, is_force, key_length, put_span};

// What a word is gathered as.
#[derive(Clone, Copy, Debug, PartialEq, Eq)]
pub enum Kind {
    Argument,
    Entry,
}

// How far words are gathered: the units in the text, and the numbers of their records.
#[derive(Clone, Copy, Debug, PartialEq, Eq)]
pub struct Spot {
    pub at: usize,
    pub numbers: usize,
}

// A call with a program or a script and its arguments: whether quotes are forced, the units of the program, which the text begins with, and
// the numbers of the arguments' records.
#[derive(Clone, Copy, Debug, PartialEq, Eq)]
pub struct Call {
    pub force: bool,
    pub units: usize,
    pub numbers: usize,
}

// A word of the call by its index, and where its units stand in the text.
#[derive(Clone, Copy)]
struct Word {
    index: usize,
    at: usize,
    units: usize,
}

// Whether the word behind the command asks for quotes.
fn is_forced(rt: &impl Env) -> bool {
    let mut word = room::word();
    match rt.arg(2, &mut word) {
        Ok(n) => is_force(&word[..n]),
        Err(_) => false,
    }
}

// The units of a word into the text, from a place on. Answers how many there are.
fn take_bytes(
    rt: &impl Print,
    index: usize,
    word: &[u8],
    text: &mut [u16],
    at: usize,
) -> Result<Option<usize>>
    requires { at ≤ length text.old }
    ensures ok { IfOk result (λ took. IfSome took (λ units. at + units ≤ length text.old)) }
    ensures err { OnErr result (length text.new ≡ length text.old) }
{
    let taken = decode(word, &mut text[at..]);
    let units = taken.units;
    if text.len() - at < units {
        no_room(rt, index)?;
        return Ok(None);
    }
    if taken.bytes < word.len() {
        let end = at + units;
        no_utf8(rt, index, &text[at..end], taken.bytes)?;
        return Ok(None);
    }
    Ok(Some(units))
}

// A word of the call into the text, from a place on. It is read to an array of its own, which has room for the longest word that Linux hands over.
pub fn take_word(
    rt: &(impl Env + Print),
    index: usize,
    text: &mut [u16],
    at: usize,
) -> Result<Option<usize>>
    requires { at ≤ length text.old }
    ensures ok { IfOk result (λ took. IfSome took (λ units. at + units ≤ length text.old)) }
    ensures err { OnErr result (length text.new ≡ length text.old) }
{
    let mut word = room::word();
    match rt.arg(index, &mut word) {
        Ok(n) => take_bytes(rt, index, &word[..n], text, at),
        Err(_) => {
            say_error(rt, index, "has more bytes than Linux hands over")?;
            Ok(None)
        }
    }
}

// The record of a word in the text as an argument: kind, start and length. The answer is its end.
fn put_argument(
    rt: &impl Print,
    word: Word,
    table: &mut [u32],
    numbers: usize,
) -> Result<Option<usize>>
    requires { numbers ≤ length table.old }
    ensures ok { IfOk result (λ put. IfSome put (λ end. end ≤ length table.old)) }
    ensures err { OnErr result (length table.new ≡ length table.old) }
{
    put(table, numbers, 0);
    if !put_span(table, numbers + 1, word.at, word.units) {
        no_room(rt, word.index)?;
        return Ok(None);
    }
    Ok(Some(numbers + 3))
}

// Start and length of an entry's key and of its value, behind the `=`, if they have a place in the table.
fn put_key_and_value(word: Word, key: usize, table: &mut [u32], numbers: usize) -> bool
    requires { (key < word.units) × (word.at + word.units < 2 ^ 63) × (numbers ≤ length table.old) }
    ensures { result ≡ true → numbers + 4 ≤ length table.old }
{
    put_span(table, numbers, word.at, key)
        && put_span(table, numbers + 2, word.at + key + 1, word.units - key - 1)
}

// The record of a word in the text as an entry: start and length of key and value. The answer is its end.
fn put_entry(
    rt: &impl Print,
    word: Word,
    text: &[u16],
    table: &mut [u32],
    numbers: usize,
) -> Result<Option<usize>>
    requires { (word.at + word.units ≤ length text.now) × (numbers ≤ length table.old) }
    ensures ok { IfOk result (λ put. IfSome put (λ end. end ≤ length table.old)) }
    ensures err { OnErr result (length table.new ≡ length table.old) }
{
    let end = word.at + word.units;
    let units = &text[word.at..end];
    let key = key_length(units);
    if units.len() <= key {
        no_entry(rt, word.index, units)?;
        return Ok(None);
    }
    if !put_key_and_value(word, key, table, numbers) {
        no_room(rt, word.index)?;
        return Ok(None);
    }
    Ok(Some(numbers + 4))
}

// One word more. The text and the table stay parameters: each method of a struct that lends them would have to say that it keeps their lengths.
fn add_word(
    rt: &(impl Env + Print),
    kind: Kind,
    index: usize,
    spot: Spot,
    text: &mut [u16],
    table: &mut [u32],
) -> Result<Option<Spot>>
    requires { (spot.at ≤ length text.old) × (spot.numbers ≤ length table.old) }
    ensures ok { IfOk result (λ added. IfSome added (λ next. (next.at ≤ length text.old) × (next.numbers ≤ length table.old))) }
    ensures err { OnErr result ((length text.new ≡ length text.old) × (length table.new ≡ length table.old)) }
{
    let Spot { at, numbers } = spot;
    let Some(units) = take_word(rt, index, text, at)? else {
        return Ok(None);
    };
    let word = Word { index, at, units };
    let put = match kind {
        Kind::Argument => put_argument(rt, word, table, numbers)?,
        Kind::Entry => put_entry(rt, word, text, table, numbers)?,
    };
    let at = at + units;
    Ok(put.map(|numbers| Spot { at, numbers }))
}

// The words from an index on, their units in the text from a place on.
pub fn gather(
    rt: &(impl Env + Print),
    kind: Kind,
    from: usize,
    start: usize,
    text: &mut [u16],
    table: &mut [u32],
) -> Result<Option<Spot>>
    requires { start ≤ length text.old }
    ensures ok { IfOk result (λ gathered. IfSome gathered (λ spot. (spot.at ≤ length text.old) × (spot.numbers ≤ length table.old))) }
    ensures err { OnErr result ((length text.new ≡ length text.old) × (length table.new ≡ length table.old)) }
{
    let mut spot = Spot {
        at: start,
        numbers: 0,
    };
    for index in from..arg_count(rt) {
        let Some(next) = add_word(rt, kind, index, spot, text, table)? else {
            return Ok(None);
        };
        spot = next;
    }
    Ok(Some(spot))
}

// The words of a call with a program or a script and its arguments.
pub fn gather_call(
    rt: &(impl Env + Print),
    text: &mut [u16],
    table: &mut [u32],
) -> Result<Option<Call>>
    ensures ok { IfOk result (λ gathered. IfSome gathered (λ call. (call.units ≤ length text.old) × (call.numbers ≤ length table.old))) }
    ensures err { OnErr result ((length text.new ≡ length text.old) × (length table.new ≡ length table.old)) }
{
    let force = is_forced(rt);
    let first = if force { 3 } else { 2 };
    if arg_count(rt) <= first {
        println!(rt; "error: name a program or a script, then its arguments")?;
        return Ok(None);
    }
    let Some(units) = take_word(rt, first, text, 0)? else {
        return Ok(None);
    };
    let Some(spot) = gather(rt, Kind::Argument, first + 1, units, text, table)? else {
        return Ok(None);
    };
    Ok(Some(Call {
        force,
        units,
        numbers: spot.numbers,
    }))
}
