// The words of a call: commands, entries, and the places of words in a text.
ghost use Rattle.std.specs.Prelude.{◌≡◌};
ghost use Rattle.laws.specs.Scan.{before};
ghost use Rattle.rules.specs.Unit.{is_equals};
ghost use Rattle.terminal.specs.Word.{command_of, is_force, key_length, Spanned};

use scans::find_near;
use std::env::{Env, FillError};
use stores::put;

// The unit between a key and its value.
const EQUALS: u16 = b'=' as u16;

// How many words a call has, the name of the tool among them.
pub fn arg_count(rt: &impl Env) -> usize {
    for i in 0..usize::MAX {
        if let Err(FillError::NotPresent) = rt.arg(i, &mut []) {
            return i;
        }
    }
    usize::MAX
}

// What a call asks for.
#[derive(Clone, Copy, Debug, PartialEq, Eq)]
pub enum Command {
    Read,
    Write,
    Batch,
    Env,
    Status,
    Suffix,
    Help,
    Unknown,
}

// The command that a word names.
#[tactic(auto, using(crate::proofs::Commands::commands))]
pub fn command_of(word: &[u8]) -> Command
    ensures { result ≡ command_of word.now }
{
    match word {
        b"read" => Command::Read,
        b"write" => Command::Write,
        b"batch" => Command::Batch,
        b"env" => Command::Env,
        b"status" => Command::Status,
        b"suffix" => Command::Suffix,
        b"help" => Command::Help,
        _ => Command::Unknown,
    }
}

// Whether a word asks for quotes round each argument.
#[tactic(auto, using(crate::proofs::Commands::forces))]
pub fn is_force(word: &[u8]) -> bool
    ensures { result ≡ is_force word.now }
{
    matches!(word, b"--force")
}

// The index of the first `=`, or the length where there is none: all of it is key then.
#[tactic(auto, using(laws::specs::Scan::before_twice))]
fn find_equals(units: &[u16]) -> usize
    ensures { result ≡ before is_equals units.now }
{
    find_near(units, EQUALS, EQUALS)
}

// How long an entry's key is. A key may begin with `=`, so the first unit is no end.
#[tactic(auto, using(crate::proofs::Wording::keys))]
pub fn key_length(units: &[u16]) -> usize
    ensures { result ≡ key_length units.now }
{
    match units {
        [] => 0,
        [_, rest @ ..] => 1 + find_equals(rest),
    }
}

// Start and length of a part into a table, if they have a place there.
#[tactic(auto, using(crate::proofs::Wording::places))]
pub fn put_span(table: &mut [u32], at: usize, start: usize, len: usize) -> bool
    ensures { Spanned at start len result table.old table.new }
{
    if table.len() < 2 || table.len() - 2 < at {
        return false;
    }
    let (Ok(start), Ok(len)) = (u32::try_from(start), u32::try_from(len)) else {
        return false;
    };
    put(table, at, start);
    put(table, at + 1, len);
    true
}
