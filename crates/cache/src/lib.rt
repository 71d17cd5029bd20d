// The launch line cache: prepared lines in lent memory, found again by fingerprint and key.
#![tactic(auto)]

ghost use Rattle.std.specs.Prelude.{◌≡◌, ◌≤◌, length};
ghost use Rattle.rules.specs.Record.{part};
ghost use Rattle.rules.specs.Key.{launch};
ghost use Rattle.rules.specs.Cache.{cache_places};
ghost use Rattle.rules.specs.Store.{Empties, LooksUp, Stores};

use finding::{Place, find};
use keys::lent::Lent;
use records::first_fault;
use rules::{Cached, Refusal};
use storing::add;
use units::parts;

// How many lines a store holds.
pub const PLACES: usize = 64;

// How many words an index has, as the header gives it: two in front and six of each entry are used.
pub const WORDS: usize = 481;

// No entries, and no units that they use.
fn empty(index: &mut [u64])
    requires { 2 ≤ length index.old }
    ensures { Empties index.old index.new }
{
    index[0] = 0;
    index[1] = 0;
}

// Makes an empty store, whatever the index held.
pub fn make(index: &mut [u64; WORDS])
    ensures { Empties index.old index.new }
{
    empty(index);
}

// Removes all entries.
// A name of its own for what `make` does: the header has both.
pub fn clear(index: &mut [u64; WORDS])
    ensures { Empties index.old index.new }
{
    empty(index);
}

// Looks for the line of a key under a fingerprint.
// What is lent comes one by one, as the C interface has it; below it is one `Lent`.
pub fn lookup(
    index: &[u64; WORDS],
    units: &[u16],
    fingerprint: u64,
    program: &[u16],
    records: &[u32],
    text: &[u16],
    force_quotes: bool,
) -> Result<Cached, Refusal>
    ensures { LooksUp cache_places index.now units.now fingerprint (launch force_quotes program.now records.now text.now) result }
{
    first_fault(text, records)?;
    let lent = Lent {
        program,
        records,
        text,
        force_quotes,
    };
    Ok(match find(PLACES, index, units, fingerprint, &lent) {
        Some(Place { start, units }) => Cached::Hit { start, units },
        None => Cached::Missed,
    })
}

// The line of a hit: that part of the units.
pub fn line_of(units: &[u16], start: usize, size: usize) -> &[u16]
    ensures { result.now ≡ part units.now start size }
{
    parts::part_at(units, start, size)
}

// Stores the line of a key under a fingerprint. A held one is found before anything is built.
pub fn store(
    index: &mut [u64; WORDS],
    units: &mut [u16],
    fingerprint: u64,
    program: &[u16],
    records: &[u32],
    text: &[u16],
    force_quotes: bool,
) -> Result<Cached, Refusal>
    ensures { Stores cache_places fingerprint (launch force_quotes program.now records.now text.now) result index.old units.old index.new units.new }
{
    first_fault(text, records)?;
    let lent = Lent {
        program,
        records,
        text,
        force_quotes,
    };
    match find(PLACES, index, units, fingerprint, &lent) {
        Some(Place { start, units }) => Ok(Cached::Held { start, units }),
        None => add(PLACES, index, units, fingerprint, &lent),
    }
}
