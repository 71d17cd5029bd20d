// An entry of a store found by fingerprint and key. What the words of an index say is clipped to what is lent, so that no content leads out of it.
#![tactic(auto)]

ghost use Rattle.std.specs.Prelude.{◌≡◌, ◌+◌, ◌*◌, ◌≤◌, length};
ghost use Rattle.keys.specs.Lent.{launch_of, arguments_lent};
ghost use Rattle.finding.specs.Found.{answers_at, line_at, FindsLine};

use keys::index::{flag_word, word_at};
use keys::lent::Lent;
use keys::matching::is_key;
use units::parts;

// Where the line of an entry stands in the units of a store.
// Start and units are fields of `Cached` again, because definitions name them there.
#[derive(Clone, Copy, Debug, PartialEq, Eq)]
pub struct Place {
    pub start: usize,
    pub units: usize,
}

// Whether the entry whose words stand at a place of the index has that fingerprint and, only looked at then, that key.
fn answers(index: &[u64], at: usize, units: &[u16], fingerprint: u64, lent: &Lent<'_>) -> bool
    requires { at + 6 ≤ length index.now }
    ensures { result ≡ answers_at index.now at units.now fingerprint lent.now.force_quotes lent.now.program.now (arguments_lent lent.now) }
{
    if index[at] != fingerprint {
        return false;
    }
    if index[at + 1] != flag_word(lent.force_quotes) {
        return false;
    }
    if word_at(index, at + 2) != lent.program.len() {
        return false;
    }
    let key = parts::part_at(units, word_at(index, at + 3), word_at(index, at + 4));
    is_key(key, lent)
}

// Where its line stands: behind its key.
// By places and no struct of the words: each is clipped by those before it.
fn line_at(index: &[u64], at: usize, room: usize) -> Place
    requires { at + 6 ≤ length index.now }
    ensures { result ≡ line_at index.now at room }
{
    let key = word_at(index, at + 3).min(room);
    let start = key + word_at(index, at + 4).min(room - key);
    let units = word_at(index, at + 5).min(room - start);
    Place { start, units }
}

// The line of the first entry with that fingerprint and that key, in a store of so many places.
pub fn find(
    places: usize,
    index: &[u64],
    units: &[u16],
    fingerprint: u64,
    lent: &Lent<'_>,
) -> Option<Place>
    requires { 2 + 6 * places ≤ length index.now }
    ensures { FindsLine places index.now units.now fingerprint (launch_of lent.now) result }
{
    let n = places.min(word_at(index, 0));
    for i in 0..n {
        let at = 2 + 6 * i;
        if answers(index, at, units, fingerprint, lent) {
            return Some(line_at(index, at, units.len()));
        }
    }
    None
}
