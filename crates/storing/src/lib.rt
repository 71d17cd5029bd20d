// One entry more in a store. The line is built straight into its place, and only then are key and words written: a refusal has changed nothing.
#![tactic(auto)]

ghost use Rattle.std.specs.Prelude.{◌≡◌, ◌+◌, ◌*◌, ◌≤◌, ◌<◌, length};
ghost use Rattle.std.proofs.lemmas.List.Edits.{sets};
ghost use Rattle.rules.specs.Choice.{pick};
ghost use Rattle.keys.specs.Lent.{launch_of};
ghost use Rattle.storing.specs.Added.{refusal_for, EntryPut, Adds};
ghost use Rattle.storing.specs.Words.{words_of};

use building::make_command_line;
use keys::index::{flag_word, word_at};
use keys::laying;
use keys::lent::Lent;
use rules::{Cached, Line, Refusal};

// Words from a place on.
fn put_words(index: &mut [u64], at: usize, words: &[u64])
    requires { at + length words.now ≤ length index.old }
    ensures { index.new ≡ sets index.old at words.now }
{
    index[at..at + words.len()].copy_from_slice(words);
}

// Where a line is built: behind its key; where all entries are used, behind all units, so that it has no room.
fn place_for(full: bool, all: usize, behind: usize) -> usize
    ensures { result ≡ pick full all behind }
{
    if full { all } else { behind }
}

// The refusal of a line that has no room: 3 where all entries are used, else 4. The builder's others pass through.
fn refusal_for(full: bool, r: Refusal) -> Refusal
    ensures { result ≡ refusal_for full r }
{
    match r {
        Refusal::Room if full => Refusal::Places,
        _ => r,
    }
}

// An entry of a store: what its words say.
#[derive(Clone, Copy, Debug)]
struct Entry {
    fingerprint: u64,
    force_quotes: bool,
    program: usize,
    start: usize,
    key: usize,
    line: usize,
}

// The words of one entry more, whose units start where those of the others end; then how many entries there are and how many units they use.
fn put_entry(index: &mut [u64], count: usize, entry: Entry)
    requires { (2 + 6 * (count + 1) ≤ length index.old) × (entry.start + (entry.key + entry.line) < 18446744073709551616) }
    ensures { EntryPut count entry.start (words_of entry) (entry.start + (entry.key + entry.line)) index.old index.new }
{
    let words = [
        entry.fingerprint,
        flag_word(entry.force_quotes),
        entry.program as u64,
        entry.start as u64,
        entry.key as u64,
        entry.line as u64,
    ];
    put_words(index, 2 + 6 * count, &words);
    let used = entry.start + (entry.key + entry.line);
    let front = [(count + 1) as u64, used as u64];
    put_words(index, 0, &front);
}

// Adds the entry of a key that is not held to a store of so many places.
pub fn add(
    places: usize,
    index: &mut [u64],
    units: &mut [u16],
    fingerprint: u64,
    lent: &Lent<'_>,
) -> Result<Cached, Refusal>
    requires { 2 + 6 * places ≤ length index.old }
    ensures { Adds places fingerprint (launch_of lent.now) result index.old units.old index.new units.new }
{
    let Lent {
        program,
        records,
        text,
        force_quotes,
    } = *lent;
    let count = word_at(index, 0);
    let full = places <= count;
    let used = units.len().min(word_at(index, 1));
    let key = laying::key_size(lent, units.len() - used);
    let start = place_for(full, units.len(), used + key);
    match make_command_line(program, records, text, force_quotes, &mut units[start..]) {
        Err(r) => Err(refusal_for(full, r)),
        Ok(Line { units: line }) => {
            laying::put_key(units, used, lent);
            let entry = Entry {
                fingerprint,
                force_quotes,
                program: program.len(),
                start: used,
                key,
                line,
            };
            put_entry(index, count, entry);
            Ok(Cached::Stored { start, units: line })
        }
    }
}
