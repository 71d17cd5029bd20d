// Answers in numbers: the refusal's number is returned, place and counts go to a lent array; of a store's answer, place, state and part.
ghost use Rattle.std.specs.Prelude.{◌≡◌, [], ◌∷◌};
ghost use Rattle.rules.specs.Outcome.{refused};
ghost use Rattle.rules.specs.Answer.{answer_said, gave, refusal_number, refusal_place, refusal_said};
ghost use Rattle.rules.specs.Store.{cached_said};
ghost use Rattle.aslapush.specs.Export.{Told, CacheTold};

use rules::{Cached, Refusal};
use units::counts::{Counted, Counts};
use units::refusals::{number_of, place_of};

// The states of a store's answer, by the header's numbers.
const MISSED: u64 = 0;

const HIT: u64 = 1;

const HELD: u64 = 2;

const STORED: u64 = 3;

// What a refusal says: place and no counts.
fn tell_refusal(refusal: Refusal, answer: &mut [u64; 4]) -> u32
    ensures { Told (refusal_said refusal) result answer.new }
{
    *answer = [place_of(refusal) as u64, 0, 0, 0];
    number_of(refusal)
}

// What a result says: how many arguments or entries were read, and how many units written or used.
fn tell_counts(counts: Counts, answer: &mut [u64; 4]) -> u32
    ensures { Told (gave counts.arguments counts.units) result answer.new }
{
    *answer = [0, counts.arguments as u64, counts.units as u64, 0];
    0
}

// What an entry point's answer says.
pub fn tell<T: Counted>(given: Result<T, Refusal>, answer: &mut [u64; 4]) -> u32
    ensures { Told (answer_said T.says given) result answer.new }
{
    match given {
        Ok(counted) => tell_counts(counted.counts(), answer),
        Err(refusal) => tell_refusal(refusal, answer),
    }
}

// What a refusal of a store says.
// Not one with `tell_refusal`: the header has four numbers there and five here.
fn tell_unserved(refusal: Refusal, answer: &mut [u64; 5]) -> u32
    ensures { CacheTold (refused (refusal_number refusal) (refusal_place refusal)) result answer.new }
{
    *answer = [place_of(refusal) as u64, 0, 0, 0, 0];
    number_of(refusal)
}

// What a store says of a line: its state, and where in the store's units it stands.
fn tell_line(state: u64, start: usize, units: usize, answer: &mut [u64; 5]) -> u32
    ensures { (result ≡ 0) × (answer.new ≡ 0 ∷ state ∷ start ∷ units ∷ 0 ∷ []) }
{
    *answer = [0, state, start as u64, units as u64, 0];
    0
}

// What the answer of a store says.
pub fn tell_cached(cached: Result<Cached, Refusal>, answer: &mut [u64; 5]) -> u32
    ensures { CacheTold (cached_said cached) result answer.new }
{
    match cached {
        Ok(Cached::Missed) => tell_line(MISSED, 0, 0, answer),
        Ok(Cached::Hit { start, units }) => tell_line(HIT, start, units, answer),
        Ok(Cached::Held { start, units }) => tell_line(HELD, start, units, answer),
        Ok(Cached::Stored { start, units }) => tell_line(STORED, start, units, answer),
        Err(refusal) => tell_unserved(refusal, answer),
    }
}
