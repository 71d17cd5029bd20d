// A refusal's number and place: the one place in code where the names become the document's numbers.
ghost use Rattle.std.specs.Prelude.{◌≡◌};
ghost use Rattle.rules.specs.Answer.{refusal_number, refusal_place};
ghost use Rattle.laws.specs.Answer.{refusal_of};

use rules::Refusal;

// The refusal's number.
// A function and no `From`: the refusal is declared in `rules`, which has no code of its own.
pub fn number_of(r: Refusal) -> u32
    ensures { result ≡ refusal_number r }
{
    match r {
        Refusal::Record(_) => 1,
        Refusal::Length => 2,
        Refusal::Places => 3,
        Refusal::Room => 4,
        Refusal::Nul(_) => 5,
        Refusal::LineBreak(_) => 6,
        Refusal::Script => 7,
        Refusal::Entry(_) => 8,
    }
}

// The refusal's place: the index of the record or entry at fault plus 1, else 0.
pub fn place_of(r: Refusal) -> usize
    ensures { result ≡ refusal_place r }
{
    match r {
        Refusal::Record(place)
        | Refusal::Nul(place)
        | Refusal::LineBreak(place)
        | Refusal::Entry(place) => place,
        Refusal::Length | Refusal::Places | Refusal::Room | Refusal::Script => 0,
    }
}

// The refusal of a number and a place, where the number is a refusal's.
// No program calls it: its contract says that a number and a place give the refusal back. Any other number is read as 8.
#[tactic(auto, unfolding(laws::specs::Answer::refusal_of))]
pub fn refusal_of(number: u32, place: usize) -> Refusal
    ensures { result ≡ refusal_of number place }
{
    match number {
        1 => Refusal::Record(place),
        2 => Refusal::Length,
        3 => Refusal::Places,
        4 => Refusal::Room,
        5 => Refusal::Nul(place),
        6 => Refusal::LineBreak(place),
        7 => Refusal::Script,
        _ => Refusal::Entry(place),
    }
}
