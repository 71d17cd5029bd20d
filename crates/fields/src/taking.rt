// The fields of words, taken into one lent text and a table of numbers beside it: each is put behind what they hold already.
ghost use Rattle.std.specs.Prelude.{List, [], ◌∷◌, ℕ, ◌+◌, ◌<◌, ◌≤◌, length};
ghost use Rattle.fields.specs.Field.{Pushed, Room, Grew, field_on, held_in};
ghost use Rattle.fields.specs.declared.taking.Field.TheVariants as Field;

use forms::numbers::number_of;
use forms::texts::take_text;

// What the high half of a number of 64 bits stands for.
pub(crate) const HIGH: u64 = 1 << 32;

// How many units and how many numbers are held.
// The lent text and table stand beside it: a struct that held them would have to say in each clause that it still holds the same ones.
#[derive(Clone, Copy, Debug, PartialEq, Eq)]
pub struct Held {
    pub units: usize,
    pub count: usize,
}

// A field: a number of 32 bits that is at most so large, which takes one number of the table; one of 64 bits, which takes two, the low half first; or a
// text, which takes two, its start and its length. In a text a colon stands for itself where it is so said.
#[derive(Clone, Copy, Debug, PartialEq, Eq)]
pub enum Field {
    Count(u32),
    Wide,
    Text(bool),
}

impl Held {
    // Numbers more, and so many units then.
    fn push(self, numbers: &mut [u32], new: &[u32], units: usize) -> Held
        requires { self.count + length new.now ≤ length numbers.old }
        ensures { Pushed self new.now units result numbers.old numbers.new }
    {
        let count = self.count + new.len();
        numbers[self.count..count].copy_from_slice(new);
        Held { units, count }
    }
}

// A number of 32 bits.
#[tactic(auto, using(crate::proofs::Holding::count_grew, crate::proofs::Holding::count_ill))]
fn take_count(word: &[u8], most: u32, numbers: &mut [u32], h: Held) -> Option<Held>
    requires { h.count < length numbers.old }
    ensures { (text : List ℕ) → Grew (field_on (Field.Count most) (held_in h text numbers.old) word.now) (length word.now) h result text numbers.new }
{
    let number = number_of(word, u64::from(most))?;
    Some(h.push(numbers, &[number as u32], h.units))
}

// A number of 64 bits.
#[tactic(auto, using(crate::proofs::Holding::wide_grew, crate::proofs::Holding::wide_ill))]
fn take_wide(word: &[u8], numbers: &mut [u32], h: Held) -> Option<Held>
    requires { (h.count + 1 < length numbers.old) × (0 < length word.now) }
    ensures { (text : List ℕ) → Grew (field_on Field.Wide (held_in h text numbers.old) word.now) (length word.now) h result text numbers.new }
{
    let number = number_of(word, u64::MAX)?;
    let low = (number % HIGH) as u32;
    let high = (number / HIGH) as u32;
    Some(h.push(numbers, &[low, high], h.units))
}

// A text.
#[tactic(auto, using(crate::proofs::Holding::text_grew, crate::proofs::Holding::text_ill))]
fn take_span(
    word: &[u8],
    colons: bool,
    text: &mut [u16],
    numbers: &mut [u32],
    h: Held,
) -> Option<Held>
    requires { Room h (length word.now) (length text.old) (length numbers.old) × (0 < length word.now) }
    ensures { Grew (field_on (Field.Text colons) (held_in h text.old numbers.old) word.now) (length word.now) h result text.new numbers.new }
{
    let start = h.units;
    let n = take_text(word, colons, text, start)?;
    Some(h.push(numbers, &[start as u32, n as u32], start + n))
}

// A field of any kind. An empty one is none.
#[tactic(auto, using(crate::proofs::Holding::no_field))]
pub fn take_field(
    field: Field,
    word: &[u8],
    text: &mut [u16],
    numbers: &mut [u32],
    h: Held,
) -> Option<Held>
    requires { Room h (length word.now) (length text.old) (length numbers.old) }
    ensures { Grew (field_on field (held_in h text.old numbers.old) word.now) (length word.now) h result text.new numbers.new }
{
    if word.is_empty() {
        return None;
    }
    match field {
        Field::Count(most) => take_count(word, most, numbers, h),
        Field::Wide => take_wide(word, numbers, h),
        Field::Text(colons) => take_span(word, colons, text, numbers, h),
    }
}
