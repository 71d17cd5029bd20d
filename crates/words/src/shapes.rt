// The shape of a word: one field, or two with a colon between them. A letter of a table's row stands for it.
ghost use Rattle.std.specs.Prelude.{◌≡◌, length};
ghost use Rattle.fields.specs.Field.{Room, Grew, held_in};
ghost use Rattle.words.specs.Shape.{shape_of, shape_at, shape_on};
ghost use Rattle.words.specs.declared.shapes.Shape.TheVariants as Shape;

use fields::taking::{Field, Held, take_field};
use octets::find;

// What a word is.
#[derive(Clone, Copy, Debug, PartialEq, Eq)]
pub enum Shape {
    One(Field),
    Two(Field, Field),
}

// The shape that a letter stands for: a flag, a number, a wide number, a text, an argument `K:TEXT`, or an entry `KEY:VALUE`.
fn shape_of(letter: u8) -> Option<Shape>
    ensures { result ≡ shape_of letter }
{
    let shape = match letter {
        b'f' => Shape::One(Field::Count(1)),
        b'n' => Shape::One(Field::Count(u32::MAX)),
        b'w' => Shape::One(Field::Wide),
        b't' => Shape::One(Field::Text(true)),
        b'a' => Shape::Two(Field::Count(u32::MAX), Field::Text(true)),
        b'e' => Shape::Two(Field::Text(false), Field::Text(false)),
        _ => return None,
    };
    Some(shape)
}

// The shape of the word with an index: the last letter stands for all words from there on.
pub fn shape_at(letters: &[u8], index: usize) -> Option<Shape>
    ensures { result ≡ shape_at letters.now index }
{
    let letter = letters.get(index).or(letters.last())?;
    shape_of(*letter)
}

// Two fields with a colon between them, the word's first.
fn take_pair(
    front: Field,
    back: Field,
    word: &[u8],
    text: &mut [u16],
    numbers: &mut [u32],
    h: Held,
) -> Option<Held>
    requires { Room h (length word.now) (length text.old) (length numbers.old) }
    ensures { Grew (shape_on (Some (Shape.Two front back)) (held_in h text.old numbers.old) word.now) (length word.now) h result text.new numbers.new }
{
    let colon = find(word, b':');
    if word.len() <= colon {
        return None;
    }
    let held = take_field(front, &word[..colon], text, numbers, h)?;
    take_field(back, &word[colon + 1..], text, numbers, held)
}

// A word of a shape, or of none, which is no word.
// An Option, though its caller has a shape: the definition that is its contract takes one.
#[tactic(auto, unfolding(crate::specs::Shape::shape_on))]
pub fn take_word(
    shape: Option<Shape>,
    word: &[u8],
    text: &mut [u16],
    numbers: &mut [u32],
    h: Held,
) -> Option<Held>
    requires { Room h (length word.now) (length text.old) (length numbers.old) }
    ensures { Grew (shape_on shape (held_in h text.old numbers.old) word.now) (length word.now) h result text.new numbers.new }
{
    match shape? {
        Shape::One(field) => take_field(field, word, text, numbers, h),
        Shape::Two(front, back) => take_pair(front, back, word, text, numbers, h),
    }
}
