// What a table of numbers and the text beside it say. Where the table has no such place, the number is 0 and the text empty.
ghost use Rattle.std.specs.Prelude.{◌≡◌, ◌+◌, ◌*◌, get_or, drop};
ghost use Rattle.rules.specs.Record.{part};

use crate::taking::HIGH;
use units::parts::part_of;

// The number at a place.
// 0 and no Option: the letters of a row say how many numbers there are, so none is missing.
pub fn number_at(numbers: &[u32], at: usize) -> u32
    ensures { result ≡ get_or numbers.now at 0 }
{
    numbers.get(at).copied().unwrap_or(0)
}

// A number of 64 bits, whose low half stands at a place and whose high half behind it.
pub fn wide_at(numbers: &[u32], at: usize) -> u64
    ensures { result ≡ get_or numbers.now (at + 1) 0 * 4294967296 + get_or numbers.now at 0 }
{
    let rest = rest_from(numbers, at);
    u64::from(number_at(rest, 1)) * HIGH + u64::from(number_at(rest, 0))
}

// The text whose start stands at a place and whose length behind it.
pub fn text_at<'a>(text: &'a [u16], numbers: &[u32], at: usize) -> &'a [u16]
    ensures { result.now ≡ part text.now (get_or numbers.now at 0) (get_or numbers.now (at + 1) 0) }
{
    let rest = rest_from(numbers, at);
    part_of(text, number_at(rest, 0), number_at(rest, 1))
}

// The numbers from a place on.
pub fn rest_from(numbers: &[u32], at: usize) -> &[u32]
    ensures { result.now ≡ drop at numbers.now }
{
    numbers.get(at..).unwrap_or_default()
}
