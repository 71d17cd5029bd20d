// The units of a word in a text's form, put behind those that a lent text holds already.
ghost use Rattle.std.specs.Prelude.{◌≡◌, ◌+◌, ◌≤◌, length};
ghost use Rattle.forms.specs.Text.{Filled, each_of, is_braces, text_of};

use crate::steps::{Spot, Step, take_byte};

// The units of bytes one after another, and how many.
#[tactic(auto, using(crate::proofs::Putting::no_form))]
fn take_units(word: &[u8], colons: bool, text: &mut [u16], to: usize) -> Option<usize>
    requires { to + length word.now ≤ length text.old }
    ensures { Filled (each_of colons word.now) (length word.now) to result text.old text.new }
{
    let mut spot = Spot::Outside;
    let mut n = 0;
    for &byte in word {
        match take_byte(colons, spot, byte)? {
            Step::Unit(unit) => {
                text[to + n] = unit;
                n += 1;
                spot = Spot::Outside;
            }
            Step::Still(next) => spot = next,
        }
    }
    match spot {
        Spot::Outside => Some(n),
        Spot::Opened | Spot::Inside(_) => None,
    }
}

// Whether a word is `{}`.
#[tactic(auto, using(std::proofs::lemmas::Bool::Decides::nat_tests, crate::proofs::Putting::braces_two, crate::proofs::Putting::braces_other))]
fn is_braces(word: &[u8]) -> bool
    ensures { result ≡ is_braces word.now }
{
    matches!(word, b"{}")
}

// The units of a whole word, and how many: `{}` is the empty text, and an empty word is none.
#[tactic(auto, using(crate::proofs::Putting::no_text, crate::proofs::Putting::empty_text, crate::proofs::Putting::full_text))]
pub fn take_text(word: &[u8], colons: bool, text: &mut [u16], to: usize) -> Option<usize>
    requires { to + length word.now ≤ length text.old }
    ensures { Filled (text_of colons word.now) (length word.now) to result text.old text.new }
{
    if word.is_empty() {
        None
    } else if is_braces(word) {
        Some(0)
    } else {
        take_units(word, colons, text, to)
    }
}
