// The decimal numbers of a line.
ghost use Rattle.std.specs.Prelude.{◌≡◌};
ghost use Rattle.forms.specs.Number.{number_of, is_numeral, number_from, longer, Numbered};

// The number with a digit more behind it, where the byte is a digit and the number stays at most `most`.
#[tactic(auto, using(std::proofs::lemmas::Bool::Decides::nat_tests), unfolding(crate::specs::Number::longer, crate::specs::Number::digit_fits))]
fn with_digit(most: u64, number: u64, byte: u8) -> Option<u64>
    ensures { result ≡ longer most number byte }
{
    if !byte.is_ascii_digit() {
        return None;
    }
    let digit = u64::from(byte - b'0');
    if digit <= most && number <= (most - digit) / 10 {
        Some(number * 10 + digit)
    } else {
        None
    }
}

// The number that a word's digits are, at most `most`.
#[tactic(auto, using(crate::proofs::Scanning::one_counted, crate::proofs::Scanning::not_counted, crate::proofs::Scanning::all_counted))]
fn digits_of(word: &[u8], most: u64) -> Option<u64>
    ensures { Numbered (number_from most 0 word.now) most result }
{
    let mut number = 0;
    for &byte in word {
        number = with_digit(most, number, byte)?;
    }
    Some(number)
}

// Whether a word can be a number: it is not empty, and a 0 in front stands alone.
#[tactic(auto, using(crate::proofs::Scanning::no_numeral, crate::proofs::Scanning::short_numeral, crate::proofs::Scanning::longer_numeral))]
fn is_numeral(word: &[u8]) -> bool
    ensures { result ≡ is_numeral word.now }
{
    match word {
        [] => false,
        [b'0', _, ..] => false,
        _ => true,
    }
}

// The number of a word without leading zeros, at most `most`.
// Not one with what a person types: there a 0 may stand in front.
#[tactic(auto, unfolding(crate::specs::Number::number_of))]
pub fn number_of(word: &[u8], most: u64) -> Option<u64>
    ensures { Numbered (number_of most word.now) most result }
{
    if is_numeral(word) {
        digits_of(word, most)
    } else {
        None
    }
}
