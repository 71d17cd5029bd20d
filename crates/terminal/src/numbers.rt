// Decimal numbers as they are typed.
ghost use Rattle.std.specs.Prelude.{◌≡◌};
ghost use Rattle.terminal.specs.Number.{number_of};

// The number of 32 bits that a word stands for. Not by std's `parse`, which takes a sign.
// Not one with `forms`: in a question no 0 stands in front.
#[tactic(auto, using(crate::proofs::Counting::counts))]
pub fn number_of(word: &[u8]) -> Option<u32>
    ensures { result ≡ number_of word.now }
{
    if word.is_empty() {
        return None;
    }
    let mut value: u32 = 0;
    for byte in word {
        if !byte.is_ascii_digit() {
            return None;
        }
        value = value.checked_mul(10)?.checked_add(u32::from(*byte - b'0'))?;
    }
    Some(value)
}
