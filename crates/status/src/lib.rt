// The recorded status of a finished child process: its text and its signed code.
#![tactic(auto)]

ghost use Rattle.std.specs.Prelude.{◌≡◌, ◌++◌, ◌<◌, ◌≤◌, length};
ghost use Rattle.rules.specs.Answer.{Answered, filled_said};
ghost use Rattle.rules.specs.Status.{glyph, status_outcome, signed_code};
ghost use Rattle.status.specs.Text.{DigitsLaid, fitted};

use rules::Refusal;
use stores::copy_run;

// What stands in front of a decimal number: `exit code: `.
const DECIMAL_FRONT: [u16; 11] = [101, 120, 105, 116, 32, 99, 111, 100, 101, 58, 32];

// What stands in front of a hexadecimal number: `exit code: 0x`.
const HEXADECIMAL_FRONT: [u16; 13] = [101, 120, 105, 116, 32, 99, 111, 100, 101, 58, 32, 48, 120];

// The unit of a digit.
// Not one with `octets`: its digits are bytes, laid from the first on.
fn glyph_of(digit: u32) -> u16
    requires { digit < 16 }
    ensures { result ≡ glyph digit }
{
    let unit = digit as u16;
    if unit < 10 {
        u16::from(b'0') + unit
    } else {
        u16::from(b'a') + (unit - 10)
    }
}

// Lays the digits of a number into the ten places lent, up to the last, and answers where the first lies. The last digit is found first, so
// that they are laid before it is known how many there are.
fn lay_digits(base: u32, number: u32, places: &mut [u16; 10]) -> usize
    requires { (10 ≤ base) × (base ≤ 16) × (length places.old ≡ 10) }
    ensures { DigitsLaid base number result places.old places.new }
{
    let mut left = number;
    let mut at = places.len();
    // A while and no range: how many digits there are shows only as the number is divided.
    while base <= left {
        at -= 1;
        places[at] = glyph_of(left % base);
        left /= base;
    }
    at -= 1;
    places[at] = glyph_of(left);
    at
}

// Writes front and digits, where the output has room for both.
fn answer(front: &[u16], digits: &[u16], out: &mut [u16]) -> Result<usize, Refusal>
    ensures { Answered (fitted (front.now ++ digits.now) (length out.old)) (filled_said result) out.old out.new }
{
    let units = front.len() + digits.len();
    if out.len() < units {
        return Err(Refusal::Room);
    }
    copy_run(out, 0, front);
    copy_run(out, front.len(), digits);
    Ok(units)
}

// The least status that is written in hexadecimal: the high bit is set from here on.
const FIRST_HEXADECIMAL: u32 = 2147483648;

// The text of a status (Rust: the `Display` of `ExitStatus`).
pub fn status_text(status: u32, out: &mut [u16]) -> Result<usize, Refusal>
    ensures { Answered (status_outcome status (length out.old)) (filled_said result) out.old out.new }
{
    let mut places = [0u16; 10];
    if status < FIRST_HEXADECIMAL {
        let at = lay_digits(10, status, &mut places);
        answer(&DECIMAL_FRONT, &places[at..], out)
    } else {
        let at = lay_digits(16, status, &mut places);
        answer(&HEXADECIMAL_FRONT, &places[at..], out)
    }
}

// The status as a signed number (Rust: `ExitStatus::code`).
pub fn code(status: u32) -> i32
    ensures { result ≡ signed_code status }
{
    status.cast_signed()
}
