// Numbers and units as bytes: digits in a base, and `{hex}`.
ghost use Rattle.std.specs.Prelude.{◌≡◌, [], ◌∷◌, ℕ, suc, ◌+◌, ◌≤◌, ◌<◌, ◌^◌};
ghost use Rattle.rules.specs.Status.{digits};
ghost use Rattle.rules.specs.Status.{glyph as Status·glyph};
ghost use Rattle.laws.specs.Placed.{Placed};
ghost use Rattle.octets.specs.Braced.{braced};

use stores::put;

// A byte at its place, where the output has that place, and the place behind it.
pub fn put_one(out: &mut [u8], at: usize, byte: u8) -> usize
    requires { at + 1 < 2 ^ 64 }
    ensures { Placed (byte ∷ []) at result out.old out.new }
{
    put(out, at, byte);
    at + 1
}

// The byte of a digit: 0 to 9, then a to f.
// Not one with the digits of a status: those are units, these bytes.
fn glyph(digit: u64) -> u8
    requires { digit < 16 }
    ensures { result ≡ Status·glyph digit }
{
    let byte = digit as u8;
    if byte < 10 {
        b'0' + byte
    } else {
        b'a' - 10 + byte
    }
}

// A number's digits in a base.
pub fn put_digits(out: &mut [u8], at: usize, base: u64, number: u64) -> usize
    requires { (1 < base) × (base ≤ 16) × (at + 64 < 2 ^ 64) }
    ensures { (fuel : ℕ) → number < base ^ suc fuel → Placed (digits base fuel number) at result out.old out.new }
{
    if number < base {
        return put_one(out, at, glyph(number));
    }
    let next = put_digits(out, at, base, number / base);
    put_one(out, next, glyph(number % base))
}

// A unit as `{hex}`.
pub fn put_braced(out: &mut [u8], at: usize, unit: u16) -> usize
    requires { at + 128 < 2 ^ 64 }
    ensures { Placed (braced unit) at result out.old out.new }
{
    let inside = put_one(out, at, b'{');
    let end = put_digits(out, inside, 16, u64::from(unit));
    put_one(out, end, b'}')
}
