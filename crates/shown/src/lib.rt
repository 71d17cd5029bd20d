// Units as they are shown at a terminal: characters that can be seen as UTF-8, every other unit as `{hex}`.
#![tactic(auto)]

ghost use Rattle.std.specs.Prelude.{◌≡◌, ◌+◌, ◌<◌, ◌≤◌, ◌^◌};
ghost use Rattle.laws.specs.Placed.{Placed};
ghost use Rattle.shown.specs.Shown.{is_hidden, joined, utf8, single, shown, Clipped};

use octets::digits::put_braced;
use octets::put_run;

// Ranges of units that cannot be seen.
const HIDDEN: [(u16, u16); 22] = [
    (0, 31),
    (123, 123),
    (125, 125),
    (127, 160),
    (173, 173),
    (847, 847),
    (1564, 1564),
    (4447, 4448),
    (5760, 5760),
    (6068, 6069),
    (6155, 6159),
    (8192, 8207),
    (8232, 8239),
    (8287, 8303),
    (10240, 10240),
    (12288, 12288),
    (12644, 12644),
    (55296, 63743),
    (65024, 65039),
    (65279, 65279),
    (65440, 65440),
    (65520, 65535),
];

// Whether a unit alone cannot be seen.
#[tactic(auto, unfolding(crate::specs::Shown::is_hidden, crate::specs::Shown::hidden))]
fn is_hidden(unit: u16) -> bool
    ensures { result ≡ is_hidden unit }
{
    HIDDEN
        .iter()
        .any(|(least, most)| (*least..=*most).contains(&unit))
}

// The bytes of a character.
#[tactic(auto, using(crate::proofs::Showing::utf8_is))]
fn put_char(out: &mut [u8], at: usize, seen: char) -> usize
    requires { at + 4 < 2 ^ 64 }
    ensures { Placed (utf8 seen) at result out.old out.new }
{
    let mut bytes = [0u8; 4];
    put_run(out, at, seen.encode_utf8(&mut bytes).as_bytes())
}

// A unit that has no partner. None that is half a pair can be seen.
#[tactic(auto, using(crate::proofs::Showing::singles))]
fn put_single(out: &mut [u8], at: usize, unit: u16) -> usize
    requires { at + 128 < 2 ^ 64 }
    ensures { Placed (single unit) at result out.old out.new }
{
    match char::from_u32(u32::from(unit)) {
        Some(seen) if !is_hidden(unit) => put_char(out, at, seen),
        _ => put_braced(out, at, unit),
    }
}

// The character of a high and a low surrogate.
fn joined_of(high: u16, low: u16) -> char
    requires high { (55296 ≤ high) × (high ≤ 56319) }
    requires low { (56320 ≤ low) × (low ≤ 57343) }
    ensures { result ≡ joined high low }
{
    char::from_u32(65536 + u32::from(high - 55296) * 1024 + u32::from(low - 56320)).unwrap()
}

// Shows units at the front of what is lent. An answer above its length says that there is no room for all. A `while` and no iterator: a character takes one
// unit or two.
pub fn show(units: &[u16], out: &mut [u8]) -> usize
    ensures { Clipped (shown units.now) result out.old out.new }
{
    let mut rest = units;
    let mut to = 0;
    while to <= out.len() {
        match rest {
            [] => return to,
            [high @ 55296..=56127, low @ 56320..=57343, more @ ..] => {
                to = put_char(out, to, joined_of(*high, *low));
                rest = more;
            }
            [unit, more @ ..] => {
                to = put_single(out, to, *unit);
                rest = more;
            }
        }
    }
    out.len() + 1
}
