// UTF-8 into UTF-16 units, by the table of well-formed byte sequences.
ghost use Rattle.std.specs.Prelude.{◌≡◌, ◌+◌, ◌*◌, ◌%◌, ◌<◌, ◌≤◌, ◌^◌, length};
ghost use Rattle.rules.specs.Unit.{within};
ghost use Rattle.laws.specs.Placed.{Placed};
ghost use Rattle.terminal.specs.Utf8.{row_of, lead_of, are_tails, is_whole, value_of, scalar_of, units_of, Decoded};

use stores::put;

// A row of the table, for a first byte: how many bytes the sequence has, and the range of its second byte.
#[derive(Clone, Copy, Debug, PartialEq, Eq)]
pub struct Lead {
    pub count: usize,
    pub least: u8,
    pub most: u8,
}

// The character that bytes begin with, and how many of them are its.
#[derive(Clone, Copy, Debug, PartialEq, Eq)]
pub struct Scalar {
    pub value: u32,
    pub bytes: usize,
}

// How many bytes were read, and how many units they gave. Fewer than all: the next one begins no well-formed sequence.
#[derive(Clone, Copy, Debug, PartialEq, Eq)]
pub struct Taken {
    pub bytes: usize,
    pub units: usize,
}

// A row.
fn row(count: usize, least: u8, most: u8) -> Option<Lead>
    ensures { result ≡ row_of count least most }
{
    Some(Lead { count, least, most })
}

// The row of a first byte.
#[tactic(auto, using(crate::proofs::Sequence::rows))]
fn lead_of(byte: u8) -> Option<Lead>
    ensures { result ≡ lead_of byte }
{
    match byte {
        0..=127 => row(1, 128, 191),
        194..=223 => row(2, 128, 191),
        224 => row(3, 160, 191),
        225..=236 => row(3, 128, 191),
        237 => row(3, 128, 159),
        238..=239 => row(3, 128, 191),
        240 => row(4, 144, 191),
        241..=243 => row(4, 128, 191),
        244 => row(4, 128, 143),
        _ => None,
    }
}

// Whether a byte is in a range.
fn is_between(least: u8, most: u8, byte: u8) -> bool
    ensures { result ≡ within least most byte }
{
    (least..=most).contains(&byte)
}

// Whether the third and the fourth of so many bytes may stand there.
// The count beside the bytes: the table gives it, and more bytes than it may stand there.
#[tactic(auto, using(crate::proofs::Sequence::tails))]
fn are_tails(count: usize, bytes: &[u8]) -> bool
    requires { count ≤ length bytes.now }
    ensures { result ≡ are_tails count bytes.now }
{
    count < 3 || is_between(128, 191, bytes[2]) && (count < 4 || is_between(128, 191, bytes[3]))
}

// Whether bytes begin with a whole sequence of a row.
#[tactic(auto, using(crate::proofs::Sequence::wholes))]
fn is_whole(row: Lead, bytes: &[u8]) -> bool
    ensures { result ≡ is_whole row bytes.now }
{
    row.count <= bytes.len()
        && (row.count < 2
            || is_between(row.least, row.most, bytes[1]) && are_tails(row.count, bytes))
}

// A number with six bits more behind it: the lower six of a byte.
fn longer(number: u32, byte: u8) -> u32
    requires { number < 65536 }
    ensures { result ≡ number * 64 + byte % 64 }
{
    number * 64 + u32::from(byte) % 64
}

// The character of a sequence of so many bytes.
// The count beside the bytes, as above.
#[tactic(auto, using(crate::proofs::Sequence::values))]
fn value_of(count: usize, bytes: &[u8]) -> u32
    requires { (0 < count) × (count ≤ length bytes.now) }
    ensures { result ≡ value_of count bytes.now }
{
    let first = u32::from(bytes[0]);
    match count {
        1 => first % 128,
        2 => longer(first % 32, bytes[1]),
        3 => longer(longer(first % 16, bytes[1]), bytes[2]),
        _ => longer(longer(longer(first % 8, bytes[1]), bytes[2]), bytes[3]),
    }
}

// The character that bytes begin with, where they begin with a well-formed sequence.
#[tactic(auto, using(crate::proofs::Sequence::scalars))]
fn scalar_of(bytes: &[u8]) -> Option<Scalar>
    ensures { result ≡ scalar_of bytes.now }
{
    let row = lead_of(*bytes.first()?)?;
    if is_whole(row, bytes) {
        Some(Scalar {
            value: value_of(row.count, bytes),
            bytes: row.count,
        })
    } else {
        None
    }
}

// The units of a character: one, or a high and a low surrogate. Not by std's `encode_utf16`: the table gives a number of 21 bits, and `value_of` says no more.
fn put_units(out: &mut [u16], at: usize, value: u32) -> usize
    requires { (value < 2097152) × (at + 2 < 2 ^ 64) }
    ensures { Placed (units_of value) at result out.old out.new }
{
    if let Ok(unit) = u16::try_from(value) {
        put(out, at, unit);
        return at + 1;
    }
    let above = value - 65536;
    put(out, at, (55296 + above / 1024) as u16);
    put(out, at + 1, (56320 + above % 1024) as u16);
    at + 2
}

// The units of bytes in UTF-8, up to the first byte that begins no well-formed sequence. By the table and not by std's `from_utf8`: `Decoded` speaks in the
// words of the table.
pub fn decode(bytes: &[u8], out: &mut [u16]) -> Taken
    ensures { Decoded bytes.now result out.old out.new }
{
    let mut i = 0;
    let mut to = 0;
    while let Some(next) = scalar_of(&bytes[i..]) {
        to = put_units(out, to, next.value);
        i += next.bytes;
    }
    Taken {
        bytes: i,
        units: to,
    }
}
