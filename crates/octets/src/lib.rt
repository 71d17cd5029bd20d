// Bytes, as programs read and write them: runs compared and searched, and stores into lent bytes. What has no room is skipped.
#![tactic(auto)]

ghost use Rattle.std.specs.Prelude.{◌≡◌, ◌+◌, ◌<◌, ◌^◌, min, eqb, length};
ghost use Rattle.std.proofs.lemmas.List.Edits.{sets};
ghost use Rattle.laws.specs.Scan.{before};
ghost use Rattle.rules.specs.Choice.{equal};
ghost use Rattle.laws.specs.Placed.{Placed};

pub mod digits;

use stores::put;

// Whether two runs of bytes are the same.
// A name for `==`, whose clause speaks in the words of the rules.
pub fn same(a: &[u8], b: &[u8]) -> bool
    ensures { result ≡ equal a.now b.now }
{
    a == b
}

// The index of the first byte that is the one given, or the length, and not an option, where there is none: its contract by `before` has it so, and callers cut
// there.
pub fn find(bytes: &[u8], byte: u8) -> usize
    ensures { result ≡ before (λ x. eqb x byte) bytes.now }
{
    for (i, x) in bytes.iter().enumerate() {
        if *x == byte {
            return i;
        }
    }
    bytes.len()
}

// A run of bytes from a place on, as far as the output has places; the answer is the place behind it.
// Byte after byte, and not by `copy_run`: that is made for long runs of units.
pub fn put_run(out: &mut [u8], at: usize, run: &[u8]) -> usize
    requires { at + length run.now < 2 ^ 64 }
    ensures { Placed run.now at result out.old out.new }
{
    for (i, byte) in run.iter().enumerate() {
        put(out, at + i, *byte);
    }
    at + run.len()
}

// The units of ASCII bytes, at the front of what is lent and as far as there is room. Answers how many there are.
pub fn widen(bytes: &[u8], units: &mut [u16]) -> usize
    ensures { (result ≡ min (length bytes.now) (length units.old)) × (units.new ≡ sets units.old 0 bytes.now) }
{
    let n = bytes.len().min(units.len());
    // An index and no `zip`: behind an adapter of `iter_mut` nothing is known of what was written.
    for i in 0..n {
        units[i] = u16::from(bytes[i]);
    }
    n
}
