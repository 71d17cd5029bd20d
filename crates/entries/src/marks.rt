// One entry at the front of the rest of a block: where it splits, and where it ends.
ghost use Rattle.std.specs.Prelude.{◌≡◌, false, ◌<◌, length};
ghost use Rattle.rules.specs.BlockReading.{starts_with_nul};
ghost use Rattle.entries.specs.Measured.{Measured};

use scans::{find_near, find_nul};

// The unit behind a key.
const EQUALS: u16 = 61;

// The unit that ends an entry, and the block.
pub const NUL: u16 = 0;

// How many units key and value of an entry have.
#[derive(Clone, Copy, Debug, PartialEq, Eq)]
pub struct Sizes {
    pub key: usize,
    pub value: usize,
}

// Measures the good entry that the rest starts with, if one does. Behind its first unit the key ends at the first `=`, the value at the first NUL behind that.
pub fn measure_entry(rest: &[u16]) -> Option<Sizes>
    requires { (0 < length rest.now) × (starts_with_nul rest.now ≡ false) }
    ensures { Measured rest.now result }
{
    let second = 1;
    let key = second + find_near(&rest[second..], NUL, EQUALS);
    if key == rest.len() || rest[key] == NUL {
        return None;
    }
    let from = key + 1;
    let value = find_nul(&rest[from..]);
    if from + value == rest.len() {
        None
    } else {
        Some(Sizes { key, value })
    }
}
