// Entry records in a flat list.
ghost use Rattle.std.specs.Prelude.{◌≡◌};
ghost use Rattle.blocks.specs.Entries.{ruled, numbered};

// How many numbers make a record.
pub const NUMBERS: usize = 4;

// Where a key and its value lie in the lent text.
#[derive(Clone, Copy, Debug, PartialEq, Eq)]
pub struct EntryRecord {
    pub key_start: u32,
    pub key_len: u32,
    pub value_start: u32,
    pub value_len: u32,
}

impl From<&[u32; NUMBERS]> for EntryRecord {
    ghost from_gives = { λ numbers r. ruled r ≡ numbered numbers.now };

    fn from(&[key_start, key_len, value_start, value_len]: &[u32; NUMBERS]) -> EntryRecord {
        EntryRecord {
            key_start,
            key_len,
            value_start,
            value_len,
        }
    }
}
