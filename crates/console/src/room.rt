// The arrays that the tool works on. Each has room for whatever a call can hold: 40,000 units are more than a line may have (`line_limit` and `read_limit` in
// `rules`), 70,000 more than a block may (`block_limit`), and no word that Linux hands over has more than 131,072 bytes. Each array is made here alone, so that
// whoever lends it need not count it again.
ghost use Rattle.std.specs.Prelude.{◌≡◌, length};

// For the bytes of a word, or of a dump: two more than the longest block has, so that a longer dump shows.
pub fn word() -> [u8; 131072]
    ensures { 131072 ≡ length result }
{
    [0; 131072]
}

// For the units of all words, or of a dump.
pub fn text() -> [u16; 70000]
    ensures { 70000 ≡ length result }
{
    [0; 70000]
}

// For the records of all words, or the spans of a block's entries: an argument has at least two units of a line, an entry three of a block.
pub fn table() -> [u32; 90000]
    ensures { 90000 ≡ length result }
{
    [0; 90000]
}

// For a line or a block.
pub fn out() -> [u16; 70000]
    ensures { 70000 ≡ length result }
{
    [0; 70000]
}

// For the texts that are read from a line.
pub fn back() -> [u16; 40000]
    ensures { 40000 ≡ length result }
{
    [0; 40000]
}

// For the spans of what is read from a line.
pub fn spans() -> [u32; 40000]
    ensures { 40000 ≡ length result }
{
    [0; 40000]
}

// For the shown form of a line or a block, six bytes for each unit.
pub fn page() -> [u8; 420000]
    ensures { 420000 ≡ length result }
{
    [0; 420000]
}
