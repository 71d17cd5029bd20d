// Parts of a lent text that a record names.
ghost use Rattle.std.specs.Prelude.{◌≡◌};
ghost use Rattle.rules.specs.Record.{part};
ghost use Rattle.units.specs.Part.{Named};

// The part from a start on, as long as a length. What exceeds the text is cut off, so that no caller has to know that it lies within.
pub fn part_at(text: &[u16], start: usize, len: usize) -> &[u16]
    ensures { result.now ≡ part text.now start len }
{
    let from = start.min(text.len());
    let to = from + len.min(text.len() - from);
    &text[from..to]
}

// The part that a record names.
pub fn part_of(text: &[u16], start: u32, len: u32) -> &[u16]
    ensures { Named text.now start len result.now }
{
    part_at(text, start as usize, len as usize)
}
