// Where a dialogue stands.
ghost use Rattle.std.specs.Prelude.{◌≤◌};

// The bytes of the chunk that was read last which are still to be taken, how many bytes the line has, and how many bytes of the piece are taken by answers.
// Each field is named wherever one is made: `..` is not to be had over a ghost field.
#[derive(Clone, Copy, Debug, PartialEq, Eq)]
pub struct Turn {
    pub from: usize,
    pub end: usize,
    pub size: usize,
    pub at: usize,
    ghost ordered: { from ≤ end },
}

// At the start.
pub fn begin() -> Turn
    ensures { (result.end ≤ 0) × (result.size ≤ 0) × (result.at ≤ 0) }
{
    Turn {
        from: 0,
        end: 0,
        size: 0,
        at: 0,
    }
}
