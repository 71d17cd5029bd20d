// What the entry points take and answer, as types. What they mean is said in specs/: this crate has no code.
#![tactic(auto)]

// An argument record: kind (0 regular, 1 raw), start and length in the lent text. The kind is a number and no enum: a record is what the caller wrote, and a
// kind that is none is a refusal.
#[derive(Clone, Copy, Debug, PartialEq, Eq)]
pub struct Arg {
    pub kind: u32,
    pub start: u32,
    pub len: u32,
}

// A refusal, by name: the error of every entry point. Its number is given by `refusal_said` (specs/Answer.antt). The field is the place: the index of
// the record or entry at fault plus 1, or 0 where none is.
#[derive(Clone, Copy, Debug, PartialEq, Eq)]
pub enum Refusal {
    Record(usize),
    Length,
    Places,
    Room,
    Nul(usize),
    LineBreak(usize),
    Script,
    Entry(usize),
}

// What a builder of lines answers: how many units the line has. It is a type of its own, so that it may grow where the answers of what merely writes units,
// a block or a status text, do not: theirs is the count alone.
#[derive(Clone, Copy, Debug, PartialEq, Eq)]
pub struct Line {
    pub units: usize,
}

// What the reader answers: how many arguments and text units it wrote.
#[derive(Clone, Copy, Debug, PartialEq, Eq)]
pub struct Arguments {
    pub count: usize,
    pub units: usize,
}

// What the block reader answers: how many entries it listed, and how many units of the block they take.
// Not one with `Arguments`: these units are read, those are written.
#[derive(Clone, Copy, Debug, PartialEq, Eq)]
pub struct Entries {
    pub count: usize,
    pub units: usize,
}

// What a call of the launch line cache answers: that no line is held; or where in the store's units the line stands that was hit, was held before or is
// stored now.
#[derive(Clone, Copy, Debug, PartialEq, Eq)]
pub enum Cached {
    Missed,
    Hit { start: usize, units: usize },
    Held { start: usize, units: usize },
    Stored { start: usize, units: usize },
}
