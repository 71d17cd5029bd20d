// What a result counts: arguments or entries, and units. One trait for the results of all entry points, so that whoever tells them in numbers does so once.
ghost use Rattle.rules.specs.Answer.{Said, gave, wrote};
ghost use Rattle.std.specs.Prelude.{◌≡◌};

use rules::{Arguments, Entries, Line};

// How many arguments or entries there are, 0 where there are none to count, and how many units.
#[derive(Clone, Copy, Debug, PartialEq, Eq)]
pub struct Counts {
    pub arguments: usize,
    pub units: usize,
}

// A result that is told in counts.
pub trait Counted {
    // What it says in the document's numbers.
    ghost says: { Self → Said };

    fn counts(self) -> Counts
        ensures { gave result.arguments result.units ≡ says self };
}

impl Counted for Line {
    ghost says = { λ line. wrote line.units };

    fn counts(self) -> Counts {
        Counts {
            arguments: 0,
            units: self.units,
        }
    }
}

// Of what merely writes units: their count.
impl Counted for usize {
    ghost says = { wrote };

    fn counts(self) -> Counts {
        Counts {
            arguments: 0,
            units: self,
        }
    }
}

impl Counted for Arguments {
    ghost says = { λ arguments. gave arguments.count arguments.units };

    fn counts(self) -> Counts {
        Counts {
            arguments: self.count,
            units: self.units,
        }
    }
}

impl Counted for Entries {
    ghost says = { λ entries. gave entries.count entries.units };

    fn counts(self) -> Counts {
        Counts {
            arguments: self.count,
            units: self.units,
        }
    }
}
