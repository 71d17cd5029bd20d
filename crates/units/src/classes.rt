// The class of a unit: one table of 256 numbers.
ghost use Rattle.std.specs.Prelude.{◌≡◌};
ghost use Rattle.rules.specs.Unit.{class_of};
ghost use Rattle.units.specs.Table.{class_table};

// The number of each unit's class: 1 NUL, 2 line breaks, 3 blanks, 4 quote, 5 backslash, 6 percent, 7 other forcing units, 0 the rest.
// Numbers and no enum: the C interface hands them out.
const CLASSES: [u8; 256] = [
    1, 7, 7, 7, 7, 7, 7, 7, 7, 3, 2, 7, 7, 2, 7, 7, 7, 7, 7, 7, 7, 7, 7, 7, 7, 7, 7, 7, 7, 7, 7, 7,
    3, 7, 4, 0, 0, 6, 7, 7, 7, 7, 0, 0, 7, 0, 0, 0, 0, 0, 0, 0, 0, 0, 0, 0, 0, 0, 0, 7, 7, 7, 7, 0,
    0, 0, 0, 0, 0, 0, 0, 0, 0, 0, 0, 0, 0, 0, 0, 0, 0, 0, 0, 0, 0, 0, 0, 0, 0, 0, 0, 7, 5, 7, 7, 0,
    7, 0, 0, 0, 0, 0, 0, 0, 0, 0, 0, 0, 0, 0, 0, 0, 0, 0, 0, 0, 0, 0, 0, 0, 0, 0, 0, 7, 7, 7, 7, 7,
    7, 7, 7, 7, 7, 7, 7, 7, 7, 7, 7, 7, 7, 7, 7, 7, 7, 7, 7, 7, 7, 7, 7, 7, 7, 7, 7, 7, 7, 7, 7, 7,
    0, 0, 0, 0, 0, 0, 0, 0, 0, 0, 0, 0, 0, 0, 0, 0, 0, 0, 0, 0, 0, 0, 0, 0, 0, 0, 0, 0, 0, 0, 0, 0,
    0, 0, 0, 0, 0, 0, 0, 0, 0, 0, 0, 0, 0, 0, 0, 0, 0, 0, 0, 0, 0, 0, 0, 0, 0, 0, 0, 0, 0, 0, 0, 0,
    0, 0, 0, 0, 0, 0, 0, 0, 0, 0, 0, 0, 0, 0, 0, 0, 0, 0, 0, 0, 0, 0, 0, 0, 0, 0, 0, 0, 0, 0, 0, 0,
];

// The table of classes, to be made once in an entry point and lent down: it is made anew wherever it is named.
#[derive(Clone, Copy)]
pub struct Classes {
    table: [u8; 256],
    ghost is_table: { table ≡ class_table },
}

impl Classes {
    // The table.
    pub fn new() -> Classes {
        Classes { table: CLASSES }
    }

    // The class of a unit; units above the table are class 0.
    pub fn class_of(&self, unit: u16) -> u8
        ensures { result ≡ class_of unit }
    {
        match self.table.get(usize::from(unit)) {
            Some(&class) => class,
            None => 0,
        }
    }
}
