// Scans over lent units. Each is a leaf with a final contract, so that it can be made faster with nothing above it changed.
// A search that finds nothing answers the length and not an option, as its contract by `before` has it: callers cut there.
#![tactic(auto)]

ghost use Rattle.std.specs.Prelude.{◌≡◌, ◌+◌, ◌≤◌, length};
ghost use Rattle.rules.specs.Choice.{any};
ghost use Rattle.rules.specs.Record.{part};
ghost use Rattle.rules.specs.Batch.{ends_in_backslash};
ghost use Rattle.rules.specs.Unit.{is_nul, is_line_break, is_blank, is_quote, is_backslash};
ghost use Rattle.laws.specs.Scan.{leading, before, is_unit, is_either, is_one_of};

// Whether a unit is a blank: space or tab.
pub fn is_blank(unit: u16) -> bool
    ensures { result ≡ is_blank unit }
{
    unit == 32 || unit == 9
}

// Whether one of the four units from a place on is x. No branch stands between the tests, so that the machine makes them at once.
// A place and no array of four: the last four of a run overlap those before them.
fn four_have(units: &[u16], at: usize, x: u16) -> bool
    requires { at + 4 ≤ length units.now }
    ensures { result ≡ any (is_unit x) (part units.now at 4) }
{
    (units[at] == x) | (units[at + 1] == x) | (units[at + 2] == x) | (units[at + 3] == x)
}

// Whether one of the eight units from a place on is x.
fn eight_have(units: &[u16], at: usize, x: u16) -> bool
    requires { at + 8 ≤ length units.now }
    ensures { result ≡ any (is_unit x) (part units.now at 8) }
{
    four_have(units, at, x) | four_have(units, at + 4, x)
}

// Whether one of the four units from a place on is a or b.
fn four_have_either(units: &[u16], at: usize, a: u16, b: u16) -> bool
    requires { at + 4 ≤ length units.now }
    ensures { result ≡ any (is_either a b) (part units.now at 4) }
{
    four_have(units, at, a) | four_have(units, at, b)
}

// Whether one of the eight units from a place on is a or b. The tests for a stand together, because the machine joins those of one unit.
pub fn eight_have_either(units: &[u16], at: usize, a: u16, b: u16) -> bool
    requires { at + 8 ≤ length units.now }
    ensures { result ≡ any (is_either a b) (part units.now at 8) }
{
    eight_have(units, at, a) | eight_have(units, at, b)
}

// Whether a unit is a or b, for few units: one after another.
// Two units and no array of them, here and below: whoever looks for one names it twice.
fn few_have_either(units: &[u16], a: u16, b: u16) -> bool
    ensures { result ≡ any (is_either a b) units.now }
{
    units.iter().any(|x| (*x == a) | (*x == b))
}

// Whether a unit is a or b, for eight units or more: by eights, the last of which ends with the units and overlaps the one before.
fn many_have_either(units: &[u16], a: u16, b: u16) -> bool
    requires { 8 ≤ length units.now }
    ensures { result ≡ any (is_either a b) units.now }
{
    let last = units.len() - 8;
    for k in 0..(last + 7) / 8 {
        if eight_have_either(units, 8 * k, a, b) {
            return true;
        }
    }
    eight_have_either(units, last, a, b)
}

// Whether a unit is a or b. Where one unit is looked for, it is named twice.
pub fn has_either(units: &[u16], a: u16, b: u16) -> bool
    ensures { result ≡ any (is_either a b) units.now }
{
    if 8 <= units.len() {
        return many_have_either(units, a, b);
    }
    if 4 <= units.len() {
        let last = units.len() - 4;
        return four_have_either(units, 0, a, b) | four_have_either(units, last, a, b);
    }
    few_have_either(units, a, b)
}

// Whether there is a NUL.
pub fn has_nul(units: &[u16]) -> bool
    ensures { result ≡ any is_nul units.now }
{
    has_either(units, 0, 0)
}

// Whether there is a quote mark.
pub fn has_quote(units: &[u16]) -> bool
    ensures { result ≡ any is_quote units.now }
{
    has_either(units, 34, 34)
}

// Whether there is a line break.
pub fn has_line_break(units: &[u16]) -> bool
    ensures { result ≡ any is_line_break units.now }
{
    has_either(units, 13, 10)
}

// Whether there is a blank.
pub fn has_blank(units: &[u16]) -> bool
    ensures { result ≡ any is_blank units.now }
{
    has_either(units, 32, 9)
}

// Whether a unit is one of four. The tests are joined without a branch.
// Four units and no array of them: most callers name one twice.
fn is_one_of(unit: u16, a: u16, b: u16, c: u16, d: u16) -> bool
    ensures { result ≡ is_one_of a b c d unit }
{
    ((unit == a) | (unit == b)) | ((unit == c) | (unit == d))
}

// The index of the first unit that is one of four, or the length where there is none, one unit after another.
// A loop and no `position`: most runs are short, and `position` took 4.2 nanoseconds for 3 units where this takes 3.9.
fn find_slowly(units: &[u16], a: u16, b: u16, c: u16, d: u16) -> usize
    ensures { result ≡ before (is_one_of a b c d) units.now }
{
    for (i, x) in units.iter().enumerate() {
        if is_one_of(*x, a, b, c, d) {
            return i;
        }
    }
    units.len()
}

// The index of the first unit from a place on that is one of four, by eights, where none before that place is.
fn find_by_eights(units: &[u16], from: usize, a: u16, b: u16, c: u16, d: u16) -> usize
    requires { from ≤ before (is_one_of a b c d) units.now }
    ensures { result ≡ before (is_one_of a b c d) units.now }
{
    // A `while`: where it ends, the rest begins.
    let mut i = from;
    while i + 8 <= units.len() {
        if eight_have_either(units, i, a, b) | eight_have_either(units, i, c, d) {
            return i + find_slowly(&units[i..], a, b, c, d);
        }
        i += 8;
    }
    i + find_slowly(&units[i..], a, b, c, d)
}

// The index of the first unit that is one of four, or the length where there is none. The first eight are looked at one after another, because most
// runs of a short argument end there.
pub fn find_any(units: &[u16], a: u16, b: u16, c: u16, d: u16) -> usize
    ensures { result ≡ before (is_one_of a b c d) units.now }
{
    let front = 8;
    if units.len() <= front {
        return find_slowly(units, a, b, c, d);
    }
    let first = find_slowly(&units[..front], a, b, c, d);
    if first < front {
        return first;
    }
    find_by_eights(units, front, a, b, c, d)
}

// The index of the first unit that is a or b, or the length where there is none, one unit after another: for what is near.
pub fn find_near(units: &[u16], a: u16, b: u16) -> usize
    ensures { result ≡ before (is_either a b) units.now }
{
    find_slowly(units, a, b, a, b)
}

// The index of the first NUL, or the length where there is none, by eights: it ends a line or a value, and is far. The loop is its own, because the one for
// any four units is compiled once and compares with all four.
pub fn find_nul(units: &[u16]) -> usize
    ensures { result ≡ before is_nul units.now }
{
    // A `while`: where it ends, the rest begins.
    let mut i = 0;
    while i + 8 <= units.len() {
        if eight_have(units, i, 0) {
            return i + find_slowly(&units[i..], 0, 0, 0, 0);
        }
        i += 8;
    }
    i + find_slowly(&units[i..], 0, 0, 0, 0)
}

// How many blanks the rest of a line starts with.
pub fn blanks(rest: &[u16]) -> usize
    ensures { result ≡ leading is_blank rest.now }
{
    rest.iter()
        .position(|x| !is_blank(*x))
        .unwrap_or(rest.len())
}

// How many backslashes the rest of a line starts with.
// Not one with `blanks` over a test: each is one call, and the third would have to promise what its test answers.
pub fn backslashes(rest: &[u16]) -> usize
    ensures { result ≡ leading is_backslash rest.now }
{
    rest.iter().position(|x| *x != 92).unwrap_or(rest.len())
}

// Whether the last unit is a backslash.
pub fn ends_in_backslash(units: &[u16]) -> bool
    ensures { result ≡ ends_in_backslash units.now }
{
    units.last() == Some(&92)
}
