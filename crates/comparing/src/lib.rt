// Runs of lent units compared: few one by one, more by eights, many by long parts.
#![tactic(auto)]

ghost use Rattle.std.specs.Prelude.{◌≡◌, ◌+◌, ◌≤◌, length};
ghost use Rattle.rules.specs.Choice.{equal};
ghost use Rattle.rules.specs.Record.{part};

// Whether the four units from a place on are the same in both runs. No branch stands between the tests, so that the machine makes them at once.
// That both runs have one length is asked of each function and no type's: the one test of it stands in `same_units`.
fn four_same(a: &[u16], b: &[u16], at: usize) -> bool
    requires { (at + 4 ≤ length a.now) × (at + 4 ≤ length b.now) }
    ensures { result ≡ equal (part a.now at 4) (part b.now at 4) }
{
    (a[at] == b[at])
        & (a[at + 1] == b[at + 1])
        & (a[at + 2] == b[at + 2])
        & (a[at + 3] == b[at + 3])
}

// Whether the eight units from a place on are the same in both runs.
fn eight_same(a: &[u16], b: &[u16], at: usize) -> bool
    requires { (at + 8 ≤ length a.now) × (at + 8 ≤ length b.now) }
    ensures { result ≡ equal (part a.now at 8) (part b.now at 8) }
{
    four_same(a, b, at) & four_same(a, b, at + 4)
}

// Whether two runs of one length are the same, with no way out before their end, so that the machine compares as fast as it reads.
fn all_same(a: &[u16], b: &[u16]) -> bool
    requires { length a.now ≡ length b.now }
    ensures { result ≡ equal a.now b.now }
{
    let mut same = true;
    for (i, x) in a.iter().enumerate() {
        same &= *x == b[i];
    }
    same
}

// Whether two runs of four to eight units are the same: by fours, the last of which ends with the runs and overlaps the first.
fn fours_same(a: &[u16], b: &[u16]) -> bool
    requires { (length a.now ≡ length b.now) × (4 ≤ length a.now) × (length a.now ≤ 8) }
    ensures { result ≡ equal a.now b.now }
{
    let last = a.len() - 4;
    four_same(a, b, 0) & four_same(a, b, last)
}

// Whether two runs of eight units or more are the same: by eights, the last of which ends with the runs and overlaps the one before.
fn eights_same(a: &[u16], b: &[u16]) -> bool
    requires { (length a.now ≡ length b.now) × (8 ≤ length a.now) }
    ensures { result ≡ equal a.now b.now }
{
    let last = a.len() - 8;
    for k in 0..(last + 7) / 8 {
        if !eight_same(a, b, 8 * k) {
            return false;
        }
    }
    eight_same(a, b, last)
}

// Whether two long runs are the same: by parts, with a way out behind each.
fn parts_same(a: &[u16], b: &[u16]) -> bool
    requires { length a.now ≡ length b.now }
    ensures { result ≡ equal a.now b.now }
{
    // A `while` and not the library's parts: that each two of those are of one length would have to be shown anew.
    let mut i = 0;
    while i < a.len() {
        let end = a.len().min(i + 1024);
        if !all_same(&a[i..end], &b[i..end]) {
            return false;
        }
        i = end;
    }
    true
}

// Whether two runs of units are the same.
// In three ways and not by `==`: docs/DECISIONS.md, Speed, says what they are for.
pub fn same_units(a: &[u16], b: &[u16]) -> bool
    ensures { result ≡ equal a.now b.now }
{
    let n = a.len();
    if n != b.len() {
        false
    } else if n < 4 {
        all_same(a, b)
    } else if n < 8 {
        fours_same(a, b)
    } else if n < 256 {
        eights_same(a, b)
    } else {
        parts_same(a, b)
    }
}
