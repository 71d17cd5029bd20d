// Stores into what is lent. What has no room is skipped, so that the same routine, lent an empty part, measures.
#![tactic(auto)]

ghost use Rattle.std.specs.Prelude.{◌≡◌, ◌+◌, ◌-◌, ◌≤◌, min, length, set, replicate};
ghost use Rattle.std.proofs.lemmas.List.Edits.{sets};
ghost use Rattle.rules.specs.Record.{part};

// An element at its place, where what is lent has that place.
// Output and place stay two parameters, here and wherever units are put: a struct with the output in it would have to say in each clause that it is still the same.
pub fn put<T: Copy>(out: &mut [T], at: usize, x: T)
    ensures { out.new ≡ set out.old at x }
{
    if at < out.len() {
        out[at] = x;
    }
}

// How many of so many units fit behind a place of an output that has so many places.
fn fitting(places: usize, at: usize, count: usize) -> usize
    ensures { result ≡ min count (places - at) }
{
    count.min(places.saturating_sub(at))
}

// The first n units of a run, one after another, where n have places.
// The count beside the run: it is clipped once, for all ways of copying.
fn copy_slowly(out: &mut [u16], at: usize, run: &[u16], n: usize)
    requires { n ≡ min (length run.now) (length out.old - at) }
    ensures { out.new ≡ sets out.old at run.now }
{
    // An index and no `copy_from_slice`: a place behind the end of the output has no range, and would need a test of its own; these are few.
    for i in 0..n {
        out[at + i] = run[i];
    }
}

// Four units of a run from a place on. All are read before one is stored, so that the machine moves them at once.
fn copy_four(out: &mut [u16], to: usize, run: &[u16], at: usize)
    requires { (to + 4 ≤ length out.old) × (at + 4 ≤ length run.now) }
    ensures { out.new ≡ sets out.old to (part run.now at 4) }
{
    let a = run[at];
    let b = run[at + 1];
    let c = run[at + 2];
    let d = run[at + 3];
    out[to] = a;
    out[to + 1] = b;
    out[to + 2] = c;
    out[to + 3] = d;
}

// Eight units of a run from a place on.
fn copy_eight(out: &mut [u16], to: usize, run: &[u16], at: usize)
    requires { (to + 8 ≤ length out.old) × (at + 8 ≤ length run.now) }
    ensures { out.new ≡ sets out.old to (part run.now at 8) }
{
    copy_four(out, to, run, at);
    copy_four(out, to + 4, run, at + 4);
}

// A run of four to eight units that has room: by fours, the last of which ends with the run and overlaps the first.
fn copy_fours(out: &mut [u16], at: usize, run: &[u16])
    requires { (at + length run.now ≤ length out.old) × (4 ≤ length run.now) × (length run.now ≤ 8) }
    ensures { out.new ≡ sets out.old at run.now }
{
    let last = run.len() - 4;
    copy_four(out, at, run, 0);
    copy_four(out, at + last, run, last);
}

// A run of eight units or more that has room: by eights, the last of which ends with the run and overlaps the one before.
fn copy_eights(out: &mut [u16], at: usize, run: &[u16])
    requires { (at + length run.now ≤ length out.old) × (8 ≤ length run.now) }
    ensures { out.new ≡ sets out.old at run.now }
{
    let last = run.len() - 8;
    // By the number of the eight, here and in `scans` and `comparing`: `step_by` asks at each how much is left, three steps more in ten.
    for k in 0..(last + 7) / 8 {
        copy_eight(out, at + 8 * k, run, 8 * k);
    }
    copy_eight(out, at + last, run, last);
}

// A run of units from a place on, as far as the output has places. It is clipped once. The two calls one after another are not joined by `||`: joined, a run of
// 3 units took 4.5 nanoseconds where it takes 3.6.
pub fn copy_run(out: &mut [u16], at: usize, run: &[u16])
    ensures { out.new ≡ sets out.old at run.now }
{
    let n = fitting(out.len(), at, run.len());
    if n < run.len() {
        copy_slowly(out, at, run, n);
    } else if n < 4 {
        copy_slowly(out, at, run, n);
    } else if n < 8 {
        copy_fours(out, at, run);
    } else {
        copy_eights(out, at, run);
    }
}

// One unit so many times from a place on, as far as the output has places.
pub fn repeat(out: &mut [u16], at: usize, unit: u16, count: usize)
    ensures { out.new ≡ sets out.old at (replicate count unit) }
{
    let n = fitting(out.len(), at, count);
    // An index and no `fill`: a place behind the end of the output has no range, and would need a test of its own.
    for i in 0..n {
        out[at + i] = unit;
    }
}
