// The units of an argument's form. Stretches without a mark are copied at once; near a mark the units go one by one, with the backslashes counted.
ghost use Rattle.std.specs.Prelude.{◌≡◌, [], ◌∷◌, ◌++◌, ◌+◌, ◌<◌, ◌^◌, eqb, length};
ghost use Rattle.rules.specs.Choice.{pick};
ghost use Rattle.rules.specs.Quoting.{slashes};
ghost use Rattle.laws.specs.Placed.{Appended, Placed};
ghost use Rattle.quoting.specs.Emitted.{mark_for, count_on, stretch, edge, formed, Emits};

use crate::marks;
use crate::marks::{BACKSLASH, QUOTE};

// What stands for a percent in a batch argument: `%%cd:~,%`.
const HIDDEN: [u16; 8] = [37, 37, 99, 100, 58, 126, 44, 37];

// How many units go one by one behind a stretch that is copied.
const NEAR: usize = 16;

// How a regular argument is written.
#[derive(Clone, Copy)]
pub struct Shape {
    pub quoted: bool,
    pub batch: bool,
}

// A place in the output, and how many backslashes of the argument stand right before it.
// That no place wraps is asked of each step below: how far it goes is its own.
#[derive(Clone, Copy)]
struct Spot {
    to: usize,
    k: usize,
}

// So many backslashes.
fn put_slashes(out: &mut [u16], at: usize, count: usize) -> usize
    requires { at + count < 2 ^ 64 }
    ensures { Placed (slashes count) at result out.old out.new }
{
    stores::repeat(out, at, BACKSLASH, count);
    at + count
}

// What stands right before a quote mark: in a batch argument the mark once more, else a backslash.
fn before_quote(batch: bool) -> u16
    ensures { result ≡ pick batch 34 92 }
{
    if batch { QUOTE } else { BACKSLASH }
}

// What stands for a quote mark or a percent behind k backslashes that are written already.
fn put_mark(out: &mut [u16], at: usize, unit: u16, k: usize, batch: bool) -> usize
    requires { at + length (mark_for batch unit k) < 2 ^ 64 }
    ensures { Placed (mark_for batch unit k) at result out.old out.new }
{
    if unit == QUOTE {
        let to = put_slashes(out, at, k);
        stores::put(out, to, before_quote(batch));
        stores::put(out, to + 1, QUOTE);
        to + 2
    } else {
        stores::copy_run(out, at, &HIDDEN);
        at + HIDDEN.len()
    }
}

// How many backslashes stand right before the next unit.
fn count_on(k: usize, unit: u16) -> usize
    requires { k + 1 < 2 ^ 64 }
    ensures { result ≡ count_on k unit }
{
    if unit == BACKSLASH { k + 1 } else { 0 }
}

// What stands for one unit.
fn put_unit(out: &mut [u16], spot: Spot, unit: u16, batch: bool) -> Spot
    requires { (spot.to + length (stretch batch spot.k (unit ∷ [])) < 2 ^ 64) × (spot.k + 1 < 2 ^ 64) }
    ensures { Emits batch spot.k (unit ∷ []) spot.to result.to result.k out.old out.new }
{
    if marks::is_mark(unit, batch) {
        let to = put_mark(out, spot.to, unit, spot.k, batch);
        Spot { to, k: 0 }
    } else {
        stores::put(out, spot.to, unit);
        Spot {
            to: spot.to + 1,
            k: count_on(spot.k, unit),
        }
    }
}

// What stands for a part of an argument, one unit after another.
fn put_units(out: &mut [u16], start: Spot, part: &[u16], batch: bool) -> Spot
    requires { (start.to + length (stretch batch start.k part.now) < 2 ^ 64) × (start.k + length part.now < 2 ^ 64) }
    ensures { Emits batch start.k part.now start.to result.to result.k out.old out.new }
{
    let mut spot = start;
    for &unit in part {
        spot = put_unit(out, spot, unit, batch);
    }
    spot
}

// The backslashes that still count behind n units that are written as they are.
fn still_count(k: usize, n: usize) -> usize
    ensures { result ≡ pick (eqb n 0) k 0 }
{
    if n == 0 { k } else { 0 }
}

// What stands for the units of an argument. Behind a stretch that is copied, sixteen units go one by one before the next is looked for, so that
// text full of marks is not scanned in vain at each. An index and no iterator: how far a step goes is what its scan answers.
fn put_content(out: &mut [u16], at: usize, arg: &[u16], batch: bool) -> Spot
    requires { at + length (stretch batch 0 arg.now) < 2 ^ 64 }
    ensures { Emits batch 0 arg.now at result.to result.k out.old out.new }
{
    let mut spot = Spot { to: at, k: 0 };
    let mut i = 0;
    while i < arg.len() {
        let rest = &arg[i..];
        let n = marks::plain_eights(rest, batch);
        stores::copy_run(out, spot.to, &rest[..n]);
        let end = rest.len().min(n + NEAR);
        let next = Spot {
            to: spot.to + n,
            k: still_count(spot.k, n),
        };
        spot = put_units(out, next, &rest[n..end], batch);
        i += end;
    }
    spot
}

// The quote mark before or behind an argument that stands in quotes.
fn put_edge(out: &mut [u16], at: usize, quoted: bool) -> usize
    requires { at + length (edge quoted) < 2 ^ 64 }
    ensures { Placed (edge quoted) at result out.old out.new }
{
    if quoted {
        stores::put(out, at, QUOTE);
        at + 1
    } else {
        at
    }
}

// The backslashes at the end of an argument, once more if it stands in quotes.
fn put_end(out: &mut [u16], spot: Spot, quoted: bool) -> usize
    requires { spot.to + pick quoted spot.k 0 < 2 ^ 64 }
    ensures { Placed (slashes (pick quoted spot.k 0)) spot.to result out.old out.new }
{
    if quoted {
        put_slashes(out, spot.to, spot.k)
    } else {
        spot.to
    }
}

// The units of an argument with the quotes round it, at the front of what is lent. Lent an empty part, it measures.
fn put_marked(out: &mut [u16], arg: &[u16], shape: Shape) -> usize
    requires { length (formed shape.batch shape.quoted arg.now) < 2 ^ 64 }
    ensures { Appended (formed shape.batch shape.quoted arg.now) result out.old out.new }
{
    let at = put_edge(out, 0, shape.quoted);
    let spot = put_content(out, at, arg, shape.batch);
    let to = put_end(out, spot, shape.quoted);
    put_edge(out, to, shape.quoted)
}

// The units of an argument that is written as it is, and the quotes round it, at the front of what is lent.
fn put_plain(out: &mut [u16], arg: &[u16], quoted: bool) -> usize
    ensures { Appended (edge quoted ++ arg.now ++ edge quoted) result out.old out.new }
{
    let at = put_edge(out, 0, quoted);
    stores::copy_run(out, at, arg);
    put_edge(out, at + arg.len(), quoted)
}

// An argument's form, at the front of what is lent. Most arguments have no mark, and are one copy.
pub fn put_form(out: &mut [u16], arg: &[u16], shape: Shape) -> usize
    requires { length (formed shape.batch shape.quoted arg.now) < 2 ^ 64 }
    ensures { Appended (formed shape.batch shape.quoted arg.now) result out.old out.new }
{
    if marks::is_plain(arg, shape.batch) {
        put_plain(out, arg, shape.quoted)
    } else {
        put_marked(out, arg, shape)
    }
}
