// Whether an argument stands in quotes, by the classes of its units.
#![tactic(auto)]

ghost use Rattle.std.specs.Prelude.{◌≡◌, ◌<◌};
ghost use Rattle.rules.specs.Choice.{any};
ghost use Rattle.rules.specs.Quoting.{needs_quotes};
ghost use Rattle.rules.specs.Batch.{needs_batch_quotes};
ghost use Rattle.decisions.specs.Settling.{is_settling, settles_by};

use units::classes::Classes;

// The classes of forcing units, a bit for each: all but 0 and 5.
const FORCING: u8 = 0b1101_1110;

// Whether a unit of this class settles that quotes are needed: a blank; in a batch argument any forcing unit. By a bit and no two comparisons: a jump on each of
// two classes is guessed wrong where they take turns, as those of a path do.
fn settles(class: u8, batch: bool) -> bool
    requires { class < 8 }
    ensures { result ≡ settles_by batch class }
{
    if batch {
        (FORCING >> class) & 1 == 1
    } else {
        class == 3
    }
}

// Whether a unit settles that quotes are needed.
fn has_settling(classes: &Classes, arg: &[u16], batch: bool) -> bool
    ensures { result ≡ any (is_settling batch) arg.now }
{
    for &unit in arg {
        if settles(classes.class_of(unit), batch) {
            return true;
        }
    }
    false
}

// Whether an argument of an ordinary line stands in quotes. Most have no blank, and a scan by eights says so sooner than their classes do.
pub fn needs_quotes(classes: &Classes, arg: &[u16], force: bool) -> bool
    ensures { result ≡ needs_quotes force arg.now }
{
    force || arg.is_empty() || (scans::has_blank(arg) && has_settling(classes, arg, false))
}

// Whether an argument of a batch line stands in quotes.
pub fn needs_batch_quotes(classes: &Classes, arg: &[u16], force: bool) -> bool
    ensures { result ≡ needs_batch_quotes force arg.now }
{
    force || arg.is_empty() || scans::ends_in_backslash(arg) || has_settling(classes, arg, true)
}
