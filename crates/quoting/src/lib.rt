// The form of one argument, ordinary and batch. One routine measures and writes: what has no room is counted and not stored.
#![tactic(auto)]

ghost use Rattle.std.specs.Prelude.{◌<◌, length};
ghost use Rattle.rules.specs.Quoting.{form};
ghost use Rattle.rules.specs.Batch.{batch_form};
ghost use Rattle.rules.specs.Building.{written};
ghost use Rattle.laws.specs.Placed.{Appended};

use escapes::Shape;
use units::classes::Classes;
use units::kinds;

mod escapes;
pub mod marks;

// The units of a raw argument, at the front of what is lent.
fn put_raw(out: &mut [u16], arg: &[u16]) -> usize
    ensures { Appended arg.now result out.old out.new }
{
    stores::copy_run(out, 0, arg);
    arg.len()
}

// One argument of an ordinary line, at the front of what is lent; the answer is how many units it has. In the Rust: `append_arg`.
pub fn append_arg(
    classes: &Classes,
    out: &mut [u16],
    kind: u32,
    arg: &[u16],
    force_quotes: bool,
) -> usize
    ensures { Appended (written form force_quotes (record { kind = kind; content = arg.now })) result out.old out.new }
{
    if !kinds::is_regular(kind) {
        return put_raw(out, arg);
    }
    let quoted = decisions::needs_quotes(classes, arg, force_quotes);
    let batch = false;
    escapes::put_form(out, arg, Shape { quoted, batch })
}

// One argument of a batch line, at the front of what is lent; the answer is how many units it has. In the Rust: `append_bat_arg`.
// A function beside `append_arg`, as in the Rust: each decides on quotes by its own rule.
pub fn append_bat_arg(
    classes: &Classes,
    out: &mut [u16],
    kind: u32,
    arg: &[u16],
    force_quotes: bool,
) -> usize
    requires { length arg.now < 4294967296 }
    ensures { Appended (written batch_form force_quotes (record { kind = kind; content = arg.now })) result out.old out.new }
{
    if !kinds::is_regular(kind) {
        return put_raw(out, arg);
    }
    let quoted = decisions::needs_batch_quotes(classes, arg, force_quotes);
    let batch = true;
    escapes::put_form(out, arg, Shape { quoted, batch })
}
