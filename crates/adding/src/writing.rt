// Writing an argument behind the units so far. One routine measures and writes: what has no room is counted and not stored.
ghost use Rattle.std.specs.Prelude.{◌<◌, length};
ghost use Rattle.rules.specs.Record.{argument_of};
ghost use Rattle.rules.specs.Building.{written};
ghost use Rattle.laws.specs.Placed.{Appended};
ghost use Rattle.adding.specs.Added.{rule_of, piece, Added};

use crate::limits;
use crate::styles::Style;
use rules::Arg;
use units::classes::Classes;
use units::parts;

// What stands before each argument.
const SPACE: u16 = 32;

// An argument's form in either line, at the front of what is lent.
fn append_form(
    classes: &Classes,
    out: &mut [u16],
    kind: u32,
    content: &[u16],
    style: Style,
) -> usize
    requires { length content.now < 4294967296 }
    ensures { Appended (written (rule_of style.batch) style.force (record { kind = kind; content = content.now })) result out.old out.new }
{
    if style.batch {
        quoting::append_bat_arg(classes, out, kind, content, style.force)
    } else {
        quoting::append_arg(classes, out, kind, content, style.force)
    }
}

// One space and an argument's form behind the units so far, in the unused rest of the output.
pub fn add_argument(
    classes: &Classes,
    out: &mut [u16],
    units: usize,
    text: &[u16],
    arg: Arg,
    style: Style,
) -> usize
    ensures { Added (piece style (argument_of text.now arg)) units result out.old out.new }
{
    if limits::COUNT_CAP <= units {
        return limits::COUNT_CAP;
    }
    let content = parts::part_of(text, arg.start, arg.len);
    stores::put(out, units, SPACE);
    let to = units + 1;
    let from = out.len().min(to);
    let n = append_form(classes, &mut out[from..], arg.kind, content, style);
    limits::count_on(to, n)
}
