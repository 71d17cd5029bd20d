// The refusals of building that one argument can give: 1 by its record, 6 and 5 by its units. And the most units that it can take.
ghost use Rattle.std.specs.Prelude.{◌≡◌, ◌<◌};
ghost use Rattle.rules.specs.Record.{argument_of};
ghost use Rattle.adding.specs.Judged.{record_judged, breaks_line, most_units, units_judged};

use crate::limits;
use rules::{Arg, Refusal};
use units::{kinds, parts};

// By its record: 1. Else the units so far stay as they are.
pub fn judge_record(text: &[u16], units: usize, place: usize, arg: Arg) -> Result<usize, Refusal>
    ensures { result ≡ record_judged text.now units place arg }
{
    if records::is_wrong(text, arg) {
        return Err(Refusal::Record(place));
    }
    Ok(units)
}

// Whether units hold a line break where none may be: in a regular argument of a batch line.
fn breaks_line(batch: bool, kind: u32, content: &[u16]) -> bool
    ensures { result ≡ breaks_line batch (record { kind = kind; content = content.now }) }
{
    batch && kinds::is_regular(kind) && scans::has_line_break(content)
}

// The most units that an argument of so many takes in a line, with the space before it.
fn most_units(batch: bool, units: usize) -> usize
    requires { units < 4294967296 }
    ensures { result ≡ most_units batch units }
{
    if batch { 8 * units + 3 } else { 2 * units + 3 }
}

// By its units, 6 before 5: a line break in a regular argument of a batch line, or a NUL. Else the most that the argument can take is counted.
pub fn judge_units(
    batch: bool,
    text: &[u16],
    units: usize,
    place: usize,
    arg: Arg,
) -> Result<usize, Refusal>
    ensures { result ≡ units_judged batch units place (argument_of text.now arg) }
{
    let content = parts::part_of(text, arg.start, arg.len);
    let breaks = breaks_line(batch, arg.kind, content);
    let nul = scans::has_nul(content);
    if breaks {
        return Err(Refusal::LineBreak(place));
    }
    if nul {
        return Err(Refusal::Nul(place));
    }
    Ok(limits::count_on(units, most_units(batch, content.len())))
}
