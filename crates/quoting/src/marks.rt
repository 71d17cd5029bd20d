// The marks of an argument, the units that are replaced, and the stretches without them. Each is a leaf with a final contract, so that it can be made
// faster with nothing above it changed.
ghost use Rattle.std.specs.Prelude.{◌≡◌, ◌+◌, ◌≤◌, length};
ghost use Rattle.rules.specs.Record.{part};
ghost use Rattle.quoting.specs.Emitted.{is_mark, other_mark, is_all_plain, PlainFront};

// The units that an argument's form treats by themselves.
pub const QUOTE: u16 = b'"' as u16;

const PERCENT: u16 = b'%' as u16;

pub const BACKSLASH: u16 = b'\\' as u16;

// The unit that is replaced beside the quote mark: in a batch argument the percent, else no other, so the quote mark again.
fn other_mark(batch: bool) -> u16
    ensures { result ≡ other_mark batch }
{
    if batch { PERCENT } else { QUOTE }
}

// Whether a unit is replaced.
pub fn is_mark(unit: u16, batch: bool) -> bool
    ensures { result ≡ is_mark batch unit }
{
    unit == QUOTE || unit == other_mark(batch)
}

// Whether an argument is written as it is, but for the quotes round it: it has no mark and no backslash at its end.
pub fn is_plain(arg: &[u16], batch: bool) -> bool
    ensures { result ≡ is_all_plain batch arg.now }
{
    !scans::ends_in_backslash(arg) && !scans::has_either(arg, QUOTE, other_mark(batch))
}

// Whether the eight units from a place on are all plain.
// A place and no array of eight, as `scans::eight_have_either` takes it.
fn eight_plain(units: &[u16], at: usize, batch: bool) -> bool
    requires { at + 8 ≤ length units.now }
    ensures { result ≡ is_all_plain batch (part units.now at 8) }
{
    !scans::eight_have_either(units, at, QUOTE, other_mark(batch)) && units[at + 7] != BACKSLASH
}

// How many units at the front are plain, taken by eights. An index and no `chunks_exact`: the scan of eight takes the units and a place among them.
pub fn plain_eights(rest: &[u16], batch: bool) -> usize
    ensures { PlainFront batch rest.now result }
{
    let mut n = 0;
    while n + 8 <= rest.len() && eight_plain(rest, n, batch) {
        n += 8;
    }
    n
}
