// Runs of units that mean nothing special: each is found by a scan with a final contract and copied at once.
ghost use Rattle.std.specs.Prelude.{◌≡◌};
ghost use Rattle.rules.specs.Choice.{pick};
ghost use Rattle.rules.specs.Unit.{is_quote};
ghost use Rattle.laws.specs.Scan.{leading, before, is_one_of};
ghost use Rattle.laws.specs.Run.{starts_with};
ghost use Rattle.arguments.specs.Run.{is_end, is_kept, is_taken};

use scans::{find_any, is_blank};

// The units that mean something to the reader: the quote mark, the backslash and the two blanks.
pub const QUOTE: u16 = 34;

pub const BACKSLASH: u16 = 92;

const SPACE: u16 = 32;

const TAB: u16 = 9;

// Whether a unit ends an argument: a blank outside quotes.
pub fn is_end(unit: u16, quoted: bool) -> bool
    ensures { result ≡ is_end quoted unit }
{
    !quoted && is_blank(unit)
}

// A unit that ends a run outside quotes; inside them the quote mark once more, which ends every run.
fn outside_quotes(quoted: bool, unit: u16) -> u16
    ensures { result ≡ pick quoted 34 unit }
{
    if quoted { QUOTE } else { unit }
}

// How many units stand before a quote mark, one unit more and, outside quotes, a blank. It is laid into each reader, so that the machine knows that unit there.
#[inline(always)]
fn run_before(rest: &[u16], also: u16, quoted: bool) -> usize
    ensures { result ≡ before (is_one_of 34 also (pick quoted 34 32) (pick quoted 34 9)) rest.now }
{
    let space = outside_quotes(quoted, SPACE);
    let tab = outside_quotes(quoted, TAB);
    find_any(rest, QUOTE, also, space, tab)
}

// How many units of argument 0 that are taken as they are the rest of a line starts with: up to a quote mark and, outside quotes, a blank.
pub fn kept_run(rest: &[u16], quoted: bool) -> usize
    ensures { result ≡ leading (is_kept quoted) rest.now }
{
    run_before(rest, QUOTE, quoted)
}

// The same of a later argument, where backslashes mean something: up to a quote mark, a backslash and, outside quotes, a blank.
// Two functions and not one with the unit: each promises the run that its own reader takes.
pub fn plain_run(rest: &[u16], quoted: bool) -> usize
    ensures { result ≡ leading (is_taken quoted) rest.now }
{
    run_before(rest, BACKSLASH, quoted)
}

// Whether the rest of a line starts with a quote mark.
#[tactic(auto, using(crate::proofs::Run::quotes))]
pub fn starts_with_quote(rest: &[u16]) -> bool
    ensures { result ≡ starts_with is_quote rest.now }
{
    matches!(rest, [QUOTE, ..])
}
