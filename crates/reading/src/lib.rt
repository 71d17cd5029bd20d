// Reading a line: its arguments' texts into lent units and their spans into a lent table; and the part of one argument.
#![tactic(auto)]

mod laying;

ghost use Rattle.std.specs.Prelude.{◌≡◌, ◌≤◌, length, eqb};
ghost use Rattle.rules.specs.Choice.{pick};
ghost use Rattle.rules.specs.Reading.{read_limit, reading, argument_part};
ghost use Rattle.rules.specs.Answer.{Read};
ghost use Rattle.reading.specs.Laid.{line_arguments};
ghost use Rattle.reading.specs.House.{Short, Housed, housed, sure};
ghost use Rattle.reading.specs.Span.{argument_span};

use laying::lay_line;
use rules::{Arguments, Refusal};
use scans::find_nul;

// The most units of a line that is read.
pub const READ_LIMIT: usize = 32767;

// How many units the limit counts: those of the line or, where it is empty, of the executable name.
fn units_read(line: usize, exe_name: usize) -> usize
    ensures { result ≡ pick (eqb line 0) exe_name line }
{
    if line == 0 { exe_name } else { line }
}

// Whether room and table surely hold whatever so many units give: at most as many text units, and an argument for every two units and one more.
#[tactic(auto, unfolding(rules::specs::Reading::read_limit))]
fn surely_fits(units: usize, room: usize, numbers: usize) -> bool
    requires { units ≤ read_limit }
    ensures { result ≡ sure units room numbers }
{
    units <= room && units + 2 <= numbers
}

// Lays out arguments that surely fit: nothing can be refused any more, so nothing is measured before.
fn read_at_once(
    line: &[u16],
    exe_name: &[u16],
    text: &mut [u16],
    spans: &mut [u32],
) -> Result<Arguments, Refusal>
    requires { Short line.now exe_name.now × Housed (line_arguments line.now exe_name.now) (length text.old) (length spans.old) }
    ensures { Read (housed (line_arguments line.now exe_name.now) (length text.old) (length spans.old)) result text.old text.new spans.old spans.new }
{
    Ok(lay_line(line, exe_name, text, spans))
}

// Measures first, so that every refusal is decided before anything is stored; then writes.
fn read_measured(
    line: &[u16],
    exe_name: &[u16],
    text: &mut [u16],
    spans: &mut [u32],
) -> Result<Arguments, Refusal>
    requires { Short line.now exe_name.now }
    ensures { Read (housed (line_arguments line.now exe_name.now) (length text.old) (length spans.old)) result text.old text.new spans.old spans.new }
{
    let need = lay_line(line, exe_name, &mut [], &mut []);
    if spans.len() / 2 < need.count {
        return Err(Refusal::Places);
    }
    if text.len() < need.units {
        return Err(Refusal::Room);
    }
    read_at_once(line, exe_name, text, spans)
}

// Reads a line by the C run-time rules (Rust: `parse_lp_cmd_line`).
pub fn parse_lp_cmd_line(
    units: &[u16],
    exe_name: &[u16],
    text: &mut [u16],
    spans: &mut [u32],
) -> Result<Arguments, Refusal>
    ensures { Read (reading exe_name.now units.now (length text.old) (length spans.old)) result text.old text.new spans.old spans.new }
{
    let n = find_nul(units);
    let counted = units_read(n, exe_name.len());
    if READ_LIMIT < counted {
        return Err(Refusal::Length);
    }
    let line = &units[..n];
    if surely_fits(counted, text.len(), spans.len()) {
        read_at_once(line, exe_name, text, spans)
    } else {
        read_measured(line, exe_name, text, spans)
    }
}

// Where a part lies in the caller's text.
// Not one with a place in a store: this part lies in what the caller lends.
#[derive(Clone, Copy, Debug, PartialEq, Eq)]
pub struct Span {
    pub start: usize,
    pub len: usize,
}

// Start and length of one argument's part in the caller's text; 0 and 0 where the table has no such place or its span reaches past the text.
// Text, table and index one by one: the C interface lends them so.
pub fn span_of(text: &[u16], spans: &[u32], index: usize) -> Span
    ensures { result ≡ argument_span text.now spans.now index }
{
    // Two zeros and no Option: the document says so, and the C interface hands them out.
    let none = Span { start: 0, len: 0 };
    let (places, _) = spans.as_chunks::<2>();
    let Some(&[start, len]) = places.get(index) else {
        return none;
    };
    let start = start as usize;
    let len = len as usize;
    if text.len() < start + len {
        none
    } else {
        Span { start, len }
    }
}

// The part of the caller's text itself that an argument is, or an empty one.
pub fn argument<'a>(text: &'a [u16], spans: &[u32], index: usize) -> &'a [u16]
    ensures { result.now ≡ argument_part text.now spans.now index }
{
    let span = span_of(text, spans, index);
    &text[span.start..span.start + span.len]
}
