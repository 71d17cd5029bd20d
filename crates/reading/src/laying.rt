// The arguments of a line laid out: their texts one after another, start and length of each in the span table. Lent empty parts, it measures.
ghost use Rattle.std.specs.Prelude.{◌≡◌, [], ◌∷◌, ◌+◌, ◌*◌, ◌≤◌, ◌<◌, length, drop};
ghost use Rattle.std.proofs.lemmas.List.Edits.{sets};
ghost use Rattle.rules.specs.Unit.{is_blank};
ghost use Rattle.rules.specs.Reading.{arguments};
ghost use Rattle.laws.specs.Scan.{leading};
ghost use Rattle.reading.specs.Laid.{Laid, line_arguments};

use arguments::{read_first, read_later};
use rules::Arguments;
use scans::blanks;
use stores::{copy_run, put};

// Start and length of an argument at its place of the span table, as far as the table has places.
// Two numbers of a flat table and no struct: the C interface has it so.
fn put_span(spans: &mut [u32], i: usize, start: usize, count: usize)
    requires { (i < 4294967296) × (start < 4294967296) × (count < 4294967296) }
    ensures { spans.new ≡ sets spans.old (2 * i) (start ∷ count ∷ []) }
{
    put(spans, 2 * i, start as u32);
    put(spans, 2 * i + 1, count as u32);
}

// The place in a line behind the blanks from a place on.
fn skip_blanks(line: &[u16], i: usize) -> usize
    requires { i ≤ length line.now }
    ensures { (result ≡ i + leading is_blank (drop i line.now)) × (result ≤ length line.now) }
{
    i + blanks(&line[i..])
}

// Lays out the arguments of a line that is not empty, as far as there is room. Each later one is written into the unused rest of the text.
fn lay(line: &[u16], text: &mut [u16], spans: &mut [u32]) -> Arguments
    requires { length line.now < 2147483648 }
    ensures { Laid (arguments line.now) text.old text.new spans.old spans.new result.count result.units }
{
    let first = read_first(line, text);
    let mut n = first.units;
    put_span(spans, 0, 0, n);
    let mut count = 1;
    let mut i = skip_blanks(line, first.used);
    // A while and no iterator: each argument tells itself how far it reaches.
    while i < line.len() {
        let from = n.min(text.len());
        let took = read_later(&line[i..], &mut text[from..]);
        put_span(spans, count, n, took.units);
        count += 1;
        n += took.units;
        i = skip_blanks(line, i + took.used);
    }
    Arguments { count, units: n }
}

// Lays out the arguments of a line: of an empty one the executable name, taken as it is.
pub fn lay_line(line: &[u16], exe_name: &[u16], text: &mut [u16], spans: &mut [u32]) -> Arguments
    requires { (length line.now < 2147483648) × (length line.now ≡ 0 → length exe_name.now < 2147483648) }
    ensures { Laid (line_arguments line.now exe_name.now) text.old text.new spans.old spans.new result.count result.units }
{
    if line.is_empty() {
        copy_run(text, 0, exe_name);
        put_span(spans, 0, 0, exe_name.len());
        Arguments {
            count: 1,
            units: exe_name.len(),
        }
    } else {
        lay(line, text, spans)
    }
}
