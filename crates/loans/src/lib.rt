// The second set of questions, in which the asker gives all that is lent.
#![tactic(auto)]

ghost use Rattle.std.specs.Prelude.{◌≡◌, min, length};
ghost use Rattle.std.proofs.lemmas.List.Edits.{sets};

use blocks::make_envp;
use building::lines::build;
use entries::read_envp;
use fields::values::{number_at, rest_from, text_at, wide_at};
use reading::parse_lp_cmd_line;
use replies::answers::{Answer, Word};
use sayings::{counts_told, lent_told, name_text, said, with_numbers};
use status::status_text;
use stores::copy_run;

// Copies what is lent as the output to its front, names it as the table's first text, and says how many units it has.
fn lend(out: &mut [u16], spans: &mut [u32], units: &[u16]) -> usize
    ensures { (result ≡ min (length units.now) (length out.old)) × (out.new ≡ sets out.old 0 units.now) }
{
    copy_run(out, 0, units);
    let places = units.len().min(out.len());
    name_text(spans, 0, places);
    places
}

// `lent-line F PROGRAM TEXT OUT [N ..]`, and `lent-batch F SCRIPT TEXT OUT [N ..]` where `batch` is set
fn line(batch: bool, text: &[u16], numbers: &[u32], out: &mut [u16], spans: &mut [u32]) -> Answer {
    let force = number_at(numbers, 0) == 1;
    let program = text_at(text, numbers, 1);
    let lent = text_at(text, numbers, 3);
    let places = lend(out, spans, text_at(text, numbers, 5));
    let records = rest_from(numbers, 7);
    let built = build(batch, program, records, lent, force, &mut out[..places]);
    lent_told(built)
}

// `lent-env TEXT OUT [N ..]`
fn env(text: &[u16], numbers: &[u32], out: &mut [u16], spans: &mut [u32]) -> Answer {
    let lent = text_at(text, numbers, 0);
    let places = lend(out, spans, text_at(text, numbers, 2));
    let records = rest_from(numbers, 4);
    lent_told(make_envp(records, lent, &mut out[..places]))
}

// `lent-status N OUT`
fn status(text: &[u16], numbers: &[u32], out: &mut [u16], spans: &mut [u32]) -> Answer {
    let places = lend(out, spans, text_at(text, numbers, 1));
    let number = number_at(numbers, 0);
    lent_told(status_text(number, &mut out[..places]))
}

// `lent-read EXE LINE TEXT [N ..]`
fn read(text: &[u16], numbers: &mut [u32], out: &mut [u16], spans: &mut [u32]) -> Answer {
    let exe = text_at(text, numbers, 0);
    let line = text_at(text, numbers, 2);
    let places = lend(out, spans, text_at(text, numbers, 4));
    let start = numbers.len().min(6);
    let parsed = parse_lp_cmd_line(line, exe, &mut out[..places], &mut numbers[start..]);
    with_numbers(counts_told(parsed, 2), start, numbers.len(), false)
}

// `lent-entries BLOCK [N ..]`
fn entries(text: &[u16], numbers: &mut [u32]) -> Answer {
    let block = text_at(text, numbers, 0);
    let start = numbers.len().min(2);
    let listed = read_envp(block, &mut numbers[start..]);
    with_numbers(counts_told(listed, 0), start, numbers.len(), false)
}

// `argument TEXT INDEX [N ..]`
fn argument(text: &[u16], numbers: &[u32], out: &mut [u16], spans: &mut [u32]) -> Answer {
    let lent = text_at(text, numbers, 0);
    let index = wide_at(numbers, 2) as usize;
    let part = reading::argument(lent, rest_from(numbers, 4), index);
    lend(out, spans, part);
    Answer {
        spans: 2,
        ..said(Word::Ok)
    }
}

// The question of a row of the second set, in the order of the table.
// A row and four parameters: an enum would name each question three times, and a struct of what is lent would be taken apart again in each function.
pub fn ask(
    row: usize,
    text: &[u16],
    numbers: &mut [u32],
    out: &mut [u16],
    spans: &mut [u32],
) -> Answer {
    match row {
        0 | 1 => line(row == 1, text, numbers, out, spans),
        2 => env(text, numbers, out, spans),
        3 => status(text, numbers, out, spans),
        4 => read(text, numbers, out, spans),
        5 => argument(text, numbers, out, spans),
        _ => entries(text, numbers),
    }
}
