// The first set of questions, for which the records are made here and room enough is lent.
#![tactic(auto)]

ghost use Rattle.std.specs.Prelude.{◌≡◌, eqb, length, get_or, drop};
ghost use Rattle.rules.specs.Record.{part};
ghost use Rattle.rules.specs.Building.{either_line};
ghost use Rattle.rules.specs.Block.{environment_block};
ghost use Rattle.rules.specs.BlockReading.{block_reading};
ghost use Rattle.sayings.specs.Told.{Lists, Tells, text_told};

use blocks::make_envp;
use building::lines::build;
use entries::read_envp;
use fields::values::{number_at, rest_from, text_at};
use names::has_bat_extension;
use reading::parse_lp_cmd_line;
use replies::answers::Answer;
use sayings::{entries_told, text_told, texts_told, with_numbers, with_one};
use status::{code, status_text};
use stores::{copy_run, put};

// `read EXE LINE`
fn read(text: &[u16], numbers: &[u32], out: &mut [u16], spans: &mut [u32]) -> Answer {
    let exe = text_at(text, numbers, 0);
    let line = text_at(text, numbers, 2);
    let parsed = parse_lp_cmd_line(line, exe, out, spans);
    texts_told(parsed, spans.len())
}

// `line F PROGRAM [K:TEXT ..]`, and `batch F SCRIPT [K:TEXT ..]` where `batch` is set
fn line(batch: bool, text: &[u16], numbers: &[u32], out: &mut [u16], spans: &mut [u32]) -> Answer
    ensures { Tells (either_line batch (eqb (get_or numbers.now 0 0) 1) (part text.now (get_or numbers.now 1 0) (get_or numbers.now 2 0)) (drop 3 numbers.now) text.now (length out.old)) text_told result out.old out.new }
{
    let force = number_at(numbers, 0) == 1;
    let program = text_at(text, numbers, 1);
    let records = rest_from(numbers, 3);
    let built = build(batch, program, records, text, force, out);
    text_told(built, spans)
}

// `env [KEY:VALUE ..]`
fn env(text: &[u16], numbers: &[u32], out: &mut [u16], spans: &mut [u32]) -> Answer
    ensures { Tells (environment_block numbers.now text.now (length out.old)) text_told result out.old out.new }
{
    text_told(make_envp(numbers, text, out), spans)
}

// `entries BLOCK`. The spans are those of the block, so it is copied to the front of the output, of which answers are shown.
fn entries(text: &[u16], numbers: &[u32], out: &mut [u16], spans: &mut [u32]) -> Answer
    ensures { let block = part text.now (get_or numbers.now 0 0) (get_or numbers.now 1 0) in Lists (block_reading block (length spans.old)) block result spans.old spans.new out.old out.new }
{
    let block = text_at(text, numbers, 0);
    copy_run(out, 0, block);
    let listed = read_envp(block, spans);
    entries_told(listed, spans.len())
}

// `suffix PATH`
fn suffix(text: &[u16], numbers: &[u32]) -> Answer {
    let path = text_at(text, numbers, 0);
    with_one(usize::from(has_bat_extension(path)), 0)
}

// `status N`
fn status(numbers: &mut [u32], out: &mut [u16], spans: &mut [u32]) -> Answer {
    let status = number_at(numbers, 0);
    let signed = code(status);
    let told = text_told(status_text(status, out), spans);
    put(numbers, 0, signed.unsigned_abs());
    with_numbers(told, 0, 1, signed < 0)
}

// How many questions the first set has.
pub const COUNT: usize = 7;

// The question of a row of the first set, in the order of the table.
// A row and four parameters: an enum would name each question three times, and a struct of what is lent would be taken apart again in each function.
pub fn ask(
    row: usize,
    text: &[u16],
    numbers: &mut [u32],
    out: &mut [u16],
    spans: &mut [u32],
) -> Answer {
    match row {
        0 => read(text, numbers, out, spans),
        1 | 2 => line(row == 2, text, numbers, out, spans),
        3 => env(text, numbers, out, spans),
        4 => suffix(text, numbers),
        5 => status(numbers, out, spans),
        _ => entries(text, numbers, out, spans),
    }
}
