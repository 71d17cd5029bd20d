// The C interface: one exported function for each entry point, over integers, slices and fixed arrays alone. include/aslapush.h says it for C. A refusal is its
// number and 0 is none: C has no Result.
#![tactic(auto)]

mod answers;

ghost use Rattle.std.specs.Prelude.{◌≡◌, length};
ghost use Rattle.rules.specs.Unit.{class_of};
ghost use Rattle.rules.specs.Reading.{reading};
ghost use Rattle.rules.specs.Building.{command_line, batch_command_line};
ghost use Rattle.rules.specs.Block.{environment_block};
ghost use Rattle.rules.specs.BlockReading.{block_reading};
ghost use Rattle.rules.specs.Status.{status_outcome, signed_code};
ghost use Rattle.rules.specs.Suffix.{has_batch_suffix};
ghost use Rattle.reading.specs.Span.{argument_span};
ghost use Rattle.rules.specs.Key.{launch};
ghost use Rattle.rules.specs.Store.{Empties};
ghost use Rattle.aslapush.specs.Export.{forces, Wrote, Gave, Tabulated, start_and_length, as_number, LookupTold, StoreTold};

use answers::{tell, tell_cached};
use cache::WORDS;

// Reads a line into texts and spans. Returns the refusal's number, 0 for an answer.
#[unsafe(no_mangle)]
pub extern "C" fn aslapush_parse_lp_cmd_line(
    units: &[u16],
    exe_name: &[u16],
    text: &mut [u16],
    spans: &mut [u32],
    answer: &mut [u64; 4],
) -> u32
    ensures { Gave (reading exe_name.now units.now (length text.old) (length spans.old)) result answer.new text.old text.new spans.old spans.new }
{
    let parsed = reading::parse_lp_cmd_line(units, exe_name, text, spans);
    tell(parsed, answer)
}

// Builds an ordinary line. Any number but 0 forces quotes. Returns the refusal's number, 0 for an answer.
#[unsafe(no_mangle)]
pub extern "C" fn aslapush_make_command_line(
    program: &[u16],
    records: &[u32],
    text: &[u16],
    force_quotes: u32,
    out: &mut [u16],
    answer: &mut [u64; 4],
) -> u32
    ensures { Wrote (command_line (forces force_quotes) program.now records.now text.now (length out.old)) result answer.new out.old out.new }
{
    let built = building::make_command_line(program, records, text, force_quotes != 0, out);
    tell(built, answer)
}

// Builds a batch line. Any number but 0 forces quotes. Returns the refusal's number, 0 for an answer.
#[unsafe(no_mangle)]
pub extern "C" fn aslapush_make_bat_command_line(
    script: &[u16],
    records: &[u32],
    text: &[u16],
    force_quotes: u32,
    out: &mut [u16],
    answer: &mut [u64; 4],
) -> u32
    ensures { Wrote (batch_command_line (forces force_quotes) script.now records.now text.now (length out.old)) result answer.new out.old out.new }
{
    let built = building::make_bat_command_line(script, records, text, force_quotes != 0, out);
    tell(built, answer)
}

// Builds an environment block. Returns the refusal's number, 0 for an answer.
#[unsafe(no_mangle)]
pub extern "C" fn aslapush_make_envp(
    records: &[u32],
    text: &[u16],
    out: &mut [u16],
    answer: &mut [u64; 4],
) -> u32
    ensures { Wrote (environment_block records.now text.now (length out.old)) result answer.new out.old out.new }
{
    let filled = blocks::make_envp(records, text, out);
    tell(filled, answer)
}

// Lists the entries of an environment block. Returns the refusal's number, 0 for an answer.
#[unsafe(no_mangle)]
pub extern "C" fn aslapush_read_envp(block: &[u16], spans: &mut [u32], answer: &mut [u64; 4]) -> u32
    ensures { Tabulated (block_reading block.now (length spans.old)) result answer.new spans.old spans.new }
{
    let listed = entries::read_envp(block, spans);
    tell(listed, answer)
}

// Writes the text of a child status. Returns the refusal's number, 0 for an answer.
#[unsafe(no_mangle)]
pub extern "C" fn aslapush_status_text(status: u32, out: &mut [u16], answer: &mut [u64; 4]) -> u32
    ensures { Wrote (status_outcome status (length out.old)) result answer.new out.old out.new }
{
    let filled = status::status_text(status, out);
    tell(filled, answer)
}

// The signed code of a child status.
#[unsafe(no_mangle)]
pub extern "C" fn aslapush_code(status: u32) -> i32
    ensures { result ≡ signed_code status }
{
    status::code(status)
}

// 1 where a path ends in `.bat` or `.cmd`, in letters of either case, else 0.
#[unsafe(no_mangle)]
pub extern "C" fn aslapush_has_bat_extension(path: &[u16]) -> u32
    ensures { result ≡ as_number (has_batch_suffix path.now) }
{
    u32::from(names::has_bat_extension(path))
}

// The class of a unit, 0 to 7.
#[unsafe(no_mangle)]
pub extern "C" fn aslapush_class_of(unit: u16) -> u8
    ensures { result ≡ class_of unit }
{
    units::classes::Classes::new().class_of(unit)
}

// Start and length of one argument's part in the lent text; 0 and 0 for an index not in the table or a span reaching past the text.
#[unsafe(no_mangle)]
pub extern "C" fn aslapush_argument(text: &[u16], spans: &[u32], index: usize, part: &mut [u64; 2])
    ensures { part.new ≡ start_and_length (argument_span text.now spans.now index) }
{
    let span = reading::span_of(text, spans, index);
    *part = [span.start as u64, span.len as u64];
}

// Makes a store of the launch line cache, without entries, whatever the index held.
#[unsafe(no_mangle)]
pub extern "C" fn aslapush_cache_make(index: &mut [u64; WORDS])
    ensures { Empties index.old index.new }
{
    cache::make(index);
}

// Removes all entries of a store.
#[unsafe(no_mangle)]
pub extern "C" fn aslapush_cache_clear(index: &mut [u64; WORDS])
    ensures { Empties index.old index.new }
{
    cache::clear(index);
}

// Looks for the line of a key under a fingerprint. Any number but 0 forces quotes. Returns the refusal's number, 0 for an answer.
#[unsafe(no_mangle)]
pub extern "C" fn aslapush_cache_lookup(
    index: &[u64; WORDS],
    units: &[u16],
    fingerprint: u64,
    program: &[u16],
    records: &[u32],
    text: &[u16],
    force_quotes: u32,
    answer: &mut [u64; 5],
) -> u32
    ensures { LookupTold index.now units.now fingerprint (launch (forces force_quotes) program.now records.now text.now) result answer.new }
{
    let cached = cache::lookup(
        index,
        units,
        fingerprint,
        program,
        records,
        text,
        force_quotes != 0,
    );
    tell_cached(cached, answer)
}

// Stores the line of a key under a fingerprint. Any number but 0 forces quotes. Returns the refusal's number, 0 for an answer.
#[unsafe(no_mangle)]
pub extern "C" fn aslapush_cache_store(
    index: &mut [u64; WORDS],
    units: &mut [u16],
    fingerprint: u64,
    program: &[u16],
    records: &[u32],
    text: &[u16],
    force_quotes: u32,
    answer: &mut [u64; 5],
) -> u32
    ensures { StoreTold fingerprint (launch (forces force_quotes) program.now records.now text.now) result answer.new index.old units.old index.new units.new }
{
    let cached = cache::store(
        index,
        units,
        fingerprint,
        program,
        records,
        text,
        force_quotes != 0,
    );
    tell_cached(cached, answer)
}
