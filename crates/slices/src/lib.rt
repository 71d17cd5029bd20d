// Command lines from a slice of records: the entries over `&[Arg]`, whose answers are those of the flat entries on the records' numbers.
#![tactic(auto)]

ghost use Rattle.std.specs.Prelude.{◌≡◌, length, get_or};
ghost use Rattle.rules.specs.Answer.{Answered, built_said};
ghost use Rattle.rules.specs.Building.{command_line, batch_command_line, either_line};
ghost use Rattle.rules.specs.Record.{flat_of};
ghost use Rattle.records.specs.Records.{no_arg};

use building::works::Turn;
use building::{turns, works};
use records::NO_ARG;
use rules::{Arg, Line, Refusal};
use units::classes::Classes;

// The record of an index, or one of zeros where the slice has none.
// Zeros and no Option: a turn takes a record, and looks at none where no record is left.
fn record_at(args: &[Arg], index: usize) -> Arg
    ensures { result ≡ get_or args.now index no_arg }
{
    match args.get(index) {
        Some(&arg) => arg,
        None => NO_ARG,
    }
}

// Builds a line of either kind. The one loop of this crate: each turn hands on the state by value. `building::lines::build` has the same loop over a flat list:
// one driver for both would take a closure, and its contract would have to say each of the closure's answers.
fn make_line_of(
    batch: bool,
    lent: &[u16],
    args: &[Arg],
    text: &[u16],
    force_quotes: bool,
    out: &mut [u16],
) -> Result<Line, Refusal>
    ensures { Answered (either_line batch force_quotes lent.now (flat_of args.now) text.now (length out.old)) (built_said result) out.old out.new }
{
    let classes = Classes::new();
    let mut work = works::begin(batch, force_quotes, args.len());
    loop {
        let arg = record_at(args, work.at);
        match turns::turn(work, arg, &classes, lent, text, out)? {
            Turn::On(next) => work = next,
            Turn::Done(line) => return Ok(line),
        }
    }
}

// Builds an ordinary command line from a slice of records. In the Rust: `make_command_line`.
pub fn make_command_line_of(
    program: &[u16],
    args: &[Arg],
    text: &[u16],
    force_quotes: bool,
    out: &mut [u16],
) -> Result<Line, Refusal>
    ensures { Answered (command_line force_quotes program.now (flat_of args.now) text.now (length out.old)) (built_said result) out.old out.new }
{
    make_line_of(false, program, args, text, force_quotes, out)
}

// Builds the line that runs a batch script from a slice of records. In the Rust: `make_bat_command_line`.
// An entry of its own and no flag, as the flat entries are.
pub fn make_bat_command_line_of(
    script: &[u16],
    args: &[Arg],
    text: &[u16],
    force_quotes: bool,
    out: &mut [u16],
) -> Result<Line, Refusal>
    ensures { Answered (batch_command_line force_quotes script.now (flat_of args.now) text.now (length out.old)) (built_said result) out.old out.new }
{
    make_line_of(true, script, args, text, force_quotes, out)
}
