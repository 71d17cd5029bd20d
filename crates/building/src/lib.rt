// Command lines from lists of arguments: ordinary lines and batch lines.
#![tactic(auto)]

ghost use Rattle.std.specs.Prelude.{length};
ghost use Rattle.rules.specs.Answer.{Answered, built_said};
ghost use Rattle.rules.specs.Building.{command_line, batch_command_line};

use rules::{Line, Refusal};

pub mod lines;
mod stages;
pub mod turns;
pub mod works;

// Builds an ordinary command line from records, three numbers each: kind, start and length in the text. In the Rust: `make_command_line`.
pub fn make_command_line(
    program: &[u16],
    records: &[u32],
    text: &[u16],
    force_quotes: bool,
    out: &mut [u16],
) -> Result<Line, Refusal>
    ensures { Answered (command_line force_quotes program.now records.now text.now (length out.old)) (built_said result) out.old out.new }
{
    lines::build(false, program, records, text, force_quotes, out)
}

// Builds the line that runs a batch script. In the Rust: `make_bat_command_line`.
// An entry of its own and no flag, with what is lent one by one: the Rust and the C interface have it so.
pub fn make_bat_command_line(
    script: &[u16],
    records: &[u32],
    text: &[u16],
    force_quotes: bool,
    out: &mut [u16],
) -> Result<Line, Refusal>
    ensures { Answered (batch_command_line force_quotes script.now records.now text.now (length out.old)) (built_said result) out.old out.new }
{
    lines::build(true, script, records, text, force_quotes, out)
}
