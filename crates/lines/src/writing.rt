// The commands that build a line.
ghost use Rattle.std.specs.Prelude.{◌≤◌, length};

use adding::limits::limit_of;
use building::lines::build;
use console::room;
use gathering::gather_call;
use results::back::{Given, read_back};
use results::written::say_built;
use std::io::Result;
use std::rt::Env;

// The line of what is given, and what is read back from an ordinary one.
fn say_line(rt: &impl Print, batch: bool, force: bool, given: &Given) -> Result<()> {
    let mut out = room::out();
    let built = build(
        batch,
        given.program,
        given.records,
        given.text,
        force,
        &mut out,
    );
    match say_built(rt, built, &out, limit_of(batch))? {
        Some(line) if !batch => {
            println!(rt; "read back:")?;
            read_back(rt, line, given)
        }
        _ => Ok(()),
    }
}

// `write`, the line of a program and its arguments, and what is read back from it; or `batch`, the line that runs a script.
pub fn line(rt: &(impl Env + Print), batch: bool) -> Result<()> {
    let mut text = room::text();
    let mut table = room::table();
    let Some(call) = gather_call(rt, &mut text, &mut table)? else {
        return Ok(());
    };
    let given = Given {
        program: &text[..call.units],
        records: &table[..call.numbers],
        text: &text,
    };
    say_line(rt, batch, call.force, &given)
}
