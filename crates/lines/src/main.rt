// A tool for a person at a terminal: command lines, batch lines and environment blocks for Windows processes, written and read.
#![tactic(auto)]

mod writing;

use console::{reports, room};
use std::env::{Env, FillError};
use std::io::Result;
use terminal::words::{Command, command_of};

// The command that the first word names; without a word, help.
fn command(rt: &impl Env) -> Command {
    let mut word = room::word();
    match rt.arg(1, &mut word) {
        Ok(n) => command_of(&word[..n]),
        Err(FillError::NotPresent) => Command::Help,
        Err(FillError::TooLong) => Command::Unknown,
    }
}

fn main(rt: HostRuntime) -> Result<()> {
    match command(&rt) {
        Command::Read => calls::read(&rt),
        Command::Write => writing::line(&rt, false),
        Command::Batch => writing::line(&rt, true),
        Command::Env => calls::env(&rt),
        Command::Status => calls::status(&rt),
        Command::Suffix => calls::suffix(&rt),
        Command::Help => reports::help(&rt),
        Command::Unknown => {
            println!(&rt; "error: the first word is no command\n")?;
            reports::help(&rt)
        }
    }
}
