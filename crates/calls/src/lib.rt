// The commands that build no line, one function each.
#![tactic(auto)]

use blocks::{BLOCK_LIMIT, make_envp};
use console::messages::{block_refused, status_refused};
use console::room;
use gathering::{Kind, gather, take_word};
use names::has_bat_extension;
use results::back::say_read;
use results::written::{say_code, say_suffix, say_written};
use std::io::Result;
use std::rt::Env;
use terminal::numbers::number_of;
use terminal::words::arg_count;

// Says what comes of the units of the one word that a command takes, or what word that is.
fn say_of_word<F: FnOnce(&[u16]) -> Result<()>>(
    rt: &(impl Env + Print),
    takes: &str,
    say: F,
) -> Result<()>
    requires { F.IsAlwaysCallable say }
{
    if arg_count(rt) != 3 {
        return println!(rt; "error: {takes}");
    }
    let mut text = room::text();
    match take_word(rt, 2, &mut text, 0)? {
        Some(units) => say(&text[..units]),
        None => Ok(()),
    }
}

// `read`: the arguments of a line. An empty line is read as the name of the executable, here the tool's own.
pub fn read(rt: &(impl Env + Print)) -> Result<()> {
    let name = b"lines".map(u16::from);
    say_of_word(
        rt,
        "read takes one word, the line: put it in quotes",
        |line| { say_read(rt, line, &name) },
    )
}

// `suffix`: whether a path has the suffix of a batch script.
pub fn suffix(rt: &(impl Env + Print)) -> Result<()> {
    say_of_word(rt, "suffix takes one word, a path", |path| {
        say_suffix(rt, has_bat_extension(path))
    })
}

// The block of the entries that records name in a text.
fn env_block(rt: &impl Print, text: &[u16], records: &[u32]) -> Result<()> {
    let mut out = room::out();
    match make_envp(records, text, &mut out) {
        Ok(units) => {
            say_written(rt, "block", units, &out)?;
            Ok(())
        }
        Err(refusal) => block_refused(rt, refusal, BLOCK_LIMIT),
    }
}

// `env`: the block of entries.
pub fn env(rt: &(impl Env + Print)) -> Result<()> {
    let mut text = room::text();
    let mut table = room::table();
    match gather(rt, Kind::Entry, 2, 0, &mut text, &mut table)? {
        Some(spot) => env_block(rt, &text, &table[..spot.numbers]),
        None => Ok(()),
    }
}

// The text of a status.
// Not one with `env_block`: a status text has a refusal of its own, and no limit.
fn say_status_text(rt: &impl Print, number: u32) -> Result<()> {
    let mut out = [0u16; 32];
    match status::status_text(number, &mut out) {
        Ok(units) => {
            say_written(rt, "text", units, &out)?;
            Ok(())
        }
        Err(refusal) => status_refused(rt, refusal),
    }
}

// `status`: the text and the signed code of a number.
pub fn status(rt: &(impl Env + Print)) -> Result<()> {
    if arg_count(rt) != 3 {
        return println!(rt; "error: status takes one word, a number");
    }
    let mut word = room::word();
    // A word that is too long is taken as empty, which is no number.
    let n = rt.arg(2, &mut word).unwrap_or(0);
    match number_of(&word[..n]) {
        Some(number) => {
            say_status_text(rt, number)?;
            say_code(rt, status::code(number))
        }
        None => println!(rt; "error: a status is a decimal number from 0 to 4294967295"),
    }
}
