// The tool's command `entries`, a program of its own: the entries of an environment block, from a dump of its units.
#![tactic(auto)]

use console::messages::block_unread;
use console::reports::{say_behind, say_bracketed, say_entry};
use console::room;
use dumps::{read_word, units_of};
use entries::{BLOCK_LIMIT, read_envp};
use rules::{Entries, Refusal};
use std::io::Result;
use terminal::words::arg_count;
use units::parts::part_of;
use unread::{no_file, odd_bytes};

mod unread;

// Each entry on a line of its own. The table has the numbers of all.
// The count beside the spans: it numbers the entries, and so ends the table too.
fn say_entries(rt: &impl Print, block: &[u16], spans: &[u32], count: usize) -> Result<()> {
    for (number, span) in (1..=count).zip(spans.chunks_exact(4)) {
        if let [key, key_len, value, value_len] = span {
            let key = part_of(block, *key, *key_len);
            say_entry(rt, number, key, part_of(block, *value, *value_len))?;
        }
    }
    Ok(())
}

// How many entries there are, the units that they take, and what stands behind those.
fn say_used(rt: &impl Print, block: &[u16], entries: Entries) -> Result<()> {
    let count = entries.count;
    let used = entries.units.min(block.len());
    print!(rt; "entries: {count}, units used: {used}")?;
    say_behind(rt, &block[used..])
}

// The block from the entry of this number on, counted from 1; none where the block ends in front of it.
fn from_entry(block: &[u16], number: usize) -> Option<&[u16]> {
    let mut rest = block;
    for _ in 1..number {
        let end = rest.iter().position(|unit| *unit == 0)?;
        rest = &rest[end + 1..];
    }
    if rest.is_empty() { None } else { Some(rest) }
}

// What is wrong with the first bad entry.
fn say_fault(rt: &impl Print, block: &[u16], number: usize) -> Result<()> {
    print!(rt; "entry {number}: ")?;
    let Some(rest) = from_entry(block, number) else {
        return println!(rt; "the dump ends in front of it, and the final NUL is missing");
    };
    match rest.iter().position(|unit| *unit == 0) {
        None => {
            print!(rt; "the dump ends inside it: ")?;
            say_bracketed(rt, rest)
        }
        Some(0) => {
            println!(rt; "it has no units, and no second NUL ends a block without entries")
        }
        Some(size) => {
            print!(rt; "there is no = behind its first unit: ")?;
            say_bracketed(rt, &rest[..size])
        }
    }
}

// The entries of a block, and what stands behind it.
fn list(rt: &impl Print, block: &[u16]) -> Result<()> {
    let mut spans = room::table();
    match read_envp(block, &mut spans) {
        Ok(entries) => {
            say_entries(rt, block, &spans, entries.count)?;
            say_used(rt, block, entries)
        }
        Err(refusal) => {
            block_unread(rt, refusal, BLOCK_LIMIT)?;
            match refusal {
                Refusal::Entry(place) => say_fault(rt, block, place),
                _ => Ok(()),
            }
        }
    }
}

// The entries in a dump, for whose units there is room.
fn list_dump(rt: &impl Print, bytes: &[u8]) -> Result<()> {
    let mut block = room::text();
    let units = units_of(bytes, &mut block).min(block.len());
    list(rt, &block[..units])
}

// The words of the call are `entries` and the dump. No more of it is read than tells that it is longer than any block.
fn main(rt: HostRuntime) -> Result<()> {
    if arg_count(&rt) != 3 {
        return println!(&rt;
            "error: entries takes one word, the file of a dump, or - for standard input"
        );
    }
    let mut bytes = room::word();
    match read_word(&rt, 2, &mut bytes) {
        Ok(count) if count % 2 == 1 => odd_bytes(&rt, count),
        Ok(count) => list_dump(&rt, &bytes[..count]),
        Err(cause) => no_file(&rt, cause),
    }
}
