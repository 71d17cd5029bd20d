// What a person is told of a refusal: its number, its name, its place, and what to do. What to do hangs on what was asked for, so each call says it in its
// own words; it says nothing of a refusal that it never gives. A limit is told by the call: no number of one stands here.
use rules::Refusal;
use std::io::Result;
use units::refusals::{number_of, place_of};

// What a refusal is called.
// A function and no `Display`: the refusal is declared in `rules`, which has no code of its own.
fn name_of(refusal: Refusal) -> &'static str {
    match refusal {
        Refusal::Record(_) => "record",
        Refusal::Length => "length",
        Refusal::Places => "places",
        Refusal::Room => "room",
        Refusal::Nul(_) => "NUL",
        Refusal::LineBreak(_) => "line break",
        Refusal::Script => "script",
        Refusal::Entry(_) => "entry",
    }
}

// A refusal and what to do, and the limit where a length is past one, each on a line of its own.
fn say_refusal(
    rt: &impl Print,
    refusal: Refusal,
    advice: &str,
    limit: Option<usize>,
) -> Result<()> {
    let number = number_of(refusal);
    let name = name_of(refusal);
    let place = place_of(refusal);
    println!(rt; "refused {number}, {name}, place {place}")?;
    println!(rt; "{advice}")?;
    match limit {
        Some(limit) if refusal == Refusal::Length => println!(rt; "The limit is {limit} units."),
        _ => Ok(()),
    }
}

// A line was not built, ordinary or batch. Place 0 is the program or the script, any other the argument.
pub fn line_refused(rt: &impl Print, refusal: Refusal, limit: usize) -> Result<()> {
    let advice = match refusal {
        Refusal::Record(_) => {
            "Give the argument's record a kind that there is and a part that lies in the text."
        }
        Refusal::Length => {
            "Shorten the program or its arguments, or hand a text over in a file."
        }
        Refusal::Room => "Lend room for the whole line.",
        Refusal::Nul(_) => "Take the NUL out: whoever reads the line would stop there.",
        Refusal::LineBreak(_) => {
            "Take CR and LF out of the argument, or hand its text over in a file: a batch line ends at a line break."
        }
        Refusal::Script => {
            "Name the script without a quote in it and without a backslash at its end."
        }
        Refusal::Places | Refusal::Entry(_) => "",
    };
    say_refusal(rt, refusal, advice, Some(limit))
}

// A line was not read.
pub fn line_unread(rt: &impl Print, refusal: Refusal, limit: usize) -> Result<()> {
    let advice = match refusal {
        Refusal::Length => "Shorten the line.",
        Refusal::Places => "Lend a table with a place for each argument.",
        Refusal::Room => "Lend room for the texts of all arguments.",
        _ => "",
    };
    say_refusal(rt, refusal, advice, Some(limit))
}

// A block was not written. The place is the entry.
pub fn block_refused(rt: &impl Print, refusal: Refusal, limit: usize) -> Result<()> {
    let advice = match refusal {
        Refusal::Record(_) => "Give the entry's record a key and a value that lie in the text.",
        Refusal::Length => "Shorten the entries or leave some out.",
        Refusal::Room => "Lend room for the whole block.",
        Refusal::Nul(_) => "Take the NUL out: the entry would end there.",
        _ => "",
    };
    say_refusal(rt, refusal, advice, Some(limit))
}

// A block was not read. The place is the first bad entry.
pub fn block_unread(rt: &impl Print, refusal: Refusal, limit: usize) -> Result<()> {
    let advice = match refusal {
        Refusal::Length => {
            "Hand over the front of the dump alone, as head -c does, two bytes a unit."
        }
        Refusal::Places => "Lend a table with two places for each entry.",
        Refusal::Entry(_) => {
            "Dump the whole block, from its first unit to its final NUL: each entry has a = behind its first unit and ends at NUL."
        }
        _ => "",
    };
    say_refusal(rt, refusal, advice, Some(limit))
}

// The text of a status was not written.
pub fn status_refused(rt: &impl Print, refusal: Refusal) -> Result<()> {
    let advice = match refusal {
        Refusal::Room => "Lend room for the whole text.",
        _ => "",
    };
    say_refusal(rt, refusal, advice, None)
}
