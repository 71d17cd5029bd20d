// Arguments as they are read from a line, and whether they are those that were given.
use comparing::same_units;
use console::messages::line_unread;
use console::reports::say_argument;
use console::room;
use reading::{READ_LIMIT, argument, parse_lp_cmd_line};
use rules::Arguments;
use scans::has_quote;
use std::io::Result;

// What was given: a program, and the records of its arguments in a text.
// Not the `Lent` of the cache: nothing is stored here.
#[derive(Clone, Copy)]
pub struct Given<'a> {
    pub program: &'a [u16],
    pub records: &'a [u32],
    pub text: &'a [u16],
}

impl<'a> Given<'a> {
    // How many arguments there are, the program among them.
    fn count(&self) -> usize {
        self.records.len() / 3 + 1
    }

    // The argument of an index: argument 0 is the program, each other the part of the text that its record names behind its kind.
    // By the place of its record, and not by whole records: what is left of one that is cut names no part, which is the empty argument.
    fn argument(&self, index: usize) -> Option<&'a [u16]> {
        if index == 0 {
            return Some(self.program);
        }
        let at = index.checked_mul(3)? - 2;
        let span = self.records.get(at..)?;
        Some(argument(self.text, span, 0))
    }
}

// What is read: so many arguments, their texts and their spans.
// The count beside the spans: their table is longer than what was read.
#[derive(Clone, Copy)]
struct Back<'a> {
    text: &'a [u16],
    spans: &'a [u32],
    count: usize,
}

impl<'a> Back<'a> {
    // The argument of an index.
    fn argument(&self, index: usize) -> &'a [u16] {
        argument(self.text, self.spans, index)
    }

    // Whether the argument of an index is the one given.
    fn is_given(&self, given: &Given, index: usize) -> bool {
        match given.argument(index) {
            Some(units) => same_units(self.argument(index), units),
            None => false,
        }
    }
}

// Each argument on a line of its own.
fn say_arguments(rt: &impl Print, back: &Back) -> Result<()> {
    for index in 0..back.count {
        say_argument(rt, index, back.argument(index))?;
    }
    Ok(())
}

// Whether the arguments read are those given.
fn say_verdict(rt: &impl Print, back: &Back, given: &Given) -> Result<()> {
    match (0..back.count).find(|index| !back.is_given(given, *index)) {
        Some(other) => println!(rt; "argument {other} is not the one given"),
        None if back.count == given.count() => println!(rt; "each is the one given"),
        None => println!(rt; "there are not as many as were given"),
    }
}

// The arguments read, and whether they are those given.
fn compare(rt: &impl Print, back: &Back, given: &Given) -> Result<()> {
    say_arguments(rt, back)?;
    say_verdict(rt, back, given)?;
    if has_quote(given.program) {
        println!(rt;
            "a quote in the program is written as it is, and whoever reads the line drops it"
        )?;
    }
    Ok(())
}

// Reads a line, where an empty one is read as the name, and says what there is to say of its arguments, or why it was not read.
fn say_back<F: FnOnce(&Back) -> Result<()>>(
    rt: &impl Print,
    line: &[u16],
    name: &[u16],
    say: F,
) -> Result<()>
    requires { F.IsAlwaysCallable say }
{
    let mut text = room::back();
    let mut spans = room::spans();
    match parse_lp_cmd_line(line, name, &mut text, &mut spans) {
        Ok(Arguments { count, units: _ }) => say(&Back {
            text: &text,
            spans: &spans,
            count,
        }),
        Err(refusal) => line_unread(rt, refusal, READ_LIMIT),
    }
}

// The arguments of a line, where an empty line is read as the name given.
pub fn say_read(rt: &impl Print, line: &[u16], name: &[u16]) -> Result<()> {
    say_back(rt, line, name, |back| say_arguments(rt, back))
}

// What is read from a line that was written, and whether it is what was given.
pub fn read_back(rt: &impl Print, line: &[u16], given: &Given) -> Result<()> {
    say_back(rt, line, given.program, |back| compare(rt, back, given))
}
