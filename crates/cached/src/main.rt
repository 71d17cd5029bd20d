// Answers the calls of standard input, one a line, each by one line of standard output, in order, over one store.
#![tactic(auto)]

ghost use Rattle.std.specs.Prelude.{◌≤◌, length};
ghost use Rattle.services.specs.Call.{units_of};

use cache::WORDS;
use dialogue::{Judge, Tables, converse};
use replies::answers::Answer;
use services::serve;
use std::io;

// How many units a call or the store has at most, and how many numbers a call.
const PLACES: usize = 400000;

// The judge: what it lends to a call, its units and numbers, and its store.
#[derive(Drop)]
struct Calls {
    text: [u16; PLACES],
    numbers: [u32; PLACES],
    // The store, and over how many of its units it was made.
    index: [u64; WORDS],
    units: [u16; PLACES],
    made: Option<usize>,
    // The span of an answer: it has one text at most.
    spans: [u32; 2],
    ghost within: { units_of made ≤ length units },
}

impl Judge for Calls {
    fn answer(&mut self, line: &[u8]) -> Answer {
        serve(
            line,
            &mut self.text,
            &mut self.numbers,
            &mut self.made,
            &mut self.index,
            &mut self.units,
            &mut self.spans,
        )
    }

    fn tables(&self) -> Tables<'_> {
        Tables {
            out: &self.units,
            spans: &self.spans,
            numbers: &self.numbers,
        }
    }
}

// What is lent is made once.
fn main(rt: HostRuntime) -> io::Result<()> {
    let mut judge = Calls {
        text: [0; PLACES],
        numbers: [0; PLACES],
        index: [0; WORDS],
        units: [0; PLACES],
        made: None,
        spans: [0; 2],
    };
    converse(&rt, &mut rt.stdin(), &mut judge)
}
