// Answers the questions of standard input, one a line, each by one line of standard output, in order.
#![tactic(auto)]

use dialogue::{Judge, Tables, converse};
use questions::ask;
use replies::answers::Answer;
use std::io;

// How many units a question or an answer has at most, and how many numbers a question.
const PLACES: usize = 400000;

// How many spans an answer has at most: four numbers for each entry of the longest block, whose entries have three units at least, with their NUL.
const SPANS: usize = 87376;

// The judge: what it lends to a question, its units and numbers, and to its answer.
#[derive(Drop)]
struct Questions {
    text: [u16; PLACES],
    numbers: [u32; PLACES],
    out: [u16; PLACES],
    spans: [u32; SPANS],
}

impl Judge for Questions {
    fn answer(&mut self, line: &[u8]) -> Answer {
        ask(
            line,
            &mut self.text,
            &mut self.numbers,
            &mut self.out,
            &mut self.spans,
        )
    }

    fn tables(&self) -> Tables<'_> {
        Tables {
            out: &self.out,
            spans: &self.spans,
            numbers: &self.numbers,
        }
    }
}

// What is lent is made once.
fn main(rt: HostRuntime) -> io::Result<()> {
    let mut judge = Questions {
        text: [0; PLACES],
        numbers: [0; PLACES],
        out: [0; PLACES],
        spans: [0; SPANS],
    };
    converse(&rt, &mut rt.stdin(), &mut judge)
}
