// A line taken apart by its row of a table.
ghost use Rattle.std.specs.Prelude.{◌≤◌, ltb, length};
ghost use Rattle.rules.specs.Choice.{pick};
ghost use Rattle.words.specs.Word.{words_at};
ghost use Rattle.words.specs.Line.{Ends, Roomy, Took, Lined, none, words_by, line_on, longest_in};

use crate::rows::{letters_of, row_of};
use crate::shapes::{shape_at, take_word};
use fields::taking::Held;
use octets::find;

// The most bytes of a line.
const LONGEST: usize = 400000;

// A line that was taken: the index of its row, and what its words hold.
#[derive(Clone, Copy, Debug, PartialEq, Eq)]
pub struct Line {
    pub row: usize,
    pub held: Held,
}

// Where the word that starts at an index ends.
pub fn word_end(line: &[u8], at: usize) -> usize
    requires { at ≤ length line.now }
    ensures { Ends line.now at result }
{
    at + find(&line[at..], b' ')
}

// All words from an index on, by their letters.
#[tactic(auto, using(crate::proofs::Lining::all_gone))]
fn take_words(
    line: &[u8],
    start: usize,
    letters: &[u8],
    text: &mut [u16],
    numbers: &mut [u32],
) -> Option<Held>
    requires { Roomy (length line.now) start (length text.old) (length numbers.old) }
    ensures { Took (words_by letters.now 0 none (words_at line.now start)) result text.new numbers.new }
{
    let mut at = start;
    let mut i = 0;
    let mut held = Held { units: 0, count: 0 };
    // A `while`: the next word starts where a call says that this one ends.
    while at <= line.len() {
        let end = word_end(line, at);
        let shape = shape_at(letters, i)?;
        held = take_word(Some(shape), &line[at..end], text, numbers, held)?;
        at = end + 1;
        i += 1;
    }
    if i + 1 < letters.len() {
        None
    } else {
        Some(held)
    }
}

// A whole line. One that is longer than what is lent, or than any line may be, is none.
#[tactic(auto, using(crate::proofs::Lining::no_row, crate::proofs::Lining::ill_line, crate::proofs::Lining::line_by))]
pub fn take_line(
    rows: &[[u8; 20]],
    line: &[u8],
    text: &mut [u16],
    numbers: &mut [u32],
) -> Option<Line>
    ensures { Lined (pick (ltb (longest_in (length text.old) (length numbers.old)) (length line.now)) None (line_on rows.now line.now)) result text.new numbers.new }
{
    let longest = LONGEST.min(text.len().min(numbers.len()));
    if longest < line.len() {
        return None;
    }
    let end = word_end(line, 0);
    let row = row_of(rows, &line[..end])?;
    let held = take_words(line, end + 1, letters_of(&rows[row]), text, numbers)?;
    Some(Line { row, held })
}
