// The words of a line, taken apart by a row of a table: a verb, and then numbers, texts and lists of both, into one text and the numbers beside it.
#![tactic(auto)]

pub mod lines;
pub mod rows;
pub mod shapes;
