// The fields of a question's words: taken into one text and a table of numbers beside it, and found there again.
#![tactic(auto)]

pub mod taking;
pub mod values;
