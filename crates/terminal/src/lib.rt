// What is typed at a terminal: words in UTF-8 into units, numbers, commands and entries.
#![tactic(auto)]

pub mod numbers;
pub mod utf8;
pub mod words;
