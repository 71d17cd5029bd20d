// The one form of a text and of a number in a line of bytes, read.
#![tactic(auto)]

pub mod numbers;
pub mod steps;
pub mod texts;
