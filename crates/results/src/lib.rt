// Results, said: what was written, and what is read from a line.
#![tactic(auto)]

pub mod back;
pub mod written;
