// The key of a prepared line in the memory of a store: matched with what is lent, measured, laid down, and the words that go with it.
#![tactic(auto)]

pub mod index;
pub mod laying;
pub mod lent;
pub mod matching;
