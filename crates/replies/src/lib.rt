// The bytes of answers: a word, numbers, texts, and numbers behind them.
#![tactic(auto)]

pub mod answers;
pub mod places;
pub mod shows;
