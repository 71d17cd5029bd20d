// What a tool says, and the arrays that it works on.
#![tactic(auto)]

pub mod messages;
pub mod reports;
pub mod room;
