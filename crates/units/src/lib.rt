// Units: their classes, the kinds of argument records, parts of a lent text, what results count, and a refusal's number and place.
#![tactic(auto)]

pub mod classes;
pub mod counts;
pub mod kinds;
pub mod parts;
pub mod refusals;
