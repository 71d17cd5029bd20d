// Examples at the limits, in specs/: this crate has no code. They stand apart because computing with so many units takes longer than all other examples.
#![tactic(auto)]
