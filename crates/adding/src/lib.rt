// One argument of a line: its record and its units judged, and its form added behind the units so far, counted up to a cap.
#![tactic(auto)]

pub mod judging;
pub mod limits;
pub mod styles;
pub mod writing;
