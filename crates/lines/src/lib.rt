// The lines of a text.
#![tactic(auto)]

pub mod line;
