// What the programs on the bench share: how they are called, request lines and scripts taken from standard input, their fields read,
// answers said.
#![tactic(auto)]

pub mod call;
pub mod input;
pub mod line;
pub mod room;
pub mod say;
pub mod text;
