// Flash: the places where a bank's bytes change. Each function is total: what does not fit changes nothing.
#![tactic(auto)]

pub mod bank;
pub mod sector;
