// Intel hex text, read into the image of a bank.
#![tactic(auto)]

pub mod fault;
mod pair;
mod place;
pub mod read;
pub mod record;
