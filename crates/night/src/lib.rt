// The night sender: an event comes, and the next request goes out. docs/NIGHT.md has the exchange.
#![tactic(auto)]

pub mod call;
mod judge;
mod lent;
mod make;
pub mod name;
pub mod record;
