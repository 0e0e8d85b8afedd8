// The sender: its requests, and its sector packets by number.
#![tactic(auto)]

pub mod made;
pub mod packet;
pub mod request;
mod sectors;
