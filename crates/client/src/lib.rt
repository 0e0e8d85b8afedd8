// The client: a record that takes host commands and datagrams, one at a time. A datagram is decided upon, carried out on the target
// bank, and answered.
#![tactic(auto)]

pub mod body;
pub mod host;
pub mod notice;
mod perform;
pub mod record;
pub mod step;
