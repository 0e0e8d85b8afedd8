// What a datagram that comes back to the sender says.
#![tactic(auto)]

pub mod read;
