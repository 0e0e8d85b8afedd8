// What C calls, a module for each crate below, which export nothing themselves. It has its names in C from the crate `exports_c`.
#![tactic(auto)]

pub mod check;
pub mod checksum;
pub mod cleaned;
pub mod crc32;
pub mod heard;
pub mod packet;
pub mod slots;
pub mod text;
pub mod written;
