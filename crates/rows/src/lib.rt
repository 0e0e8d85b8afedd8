// Hex text from the image of a bank, row by row.
#![tactic(auto)]

mod record;
pub mod text;
