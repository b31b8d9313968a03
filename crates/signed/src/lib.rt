// Signed numbers: division rounded down, and 32 bits in two words.
#![tactic(auto)]

pub mod floor;
pub mod words;
