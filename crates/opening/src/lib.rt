// Entering states and opening scopes: one pass for begin and for a deviation, and who wakes, for every call.
#![tactic(auto)]

pub mod begin;
pub mod entering;
pub mod firsts;
pub mod waking;
pub mod writing;
