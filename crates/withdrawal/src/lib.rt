// The backward steps: a signal and a firing on an accepted plan and a sound ledger, with abandoning.
#![tactic(auto)]

pub mod abandoning;
pub mod fire;
pub mod signal;
