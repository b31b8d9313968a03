// The forward step: an event on an accepted plan and a sound ledger.
#![tactic(auto)]

pub mod event;
