// Finish: whether it is due, which soundness asks, and every track put to sleep, with which event, signal and firing end.
#![tactic(auto)]

pub mod done;
pub mod finishing;
