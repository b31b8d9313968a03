// A run of the program as the reference run of its journal's calls: proofs/. This crate has no code.
#![tactic(auto)]
