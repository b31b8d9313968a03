// Isolation of societies, proved of the rules: proofs/. This crate has no code.

#![tactic(auto)]
