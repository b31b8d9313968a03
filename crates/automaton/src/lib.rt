// The report's compensating automaton, and document 01's calls as its steps: specs/, proofs/. This crate has no code.
#![tactic(auto)]
