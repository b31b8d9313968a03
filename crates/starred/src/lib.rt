// The runs that the paper marks with a star, proved from the rules: proofs/Starred.antt. This crate has no code.

#![tactic(auto)]
