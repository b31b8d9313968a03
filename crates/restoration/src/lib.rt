// Property 3's mathematics, said of document 01's rules: proofs/. This crate has no code.

#![tactic(auto)]
