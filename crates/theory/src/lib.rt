// Property 3's mathematics, proved over parameters with laws: proofs/. This crate has no code.

#![tactic(auto)]
