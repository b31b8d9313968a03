// Whether a lent ledger is sound: the clauses on tracks and their entries in one pass over the tracks, those on scopes in one over the tracks
// and one over the states.
#![tactic(auto)]

pub mod entries;
pub mod scopes;
pub mod sound;
pub mod tracks;
