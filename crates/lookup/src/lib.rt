// What the steps of accepted calls read: a track, who has an open scope, who may be fired, and which scopes have a marked track.
#![tactic(auto)]

pub mod opens;
pub mod reading;
pub mod ready;
