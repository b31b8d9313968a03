// The program's text in a lent buffer: the journal's records, the lines, the tally.
#![tactic(auto)]

pub mod held;
pub mod lines;
pub mod record;
pub mod tally;
pub mod text;
