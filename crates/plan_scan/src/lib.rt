// The scan of a plan's records: refusals 2 to 7, and how many records there are of each kind. It takes any bytes.
#![tactic(auto)]

pub mod kinds;
pub mod records;
pub mod runs;
