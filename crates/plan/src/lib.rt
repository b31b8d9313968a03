// A plan's records, an accepted plan, the fields of records by number, chains by key, and the passes over records that several layers make.
#![tactic(auto)]

pub mod chains;
pub mod fields;
pub mod grants;
pub mod passes;
pub mod windows;

ghost use Rattle.plan.specs.Holds.{Holds};
ghost use Rattle.plan.specs.Accepts.{Accepts};

use rules::Counts;

// A plan's bytes, and how many records of each kind they are.
#[derive(Clone, Copy)]
pub struct Records<'a> {
    pub bytes: &'a [u8],
    pub counts: Counts,
    pub ghost holds: { Holds bytes.now counts },
}

// An accepted plan.
#[derive(Clone, Copy)]
pub struct Plan<'a> {
    pub records: Records<'a>,
    pub ghost accepted: { Accepts records.bytes.now records.counts },
}
