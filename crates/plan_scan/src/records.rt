// The records of a plan, one after the other: refusals 2 to 7, and how many records there are of each kind.
ghost use Rattle.std.specs.Prelude.{◌≡◌, ◌≤◌, length};
ghost use Rattle.rules.specs.Record.{rank_of, scan};
ghost use Rattle.plan_scan.specs.Scanned.{scan_told, Judged};

use crate::kinds::Kind;
use crate::runs::{ends_after, runs};
use plan::fields::word_at;
use rules::{Counts, Refusal};

// Where the next record starts, the kind of the one before it, and what was counted before it.
#[derive(Clone, Copy)]
pub struct Cursor {
    pub at: usize,
    pub last: u16,
    pub counts: Counts,
}

// Where a kind stands in the order of kinds, by its number; 0 where there is no such kind.
fn rank_of(number: u16) -> usize
    ensures { result ≡ rank_of number }
{
    match Kind::try_from(number) {
        Ok(kind) => kind.rank(),
        Err(_) => 0,
    }
}

// The kind of the record at a cursor, or its first refusal 2 to 7.
#[tactic(auto, unfolding(rules::specs::Record::judge_record, rules::specs::Record::kind_at, rules::specs::Record::size_at, rules::specs::Fold::first_refusal))]
pub fn judge_record(plan: &[u8], k: Cursor) -> Result<Kind, Refusal>
    requires { k.at ≤ length plan.now }
    ensures { Judged plan.now k.at k.last k.counts result }
{
    let left = plan.len() - k.at;
    if left < 4 {
        return Err(Refusal::NoHead);
    }
    let size = usize::from(word_at(plan, k.at));
    let kind = Kind::try_from(word_at(plan, k.at + 2))?;
    if kind.rank() < rank_of(k.last) {
        return Err(Refusal::Kind);
    }
    if size != kind.length() {
        return Err(Refusal::Length);
    }
    if left < size {
        return Err(Refusal::CutShort);
    }
    if kind.most() <= kind.count(k.counts) {
        return Err(Refusal::TooMany);
    }
    if kind == Kind::End && size < left {
        return Err(Refusal::AfterEnd);
    }
    Ok(kind)
}

// The records up to the end record, one after the other.
fn scan_each(plan: &[u8]) -> Result<Counts, Refusal>
    ensures { scan_told result ≡ scan plan.now }
{
    let mut k = Cursor {
        at: 0,
        last: 0,
        counts: Counts {
            tracks: 0,
            states: 0,
            transitions: 0,
            windows: 0,
            grants: 0,
        },
    };
    loop {
        let kind = judge_record(plan, k)?;
        if kind == Kind::End {
            return Ok(k.counts);
        }
        k = Cursor {
            at: k.at + kind.length(),
            last: kind.number(),
            counts: kind.one_more(k.counts),
        };
    }
}

// The records up to the end record. Those of an accepted plan stand in runs of one kind; others are judged one after the other.
pub fn scan_records(plan: &[u8]) -> Result<Counts, Refusal>
    ensures { scan_told result ≡ scan plan.now }
{
    let c = runs(plan);
    if ends_after(plan, c) {
        return Ok(c);
    }
    scan_each(plan)
}
