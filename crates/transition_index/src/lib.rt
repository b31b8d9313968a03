// The transition that a state has for an event, found without a pass over all of them: transitions are chained by a cell that source and event
// give.
#![tactic(auto)]

ghost use Rattle.std.specs.Prelude.{◌≡◌, ◌<◌};
ghost use Rattle.plan.specs.Plans.{plan_in};
ghost use Rattle.rules.specs.Plan.{transition_for};
ghost use Rattle.transition_index.specs.Indexed.{cell_of, is_for, optioned, Indexed};

use plan::chains::KeyChains;
use plan::{Plan, Records};

// The transitions, chained by their cell.
#[derive(Clone, Copy)]
pub struct TransitionIndex {
    pub chains: KeyChains<256, 256>,
}

fn cell_of(source: u16, event: u16) -> usize
    ensures { (result ≡ cell_of source event) × (result < 256) }
{
    (2 * usize::from(source) + usize::from(event)) % 256
}

// Made once for a plan.
pub fn index(records: &Records) -> TransitionIndex
    ensures { Indexed records.now.bytes.now records.now.counts result.chains.last result.chains.before }
{
    let mut chains = KeyChains::new();
    for x in 0..records.counts.transitions {
        let cell = cell_of(records.source_of(x), records.event_of(x));
        chains.add(cell, x);
    }
    TransitionIndex { chains }
}

// Whether a transition leaves a state for an event.
fn is_for(records: &Records, s: u16, event: u16, x: usize) -> bool
    requires { x < records.now.counts.transitions }
    ensures { result ≡ is_for (plan_in records.now) s event x }
{
    if records.source_of(x) != s {
        return false;
    }
    records.event_of(x) == event
}

impl TransitionIndex {
    // The transition that a state has for an event.
    pub fn transition_for(&self, plan: &Plan, s: u16, event: u16) -> Option<u16>
        requires { Indexed plan.now.records.bytes.now plan.now.records.counts self.now.chains.last self.now.chains.before }
        ensures { optioned result ≡ transition_for (plan_in plan.now.records) s event }
    {
        let mut next = self.chains.last(cell_of(s, event));
        while let Some(x) = next {
            if is_for(&plan.records, s, event, x) {
                return Some(x as u16);
            }
            next = self.chains.before(x);
        }
        None
    }
}
