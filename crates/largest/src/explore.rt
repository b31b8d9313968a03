// The most entries from each state on, by a walk that goes down every transition once: a state is entered, each of its transitions is followed,
// and then it is known what lies behind the best of them. A state that is come to while it is still entered is on a cycle.
ghost use Rattle.std.specs.Prelude.{◌≡◌, true, ◌+◌, ◌<◌, ◌≤◌, suc, replicate, MatchOption};
ghost use Rattle.plan.specs.Plans.{plan_in};
ghost use Rattle.rules.specs.Largest.{of_transition, of_state, leaves, goes_on};
ghost use Rattle.plan.specs.Passes.{Chains};
ghost use Rattle.largest.specs.Table.{most_words, step_words, Exploring, Explored, Entering, Found, Whole, better_of};

use crate::NO_TRANSITION;
use plan::chains::KeyChains;
use plan::{Plan, Records};

// What is known of a state: the most entries from it on, and the transition that the path shown takes there.
#[derive(Clone, Copy)]
pub struct Onward {
    pub most: u16,
    pub step: u16,
}

// Of a state that was not come to yet, and the most of one that is entered.
pub const UNKNOWN: Onward = Onward {
    most: 65535,
    step: NO_TRANSITION,
};

const ENTERED: u16 = 65534;

// The best transition so far of those that leave a state: how many entries lie behind it, and which it is.
#[derive(Clone, Copy)]
pub struct Best {
    pub entries: u16,
    pub step: u16,
}

// The better of two, of equal ones the second. One behind which nothing lies is never taken.
fn better(b: Best, x: usize, entries: u16) -> Best
    requires { x < 256 }
    ensures { result ≡ better_of b x entries }
{
    if entries == 0 {
        return b;
    }
    if entries < b.entries {
        return b;
    }
    Best {
        entries,
        step: x as u16,
    }
}

// What a state adds to the entries along a path.
fn of_state(plan: &Plan, s: usize) -> u16
    requires { s < plan.now.records.counts.states }
    ensures { (result ≡ of_state (plan_in plan.now.records) s) × (result ≤ 1) }
{
    u16::from(plan.records.replacement_of(s) != 0)
}

// What a transition adds.
fn of_transition(records: &Records, x: usize) -> u16
    requires { x < records.now.counts.transitions }
    ensures { (result ≡ of_transition (plan_in records.now) x) × (result ≤ 1) }
{
    u16::from(records.code_of(x) != 0)
}

// The best of the transitions that leave a state which is entered, or none where one leads round.
#[cycle(best_of_explore)]
fn best_of(
    plan: &Plan,
    outgoing: &KeyChains<128, 256>,
    s: usize,
    left: usize,
    table: &mut [Onward; 128],
) -> Option<Best>
    requires { Exploring plan.now.records.bytes.now plan.now.records.counts outgoing.now.last outgoing.now.before s (most_words table.old) (step_words table.old) }
    ensures { MatchOption result (goes_on (plan_in plan.now.records) (suc left) s ≡ true) (Found (plan_in plan.now.records) s (most_words table.old) (most_words table.new) (step_words table.new)) }
{
    let mut best = Best {
        entries: 0,
        step: NO_TRANSITION,
    };
    let mut next = outgoing.last(s);
    while let Some(x) = next {
        let d = plan.records.destination_of(x) as usize;
        if !explore(plan, outgoing, d, left, table) {
            return None;
        }
        best = better(best, x, of_transition(&plan.records, x) + table[d].most);
        next = outgoing.before(x);
    }
    Some(best)
}

// Whether every path from a state ends: then what lies behind it is known. `left` falls along a path: one that uses it up has as many transitions as
// there are states, and goes round.
#[cycle(best_of_explore)]
fn explore(
    plan: &Plan,
    outgoing: &KeyChains<128, 256>,
    s: usize,
    left: usize,
    table: &mut [Onward; 128],
) -> bool
    requires { Entering plan.now.records.bytes.now plan.now.records.counts outgoing.now.last outgoing.now.before s (most_words table.old) (step_words table.old) }
    ensures { Explored (plan_in plan.now.records) s left (most_words table.old) (most_words table.new) (step_words table.new) result }
{
    let known = table[s].most;
    if known < ENTERED {
        return true;
    }
    if known == ENTERED {
        return false;
    }
    if left == 0 {
        return false;
    }
    table[s].most = ENTERED;
    let Some(best) = best_of(plan, outgoing, s, left - 1, table) else {
        return false;
    };
    table[s] = Onward {
        most: of_state(plan, s) + best.entries,
        step: best.step,
    };
    true
}

// Whether the plan has no cycle: then the most entries from each state on are known, and the transition that the path shown takes there.
pub fn explore_all(plan: &Plan, outgoing: &KeyChains<128, 256>, table: &mut [Onward; 128]) -> bool
    requires { Chains (leaves (plan_in plan.now.records)) 128 plan.now.records.counts.transitions outgoing.now.last outgoing.now.before
        × (most_words table.old ≡ replicate 128 65535)
        × (step_words table.old ≡ replicate 128 65535) }
    ensures { Whole (plan_in plan.now.records) (most_words table.new) (step_words table.new) result }
{
    for s in 0..plan.records.counts.states {
        if !explore(plan, outgoing, s, plan.records.counts.states, table) {
            return false;
        }
    }
    true
}
