// How many entries a plan can ask for: for each track the largest number of entries along any path from its first state, with such a path. It is
// given the plan alone, and takes any bytes.
#![tactic(auto)]

mod explore;
mod outgoing;
mod showing;
pub mod steps;

ghost use Rattle.std.specs.Prelude.{◌≡◌, false};
ghost use Rattle.plan.specs.Plans.{plan_in};
ghost use Rattle.rules.specs.Plan.{first_state};
ghost use Rattle.rules.specs.Answers.{largest_told};
ghost use Rattle.rules.specs.Largest.{has_deviation, Shows};
ghost use Rattle.lookup.specs.Figures.{Figures};
ghost use Rattle.largest.specs.Chosen.{shown_path};

use crate::explore::explore_all;
use crate::outgoing::chain_transitions;
use crate::showing::{refused, show_all};
use plan::fields::NO_STATE;
use plan::{Plan, Records};
use plan_reader::read_with;
use rules::{Largest, Refusal};

// Stands for no transition: a path ends there.
pub const NO_TRANSITION: u16 = 65535;

// The plan has a deviation or a cycle: no number bounds its entries.
const UNBOUNDED: u8 = Refusal::Unbounded as u8;

// Whether a transition has a deviation.
fn some_deviation(records: &Records) -> bool
    ensures { result ≡ has_deviation (plan_in records.now) }
{
    (0..records.counts.transitions).any(|x| records.deviation_of(x) != NO_STATE)
}

// What is shown of an accepted plan without a deviation: 29 where it has a cycle.
fn of_undeviating(plan: &Plan, firsts: &[u16; 32]) -> Largest
    requires { (has_deviation (plan_in plan.now.records) ≡ false)
        × Figures 0 firsts.now plan.now.records.counts.tracks (first_state (plan_in plan.now.records)) }
    ensures { Shows plan.now.records.bytes.now (shown_path plan.now.records.bytes.now) (largest_told result.answer) result.figures result.lengths result.steps }
{
    let outgoing = chain_transitions(plan);
    let mut table = [explore::UNKNOWN; 128];
    if !explore_all(plan, &outgoing, &mut table) {
        return refused(UNBOUNDED);
    }
    show_all(plan, firsts, &table)
}

// The largest number of entries of each track, and a path that has as many, or the refusal 2 to 16, 25, 27 or 29. Which of several equal paths is
// shown is free: `Shows` asks of any that it attains the figure. This one is `shown_path`, the same in every call.
pub fn of_plan(plan: &[u8]) -> Largest
    ensures { Shows plan.now (shown_path plan.now) (largest_told result.answer) result.figures result.lengths result.steps }
{
    let mut firsts: [u16; 32] = [0; 32];
    match read_with(plan, &mut firsts) {
        Err(refusal) => refused(refusal.number()),
        Ok(read) => {
            if some_deviation(&read.records) {
                return refused(UNBOUNDED);
            }
            of_undeviating(&read, &firsts)
        }
    }
}
