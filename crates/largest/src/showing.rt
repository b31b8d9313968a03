// What the call shows: of each track its figure, the length of its path, and the paths end to end.
ghost use Rattle.std.specs.Prelude.{◌≡◌, List, [], ◌++◌, false, true, ℕ, ◌+◌, ◌≤◌, ◌<◌, length, replicate};
ghost use Rattle.plan.specs.Plans.{plan_in};
ghost use Rattle.rules.specs.Plan.{first_state};
ghost use Rattle.rules.specs.Answers.{largest_told};
ghost use Rattle.rules.specs.Call.{refusal};
ghost use Rattle.rules.specs.Largest.{has_deviation, padded, Shows};
ghost use Rattle.lookup.specs.Figures.{Figures};
ghost use Rattle.largest.specs.Chosen.{chosen, shown_path};
ghost use Rattle.largest.specs.Table.{most_words, step_words, Stepped, Whole};

use crate::NO_TRANSITION;
use crate::explore::Onward;
use plan::Plan;
use rules::{Largest, LargestAnswer};

// Nothing beside a refusal.
pub fn refused(n: u8) -> Largest
    ensures { (largest_told result.answer ≡ refusal n) × (result.figures ≡ replicate 32 0) × (result.lengths ≡ replicate 32 0)
        × (result.steps ≡ padded []) }
{
    Largest {
        answer: LargestAnswer::Refused(n),
        figures: [0; 32],
        lengths: [0; 32],
        steps: [NO_TRANSITION; 256],
    }
}

// Puts the path shown from a state behind the steps before it, and tells how many there are then.
fn put_path(
    plan: &Plan,
    table: &[Onward; 128],
    from: usize,
    steps: &mut [u16; 256],
    at: usize,
) -> usize
    requires { Stepped (plan_in plan.now.records) (step_words table.now)
        × (from < plan.now.records.counts.states)
        × (at + length (chosen (plan_in plan.now.records) from) ≤ 256) }
    ensures { (result ≡ at + length (chosen (plan_in plan.now.records) from))
        × ((xs : List ℕ) → steps.old ≡ padded xs → at ≡ length xs
        → steps.new ≡ padded (xs ++ chosen (plan_in plan.now.records) from)) }
{
    let mut s = from;
    let mut end = at;
    while table[s].step != NO_TRANSITION {
        let x = table[s].step;
        steps[end] = x;
        end += 1;
        s = plan.records.destination_of(x as usize) as usize;
    }
    end
}

// The figure and the path of each track, where there is neither a deviation nor a cycle.
pub fn show_all(plan: &Plan, firsts: &[u16; 32], table: &[Onward; 128]) -> Largest
    requires { (has_deviation (plan_in plan.now.records) ≡ false)
        × Figures 0 firsts.now plan.now.records.counts.tracks (first_state (plan_in plan.now.records))
        × Whole (plan_in plan.now.records) (most_words table.now) (step_words table.now) true }
    ensures { Shows plan.now.records.bytes.now (shown_path plan.now.records.bytes.now) (largest_told result.answer) result.figures result.lengths result.steps }
{
    let mut figures: [u16; 32] = [0; 32];
    let mut lengths: [u16; 32] = [0; 32];
    let mut steps: [u16; 256] = [NO_TRANSITION; 256];
    let mut at: usize = 0;
    for t in 0..plan.records.counts.tracks {
        let s = firsts[t] as usize;
        figures[t] = table[s].most;
        let end = put_path(plan, table, s, &mut steps, at);
        lengths[t] = (end - at) as u16;
        at = end;
    }
    Largest {
        answer: LargestAnswer::Shown,
        figures,
        lengths,
        steps,
    }
}
