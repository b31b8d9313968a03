// Begin: the leading words, "roots forward in their first states and holding nothing, others asleep", and the scopes of the states entered open.
ghost use Rattle.std.specs.Prelude.{◌≡◌, ◌<◌};
ghost use Rattle.plan.specs.Plans.{plan_in};
ghost use Rattle.rules.specs.Plan.{optional, first_state};
ghost use Rattle.rules.specs.Leading.{stamped};
ghost use Rattle.rules.specs.Ledger.{written};
ghost use Rattle.rules.specs.Opening.{roots_first, begun};
ghost use Rattle.ledger.specs.Ladder.{IsLent};
ghost use Rattle.lookup.specs.Figures.{Figures, Numbers};

use crate::entering;
use ledger::{leading, track};
use plan::Plan;
use plan::fields::NO_STATE;
use rules::Terms;

// The state that a track enters of itself: a root its first state, another track none.
fn root_word(plan: &Plan, firsts: &[u16; 32], t: usize) -> u16
    requires { (t < plan.now.records.counts.tracks) × Figures 0 firsts.now plan.now.records.counts.tracks (first_state (plan_in plan.now.records)) }
    ensures { optional result ≡ roots_first (plan_in plan.now.records) t }
{
    if !plan.records.is_root(t) {
        return NO_STATE;
    }
    firsts[t]
}

// That state for each track, 65535 for none.
fn root_words(plan: &Plan, firsts: &[u16; 32]) -> [u16; 32]
    requires { Figures 0 firsts.now plan.now.records.counts.tracks (first_state (plan_in plan.now.records)) }
    ensures { Numbers result plan.now.records.counts.tracks (roots_first (plan_in plan.now.records)) }
{
    let mut to = [NO_STATE; 32];
    for t in 0..plan.records.counts.tracks {
        to[t] = root_word(plan, firsts, t);
    }
    to
}

// Overwrites the ledger, given the first state of each track: the plan's length and sum, every track asleep, then the roots enter their first
// states.
pub fn begin_all(terms: Terms, plan: &Plan, ledger: &mut [u16], firsts: &[u16; 32])
    requires { IsLent terms plan.now.records ledger.old
        × Figures 0 firsts.now plan.now.records.counts.tracks (first_state (plan_in plan.now.records)) }
    ensures { ledger.new
        ≡ written terms plan.now.records.counts.tracks (begun (plan_in plan.now.records)) (stamped plan.now.records.bytes.now ledger.old) }
{
    leading::stamp(plan.records.bytes, ledger);
    track::put_all_to_sleep(terms, ledger, plan.records.counts.tracks);
    let to = root_words(plan, firsts);
    entering::enter_all(terms, plan, ledger, *firsts, to);
}
