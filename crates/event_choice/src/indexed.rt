// The moves of an event on any day, chosen on the ledger before the call by one pass over the tracks and the index.
ghost use Rattle.std.specs.Prelude.{◌≡◌, false, ◌<◌};
ghost use Rattle.plan.specs.Plans.{plan_in};
ghost use Rattle.rules.specs.Plan.{optional};
ghost use Rattle.rules.specs.Scope.{has_open_scope};
ghost use Rattle.ledger.specs.Ladder.{IsLent, ledger_of};
ghost use Rattle.lookup.specs.Figures.{Figures, Numbers};
ghost use Rattle.transition_index.specs.Indexed.{Indexed};
ghost use Rattle.event_choice.specs.Next.{any_day_move};

use lookup::reading;
use plan::Plan;
use plan::fields::NO_STATE;
use rules::Terms;
use transition_index::TransitionIndex;

// The transition that a track takes, 65535 for none: its state's, if it is forward and has no open scope.
fn taken_at(
    terms: Terms,
    plan: &Plan,
    ledger: &[u16],
    event: u16,
    opens: &[bool; 32],
    index: &TransitionIndex,
    t: usize,
) -> u16
    requires { IsLent terms plan.now.records ledger.now
        × (t < plan.now.records.counts.tracks)
        × Indexed plan.now.records.bytes.now plan.now.records.counts index.now.chains.last index.now.chains.before
        × Figures false opens.now plan.now.records.counts.tracks (has_open_scope (plan_in plan.now.records) (ledger_of terms plan.now.records.counts ledger.now)) }
    ensures { optional result ≡ any_day_move (plan_in plan.now.records) (ledger_of terms plan.now.records.counts ledger.now) event t }
{
    if opens[t] {
        return NO_STATE;
    }
    let k = reading::track(terms, plan.records.counts, ledger, t);
    if !k.mode.is_forward() {
        return NO_STATE;
    }
    index
        .transition_for(plan, k.state, event)
        .unwrap_or(NO_STATE)
}

// The transition that each track takes for an event on any day, 65535 for none, given which have an open scope.
pub fn taken_from(
    terms: Terms,
    plan: &Plan,
    ledger: &[u16],
    event: u16,
    opens: &[bool; 32],
    index: &TransitionIndex,
) -> [u16; 32]
    requires { IsLent terms plan.now.records ledger.now
        × Indexed plan.now.records.bytes.now plan.now.records.counts index.now.chains.last index.now.chains.before
        × Figures false opens.now plan.now.records.counts.tracks (has_open_scope (plan_in plan.now.records) (ledger_of terms plan.now.records.counts ledger.now)) }
    ensures { Numbers result plan.now.records.counts.tracks (any_day_move (plan_in plan.now.records) (ledger_of terms plan.now.records.counts ledger.now) event) }
{
    let mut taken = [NO_STATE; 32];
    for t in 0..plan.records.counts.tracks {
        taken[t] = taken_at(terms, plan, ledger, event, opens, index, t);
    }
    taken
}
