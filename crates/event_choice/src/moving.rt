// The moves of an event on any day, chosen on the ledger before the call by one pass over the transitions.
ghost use Rattle.std.specs.Prelude.{false, ◌<◌};
ghost use Rattle.plan.specs.Plans.{plan_in};
ghost use Rattle.rules.specs.Scope.{has_open_scope};
ghost use Rattle.ledger.specs.Ladder.{IsGoing, ledger_of};
ghost use Rattle.lookup.specs.Figures.{Figures, Numbers, Only};
ghost use Rattle.event_choice.specs.Next.{is_taken, any_day_move};

use lookup::reading;
use plan::Plan;
use plan::fields::NO_STATE;
use rules::Terms;

// The track that takes a transition for the event, 65535 for none: its own, if it is forward in the source and has no open scope.
fn taker(terms: Terms, plan: &Plan, ledger: &[u16], event: u16, opens: &[bool; 32], x: usize) -> u16
    requires { IsGoing terms plan.now.records ledger.now
        × (x < plan.now.records.counts.transitions)
        × Figures false opens.now plan.now.records.counts.tracks (has_open_scope (plan_in plan.now.records) (ledger_of terms plan.now.records.counts ledger.now)) }
    ensures { Only plan.now.records.counts.tracks (is_taken (plan_in plan.now.records) (ledger_of terms plan.now.records.counts ledger.now) event x) result }
{
    if plan.records.event_of(x) != event {
        return NO_STATE;
    }
    let s = plan.records.source_of(x);
    let u = plan.records.track_of(s as usize);
    let t = u as usize;
    if opens[t] {
        return NO_STATE;
    }
    let k = reading::track(terms, plan.records.counts, ledger, t);
    if s != k.state {
        return NO_STATE;
    }
    if !k.mode.is_forward() {
        return NO_STATE;
    }
    u
}

// The transition that each track takes for an event on any day, 65535 for none, given which have an open scope.
pub fn taken_by(
    terms: Terms,
    plan: &Plan,
    ledger: &[u16],
    event: u16,
    opens: &[bool; 32],
) -> [u16; 32]
    requires { IsGoing terms plan.now.records ledger.now
        × Figures false opens.now plan.now.records.counts.tracks (has_open_scope (plan_in plan.now.records) (ledger_of terms plan.now.records.counts ledger.now)) }
    ensures { Numbers result plan.now.records.counts.tracks (any_day_move (plan_in plan.now.records) (ledger_of terms plan.now.records.counts ledger.now) event) }
{
    let mut taken = [NO_STATE; 32];
    for x in 0..plan.records.counts.transitions {
        let t = taker(terms, plan, ledger, event, opens, x);
        if t != NO_STATE {
            taken[t as usize] = x as u16;
        }
    }
    taken
}
