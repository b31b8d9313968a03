// The scopes that an event closes, known before the call from the states that their tracks will be in.
ghost use Rattle.std.specs.Prelude.{◌≡◌, false, not, ◌&&◌, ◌<◌};
ghost use Rattle.plan.specs.Plans.{plan_in};
ghost use Rattle.rules.specs.Plan.{no_state, optional, is_hosted_by};
ghost use Rattle.rules.specs.Ledger.{is_awake};
ghost use Rattle.rules.specs.Scope.{has_open_scope};
ghost use Rattle.ledger.specs.Ladder.{IsGoing, ledger_of};
ghost use Rattle.lookup.specs.Figures.{Figures, Only};
ghost use Rattle.event_choice.specs.Next.{InRange, moves_of, ends_by, ends_next, closes_next};

use lookup::reading;
use plan::Plan;
use plan::fields::NO_STATE;
use rules::{Terms, Track};

// Whether a track that takes a transition, 65535 for none, will be forward in a final state.
fn ends(plan: &Plan, k: Track, x: u16) -> bool
    requires { (k.state < plan.now.records.counts.states) × ((x ≡ no_state → ⊥) → x < plan.now.records.counts.transitions) }
    ensures { result ≡ ends_by (plan_in plan.now.records) k.mode k.state (optional x) }
{
    if !k.mode.is_forward() {
        return false;
    }
    if x == NO_STATE {
        return plan.records.is_final(k.state as usize);
    }
    let d = plan.records.destination_of(x as usize);
    plan.records.is_final(d as usize)
}

// The track whose scope a track keeps open, 65535 for none: its host's, if it is awake and will not be forward in a final state.
fn kept_open(terms: Terms, plan: &Plan, ledger: &[u16], taken: &[u16; 32], t: usize) -> u16
    requires { IsGoing terms plan.now.records ledger.now × InRange plan.now.records.counts taken.now × (t < plan.now.records.counts.tracks) }
    ensures { Only plan.now.records.counts.tracks
        (λ u. is_hosted_by (plan_in plan.now.records) u t && (is_awake (ledger_of terms plan.now.records.counts ledger.now t).mode
        && not (ends_next (plan_in plan.now.records) (ledger_of terms plan.now.records.counts ledger.now) (moves_of taken.now plan.now.records.counts.tracks) t))) result }
{
    let k = reading::track(terms, plan.records.counts, ledger, t);
    if !k.mode.is_awake() {
        return NO_STATE;
    }
    if ends(plan, k, taken[t]) {
        return NO_STATE;
    }
    reading::host_track(plan, t)
}

// The tracks whose open scope closes, given which have one and what each takes.
pub fn closing_scopes(
    terms: Terms,
    plan: &Plan,
    ledger: &[u16],
    opens: [bool; 32],
    taken: &[u16; 32],
) -> [bool; 32]
    requires { IsGoing terms plan.now.records ledger.now
        × InRange plan.now.records.counts taken.now
        × Figures false opens plan.now.records.counts.tracks (has_open_scope (plan_in plan.now.records) (ledger_of terms plan.now.records.counts ledger.now)) }
    ensures { Figures false result plan.now.records.counts.tracks
        (closes_next (plan_in plan.now.records) (ledger_of terms plan.now.records.counts ledger.now) (moves_of taken.now plan.now.records.counts.tracks)) }
{
    let mut closing = opens;
    for t in 0..plan.records.counts.tracks {
        let u = kept_open(terms, plan, ledger, taken, t);
        if u != NO_STATE {
            closing[u as usize] = false;
        }
    }
    closing
}
