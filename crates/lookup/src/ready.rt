// Whether a track may be fired, given which tracks have an open scope.
ghost use Rattle.std.specs.Prelude.{◌≡◌, false, ◌<◌};
ghost use Rattle.plan.specs.Plans.{plan_in};
ghost use Rattle.rules.specs.Scope.{has_open_scope};
ghost use Rattle.rules.specs.Fire.{may_fire};
ghost use Rattle.ledger.specs.Ladder.{IsLent, ledger_of};
ghost use Rattle.lookup.specs.Figures.{Figures};

use crate::reading;
use plan::Plan;
use rules::Terms;

// "it must be undoing, hold an entry and have no open scope", under the plan that says whose scopes are open
pub fn is_ready(terms: Terms, plan: &Plan, ledger: &[u16], opens: &[bool; 32], t: usize) -> bool
    requires { IsLent terms plan.now.records ledger.now
        × (t < plan.now.records.counts.tracks)
        × Figures false opens.now plan.now.records.counts.tracks (has_open_scope (plan_in plan.now.records) (ledger_of terms plan.now.records.counts ledger.now)) }
    ensures { result ≡ may_fire (plan_in plan.now.records) (ledger_of terms plan.now.records.counts ledger.now) t }
{
    let k = reading::track(terms, plan.records.counts, ledger, t);
    if !k.mode.is_undoing() {
        return false;
    }
    if k.count == 0 {
        return false;
    }
    !opens[t]
}
