// The tracks that have an open scope, by one pass over the tracks.
ghost use Rattle.std.specs.Prelude.{false, ◌&&◌, ◌<◌};
ghost use Rattle.plan.specs.Plans.{plan_in};
ghost use Rattle.rules.specs.Plan.{is_hosted_by};
ghost use Rattle.rules.specs.Ledger.{is_awake};
ghost use Rattle.rules.specs.Scope.{has_open_scope};
ghost use Rattle.ledger.specs.Ladder.{IsLent, ledger_of};
ghost use Rattle.lookup.specs.Figures.{Figures, OnlyOne};

use crate::reading;
use plan::Plan;
use plan::fields::NO_STATE;
use rules::Terms;

// The track in whose open scope a track is: its host's, if it is awake.
fn inside(terms: Terms, plan: &Plan, ledger: &[u16], t: usize) -> Option<usize>
    requires { IsLent terms plan.now.records ledger.now × (t < plan.now.records.counts.tracks) }
    ensures { OnlyOne plan.now.records.counts.tracks
        (λ u. is_hosted_by (plan_in plan.now.records) u t && is_awake (ledger_of terms plan.now.records.counts ledger.now t).mode) result }
{
    if !reading::is_awake(terms, plan.records.counts, ledger, t) {
        return None;
    }
    let u = reading::host_track(plan, t);
    if u == NO_STATE {
        None
    } else {
        Some(usize::from(u))
    }
}

// The tracks that have an open scope.
pub fn open_scopes(terms: Terms, plan: &Plan, ledger: &[u16]) -> [bool; 32]
    requires { IsLent terms plan.now.records ledger.now }
    ensures { Figures false result plan.now.records.counts.tracks (has_open_scope (plan_in plan.now.records) (ledger_of terms plan.now.records.counts ledger.now)) }
{
    let mut opens = [false; 32];
    for t in 0..plan.records.counts.tracks {
        if let Some(u) = inside(terms, plan, ledger, t) {
            opens[u] = true;
        }
    }
    opens
}
