// Finish: "every root is either forward in a final state or undoing with nothing held and no open scope, at least one being the former".
ghost use Rattle.std.specs.Prelude.{◌≡◌};
ghost use Rattle.plan.specs.Plans.{plan_in};
ghost use Rattle.rules.specs.Ledger.{written};
ghost use Rattle.rules.specs.Finish.{is_finishing, finished};
ghost use Rattle.ledger.specs.Ladder.{Tidy, IsLent, ledger_of};
ghost use Rattle.finish.specs.UndoingScopes.{UndoingScopes};

use crate::done;
use ledger::track;
use lookup::reading;
use plan::Plan;
use rules::Terms;

// Whether finish is due, given which undoing tracks have an open scope.
pub fn is_finishing(terms: Terms, plan: &Plan, ledger: &[u16], opens: &[bool; 32]) -> bool
    requires { IsLent terms plan.now.records ledger.now
        × UndoingScopes (plan_in plan.now.records) (ledger_of terms plan.now.records.counts ledger.now) plan.now.records.counts.tracks opens.now }
    ensures { result ≡ is_finishing (plan_in plan.now.records) (ledger_of terms plan.now.records.counts ledger.now) }
{
    let mut some_ended = false;
    for t in 0..plan.records.counts.tracks {
        let root = plan.records.is_root(t);
        let k = reading::track(terms, plan.records.counts, ledger, t);
        let ended = done::is_ended(&plan.records, k);
        let bare = done::is_bare(k, opens[t]);
        if root & !(ended | bare) {
            return false;
        }
        some_ended |= root & ended;
    }
    some_ended
}

// Finish, if it is due: every track goes to sleep.
pub fn finish(terms: Terms, plan: &Plan, ledger: &mut [u16], opens: &[bool; 32])
    requires { Tidy terms ledger.old plan.now.records.counts.tracks
        × UndoingScopes (plan_in plan.now.records) (ledger_of terms plan.now.records.counts ledger.old) plan.now.records.counts.tracks opens.now }
    ensures { ledger.new
        ≡ written terms plan.now.records.counts.tracks (finished (plan_in plan.now.records) (ledger_of terms plan.now.records.counts ledger.old)) ledger.old }
{
    if !is_finishing(terms, plan, ledger, opens) {
        return;
    }
    track::put_all_to_sleep(terms, ledger, plan.records.counts.tracks);
}
