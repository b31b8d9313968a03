// A sound ledger: a day in range, tidy words, and over or all clauses.
ghost use Rattle.std.specs.Prelude.{◌≡◌, true, false};
ghost use Rattle.plan.specs.Plans.{plan_in};
ghost use Rattle.rules.specs.Scope.{has_open_scope};
ghost use Rattle.rules.specs.Soundness.{are_tidy, is_live, is_sound};
ghost use Rattle.ledger.specs.Ladder.{IsLent, ledger_of};
ghost use Rattle.lookup.specs.Figures.{Figures};
ghost use Rattle.soundness.specs.Parts.{OpensFound};

use crate::{scopes, tracks};
use calendar::dates::is_day;
use finish::finishing;
use ledger::{leading, tidy};
use lookup::{opens, reading};
use plan::Plan;
use rules::Terms;

// Whether all clauses of a ledger that is not over hold.
fn is_live(terms: Terms, plan: &Plan, ledger: &[u16], opens: &[bool; 32]) -> bool
    requires { IsLent terms plan.now.records ledger.now
        × (are_tidy terms ledger.now plan.now.records.counts.tracks ≡ true)
        × Figures false opens.now plan.now.records.counts.tracks (has_open_scope (plan_in plan.now.records) (ledger_of terms plan.now.records.counts ledger.now)) }
    ensures { result ≡ is_live (plan_in plan.now.records) (ledger_of terms plan.now.records.counts ledger.now) }
{
    let tracks = tracks::are_sound(terms, plan, ledger);
    let finishing = finishing::is_finishing(terms, plan, ledger, opens);
    let scopes = scopes::are_sound(terms, plan, ledger, opens);
    tracks & !finishing & scopes
}

// Whether a ledger that has room is sound. Of one that is and is not over, `opens` then tells which tracks have an open scope.
pub fn is_sound(terms: Terms, plan: &Plan, ledger: &[u16], opens: &mut [bool; 32]) -> bool
    requires { IsLent terms plan.now.records ledger.now }
    ensures { (result ≡ is_sound terms (plan_in plan.now.records) ledger.now)
        × OpensFound terms plan.now.records.bytes.now plan.now.records.counts ledger.now result opens.new }
{
    if !is_day(leading::last_day(ledger)) {
        return false;
    }
    if !tidy::are_tidy(terms, ledger, plan.records.counts.tracks) {
        return false;
    }
    if reading::all_asleep(terms, plan.records.counts, ledger) {
        return true;
    }
    let found = opens::open_scopes(terms, plan, ledger);
    *opens = found;
    is_live(terms, plan, ledger, &found)
}
