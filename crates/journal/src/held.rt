// What the text tells of a ledger: the entries that it holds, and the lowest track that may be fired and that a society may fire.
ghost use Rattle.std.specs.Prelude.{◌≡◌, false, ◌&&◌, ◌<◌, length};
ghost use Rattle.plan.specs.Plans.{plan_in};
ghost use Rattle.rules.specs.Fold.{sum_below};
ghost use Rattle.rules.specs.Journal.{fire_lowest_call};
ghost use Rattle.rules.specs.Call.{fire};
ghost use Rattle.ledger.specs.Ladder.{Room, IsLent, ledger_of};

use lookup::{opens, reading, ready};
use plan::Plan;
use rights::Right;
use rules::{Counts, Terms};

// The entries that all tracks hold.
pub fn held_total(terms: Terms, c: Counts, ledger: &[u16]) -> u32
    requires { Room terms ledger.now c.tracks }
    ensures { result ≡ sum_below c.tracks (λ t. length (ledger_of terms c ledger.now t).held) }
{
    let mut sum: u32 = 0;
    for t in 0..c.tracks {
        let k = reading::track(terms, c, ledger, t);
        sum += k.count as u32;
    }
    sum
}

// The lowest track that may be fired and that the society may fire, or a number that no track has.
pub fn lowest_ready(terms: Terms, plan: &Plan, ledger: &[u16], society: u16) -> u16
    requires { IsLent terms plan.now.records ledger.now }
    ensures { fire (record { track = result; society = society }) ≡ fire_lowest_call (plan_in plan.now.records) (ledger_of terms plan.now.records.counts ledger.now) society }
{
    let opens = opens::open_scopes(terms, plan, ledger);
    let may = rights::permitted(plan, Right::Fire as u16, society);
    let lowest = (0..plan.records.counts.tracks).find(|t| {
        may[*t] && ready::is_ready(terms, plan, ledger, &opens, *t)
    });
    lowest.unwrap_or(plan.records.counts.tracks) as u16
}
