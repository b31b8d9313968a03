// The tracks that may be fired, as the bits of a number.
ghost use Rattle.std.specs.Prelude.{◌≡◌, false};
ghost use Rattle.plan.specs.Plans.{plan_in};
ghost use Rattle.rules.specs.Scope.{has_open_scope, is_over};
ghost use Rattle.rules.specs.Fire.{ready};
ghost use Rattle.ledger.specs.Ladder.{IsChecked, ledger_of};
ghost use Rattle.lookup.specs.Figures.{Figures};

use lookup::{reading, ready};
use plan::Plan;
use rules::Terms;

// The number with bit n set exactly if track n may be fired; none may where the ledger is over.
pub fn ready_bits(terms: Terms, plan: &Plan, ledger: &[u16], opens: &[bool; 32]) -> u32
    requires { IsChecked terms plan.now.records ledger.now
        × (is_over (plan_in plan.now.records) (ledger_of terms plan.now.records.counts ledger.now) ≡ false
        → Figures false opens.now plan.now.records.counts.tracks (has_open_scope (plan_in plan.now.records) (ledger_of terms plan.now.records.counts ledger.now))) }
    ensures { result ≡ ready (plan_in plan.now.records) (ledger_of terms plan.now.records.counts ledger.now) }
{
    if reading::is_over(terms, plan, ledger) {
        return 0;
    }
    let mut bits: u64 = 0;
    let mut bit: u64 = 1;
    for t in 0..plan.records.counts.tracks {
        if ready::is_ready(terms, plan, ledger, opens, t) {
            bits += bit;
        }
        bit *= 2;
    }
    bits as u32
}
