// The entries that a track holds: their codes and their deviations.
ghost use Rattle.std.specs.Prelude.{◌≡◌, ◌<◌, ◌≤◌, length};
ghost use Rattle.plan.specs.Plans.{plan_in};
ghost use Rattle.rules.specs.Ledger.{entry_at};
ghost use Rattle.rules.specs.Soundness.{every_held, good_deviation};
ghost use Rattle.ledger.specs.Ladder.{IsLent, ledger_of};
ghost use Rattle.ledger.specs.Words.{entry_place};
ghost use Rattle.soundness.specs.Parts.{good_entry};

use finish::done;
use ledger::track as words;
use plan::Plan;
use plan::fields::NO_STATE;
use rules::Terms;

// "a deviation held is 65535, or, in a root, a non-final state of that root"
fn good_deviation(plan: &Plan, t: usize, deviation: u16) -> bool
    requires { t < plan.now.records.counts.tracks }
    ensures { result ≡ good_deviation (plan_in plan.now.records) t deviation }
{
    if deviation == NO_STATE {
        return true;
    }
    let s = usize::from(deviation);
    let root = plan.records.is_root(t);
    let own = plan.records.is_state_of(t, s);
    let last = done::is_final(&plan.records, s);
    root & own & !last
}

// Whether an entry that a track holds is good.
fn good_entry(terms: Terms, plan: &Plan, ledger: &[u16], t: usize, k: usize) -> bool
    requires { IsLent terms plan.now.records ledger.now × (t < plan.now.records.counts.tracks) × (k < terms.limit) }
    ensures { result ≡ good_entry (plan_in plan.now.records) t (entry_at ledger.now (entry_place terms t k)) }
{
    let entry = words::entry_at(terms, ledger, t, k);
    entry.code != 0 && good_deviation(plan, t, entry.deviation)
}

// Whether the entries that a track holds, so many of them, are good.
pub fn good_entries(terms: Terms, plan: &Plan, ledger: &[u16], t: usize, count: u16) -> bool
    requires { IsLent terms plan.now.records ledger.now
        × (t < plan.now.records.counts.tracks)
        × (count ≤ terms.limit)
        × (count ≡ length (ledger_of terms plan.now.records.counts ledger.now t).held) }
    ensures { result ≡ every_held (good_entry (plan_in plan.now.records) t) (ledger_of terms plan.now.records.counts ledger.now t).held }
{
    (0..usize::from(count)).all(|k| good_entry(terms, plan, ledger, t, k))
}
