// A signal: every forward track that its society may turn is undoing then; abandoning follows, then finish.
ghost use Rattle.std.specs.Prelude.{◌≡◌, false, ◌&&◌, ◌<◌};
ghost use Rattle.plan.specs.Plans.{plan_in};
ghost use Rattle.rules.specs.Fold.{count_below};
ghost use Rattle.rules.specs.Ledger.{is_forward, written};
ghost use Rattle.rules.specs.Rights.{signal_right, is_permitted};
ghost use Rattle.rules.specs.Signal.{turned};
ghost use Rattle.rules.specs.Call.{signal_outcome, Meets};
ghost use Rattle.rules.specs.Answers.{signal_told};
ghost use Rattle.ledger.specs.Ladder.{Tidy, IsChecked, ledger_of};
ghost use Rattle.lookup.specs.Figures.{Figures};
ghost use Rattle.lookup.specs.OneTrack.{with_configuration};
ghost use Rattle.withdrawal.specs.Turning.{turned_if};

use crate::abandoning;
use finish::finishing;
use lookup::reading;
use opening::writing;
use plan::Plan;
use rights::Right;
use rules::{Counts, Mode, Refusal, SignalAnswer, Terms};

// Turns a track if it may be turned and is forward, and tells whether it did.
fn turn_track(terms: Terms, c: Counts, ledger: &mut [u16], may: bool, t: usize) -> bool
    requires { Tidy terms ledger.old c.tracks × (t < c.tracks) }
    ensures { (result ≡ (may && is_forward (ledger_of terms c ledger.old t).mode))
        × (ledger.new ≡ with_configuration terms c ledger.old t (turned_if may (ledger_of terms c ledger.old t))) }
{
    if !may {
        return false;
    }
    let k = reading::track(terms, c, ledger, t);
    if !k.mode.is_forward() {
        return false;
    }
    writing::put_mode(terms, c, ledger, t, Mode::Undoing, k.state);
    true
}

// Turns every forward track that is permitted, and tells how many turned.
fn turn_all(terms: Terms, plan: &Plan, ledger: &mut [u16], may: &[bool; 32], society: u16) -> u16
    requires { Tidy terms ledger.old plan.now.records.counts.tracks
        × Figures false may.now plan.now.records.counts.tracks (is_permitted (plan_in plan.now.records) signal_right society) }
    ensures { (result ≡ count_below plan.now.records.counts.tracks
        (λ t. is_permitted (plan_in plan.now.records) signal_right society t && is_forward (ledger_of terms plan.now.records.counts ledger.old t).mode))
        × (ledger.new
        ≡ written terms plan.now.records.counts.tracks (turned (plan_in plan.now.records) society (ledger_of terms plan.now.records.counts ledger.old)) ledger.old) }
{
    let mut count: u16 = 0;
    for t in 0..plan.records.counts.tracks {
        if turn_track(terms, plan.records.counts, ledger, may[t], t) {
            count += 1;
        }
    }
    count
}

// A signal on a checked plan and ledger: how many tracks turned, 20 where the ledger is over, or 28 where the society may turn none.
pub fn signal(terms: Terms, plan: &Plan, ledger: &mut [u16], society: u16) -> SignalAnswer
    requires { IsChecked terms plan.now.records ledger.old }
    ensures { Meets (signal_outcome terms plan.now.records.bytes.now ledger.old (record { society = society }))
        (signal_told result) ledger.new }
{
    if reading::is_over(terms, plan, ledger) {
        return SignalAnswer::Refused(Refusal::Over as u8);
    }
    if !rights::holds_somewhere(plan, Right::Signal as u16, society) {
        return SignalAnswer::Refused(Refusal::NoRight as u8);
    }
    let may = rights::permitted(plan, Right::Signal as u16, society);
    let count = turn_all(terms, plan, ledger, &may, society);
    let left = abandoning::abandon(terms, plan, ledger);
    finishing::finish(terms, plan, ledger, &left);
    SignalAnswer::Turned(count)
}
