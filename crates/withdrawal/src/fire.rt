// A firing: the newest entry of a track that may be fired, its deviation entered, then abandoning, then finish.
ghost use Rattle.std.specs.Prelude.{◌≡◌, false, ◌<◌};
ghost use Rattle.plan.specs.Plans.{plan_in};
ghost use Rattle.rules.specs.Plan.{first_state};
ghost use Rattle.rules.specs.Ledger.{written};
ghost use Rattle.rules.specs.Scope.{has_open_scope, is_over};
ghost use Rattle.rules.specs.Opening.{enter};
ghost use Rattle.rules.specs.Fire.{may_fire};
ghost use Rattle.rules.specs.Call.{lacks_fire_right, fire_outcome, Meets};
ghost use Rattle.rules.specs.Answers.{fire_told};
ghost use Rattle.ledger.specs.Ladder.{Tidy, IsLent, IsChecked, ledger_of};
ghost use Rattle.lookup.specs.Figures.{Figures};
ghost use Rattle.opening.specs.Entering.{Sleepers};
ghost use Rattle.withdrawal.specs.Deviating.{deviating};

use crate::abandoning;
use finish::finishing;
use ledger::track as words;
use lookup::{reading, ready};
use opening::entering;
use plan::Plan;
use plan::fields::NO_STATE;
use rights::Right;
use rules::{FireAnswer, Refusal, Terms};

// Whether a track may be fired, given which tracks have an open scope.
fn may_fire(terms: Terms, plan: &Plan, ledger: &[u16], opens: &[bool; 32], t: usize) -> bool
    requires { IsLent terms plan.now.records ledger.now
        × Figures false opens.now plan.now.records.counts.tracks (has_open_scope (plan_in plan.now.records) (ledger_of terms plan.now.records.counts ledger.now)) }
    ensures { result ≡ may_fire (plan_in plan.now.records) (ledger_of terms plan.now.records.counts ledger.now) t }
{
    t < plan.records.counts.tracks && ready::is_ready(terms, plan, ledger, opens, t)
}

// 28: whether a track that exists may not be fired by a society.
fn lacks_right(plan: &Plan, track: u16, society: u16) -> bool
    ensures { result ≡ lacks_fire_right (plan_in plan.now.records) (record { track = track; society = society }) }
{
    let t = track as usize;
    t < plan.records.counts.tracks && !rights::permitted(plan, Right::Fire as u16, society)[t]
}

// A track goes forward in a state, 65535 for none, and the scopes that it enters open, given the first state of each track.
fn deviate(terms: Terms, plan: &Plan, ledger: &mut [u16], firsts: &[u16; 32], t: usize, s: u16)
    requires { Tidy terms ledger.old plan.now.records.counts.tracks
        × (t < plan.now.records.counts.tracks)
        × Figures 0 firsts.now plan.now.records.counts.tracks (first_state (plan_in plan.now.records))
        × Sleepers (plan_in plan.now.records) (deviating t s) (ledger_of terms plan.now.records.counts ledger.old) }
    ensures { ledger.new
        ≡ written terms plan.now.records.counts.tracks (enter (plan_in plan.now.records) (deviating t s) (ledger_of terms plan.now.records.counts ledger.old)) ledger.old }
{
    if s == NO_STATE {
        return;
    }
    let mut to = [NO_STATE; 32];
    to[t] = s;
    entering::enter_all(terms, plan, ledger, *firsts, to);
}

// A firing on a checked plan and ledger, given the first state of each track and, unless it is over, which have an open scope: the code
// and the deviation of the entry fired, 20 where the ledger is over, 28 where the society has no right to it, or 22 where the track may not be
// fired or does not exist.
pub fn fire(
    terms: Terms,
    plan: &Plan,
    ledger: &mut [u16],
    track: u16,
    society: u16,
    opens: &[bool; 32],
    firsts: &[u16; 32],
) -> FireAnswer
    requires { IsChecked terms plan.now.records ledger.old
        × (is_over (plan_in plan.now.records) (ledger_of terms plan.now.records.counts ledger.old) ≡ false
        → Figures false opens.now plan.now.records.counts.tracks (has_open_scope (plan_in plan.now.records) (ledger_of terms plan.now.records.counts ledger.old)))
        × Figures 0 firsts.now plan.now.records.counts.tracks (first_state (plan_in plan.now.records)) }
    ensures { Meets (fire_outcome terms plan.now.records.bytes.now ledger.old
        (record { track = track; society = society })) (fire_told result) ledger.new }
{
    if reading::is_over(terms, plan, ledger) {
        return FireAnswer::Refused(Refusal::Over as u8);
    }
    if lacks_right(plan, track, society) {
        return FireAnswer::Refused(Refusal::NoRight as u8);
    }
    let t = track as usize;
    if !may_fire(terms, plan, ledger, opens, t) {
        return FireAnswer::Refused(Refusal::MayNotFire as u8);
    }
    let k = reading::track(terms, plan.records.counts, ledger, t);
    let newest = (k.count - 1) as usize;
    let code = words::entry_code(terms, ledger, t, newest);
    let deviation = words::entry_deviation(terms, ledger, t, newest);
    words::remove_newest(terms, ledger, t);
    deviate(terms, plan, ledger, firsts, t, deviation);
    let left = abandoning::abandon(terms, plan, ledger);
    finishing::finish(terms, plan, ledger, &left);
    FireAnswer::Fired(code, deviation)
}
