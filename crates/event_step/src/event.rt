// An event: its refusals, judged before a word is written, then its step, finish, its day, and its figures.
ghost use Rattle.std.specs.Prelude.{◌≡◌, true, false, ◌≤◌, length};
ghost use Rattle.plan.specs.Plans.{plan_in};
ghost use Rattle.rules.specs.Layout.{leading_words};
ghost use Rattle.rules.specs.Day.{is_day};
ghost use Rattle.rules.specs.Leading.{last_day};
ghost use Rattle.rules.specs.Plan.{first_state};
ghost use Rattle.rules.specs.Scope.{has_open_scope, is_over};
ghost use Rattle.rules.specs.Call.{bad_day, Meets, event_outcome};
ghost use Rattle.rules.specs.Answers.{event_told};
ghost use Rattle.rules.specs.Refusals.{refusal_number};
ghost use Rattle.ledger.specs.Ladder.{IsChecked, IsGoing, ledger_of};
ghost use Rattle.lookup.specs.Figures.{Figures};
ghost use Rattle.transition_index.specs.Indexed.{Indexed};
ghost use Rattle.event_choice.specs.Chosen.{told, arguments_of, Chosen};
ghost use Rattle.event_step.specs.Outcome.{early_refusal, going_outcome};

use calendar::dates::is_day;
use event_choice::{Asked, Choice};
use finish::finishing;
use ledger::leading;
use lookup::{opens, reading};
use plan::Plan;
use rights::Right;
use rules::{EventAnswer, Refusal, Terms};
use transition_index::TransitionIndex;

// 26: whether a day is out of range or before the last accepted one.
fn is_bad_day(ledger: &[u16], day: i32) -> bool
    requires { leading_words ≤ length ledger.now }
    ensures { result ≡ bad_day (last_day ledger.now) day }
{
    if !is_day(day) {
        return true;
    }
    day < leading::last_day(ledger)
}

// The refusal 19, 26, 20 or 28 that turns an event back: the first of them that applies.
fn refusal_of(terms: Terms, plan: &Plan, ledger: &[u16], asked: Asked) -> Result<(), Refusal>
    requires { IsChecked terms plan.now.records ledger.now }
    ensures { refusal_number result
        ≡ early_refusal (plan_in plan.now.records) (last_day ledger.now) (ledger_of terms plan.now.records.counts ledger.now) (told asked) }
{
    if asked.event == 0 {
        return Err(Refusal::NoEvent);
    }
    if is_bad_day(ledger, asked.day) {
        return Err(Refusal::Day);
    }
    if reading::is_over(terms, plan, ledger) {
        return Err(Refusal::Over);
    }
    if !rights::holds_somewhere(plan, Right::Move as u16, asked.society) {
        return Err(Refusal::NoRight);
    }
    Ok(())
}

// An event that none of these turns back, its choice made, given which tracks have an open scope and the first state of
// each. Where no track moves nothing changes but the day.
fn go_on(
    terms: Terms,
    plan: &Plan,
    ledger: &mut [u16],
    choice: Choice,
    opens: &[bool; 32],
    firsts: &[u16; 32],
) -> EventAnswer
    requires { IsGoing terms plan.now.records ledger.old
        × Chosen terms (plan_in plan.now.records) (ledger_of terms plan.now.records.counts ledger.old) choice
        × Figures false opens.now plan.now.records.counts.tracks (has_open_scope (plan_in plan.now.records) (ledger_of terms plan.now.records.counts ledger.old))
        × Figures 0 firsts.now plan.now.records.counts.tracks (first_state (plan_in plan.now.records))
        × (is_day choice.asked.day ≡ true) }
    ensures { Meets (going_outcome terms (plan_in plan.now.records) ledger.old (arguments_of choice)) (event_told result) ledger.new }
{
    if choice.full {
        return EventAnswer::Refused(Refusal::Full as u8);
    }
    let day = choice.asked.day;
    if choice.moved == 0 {
        leading::put_day(ledger, day);
        return EventAnswer::Moved(0, 0);
    }
    event_writing::write(terms, plan, ledger, choice, firsts);
    finishing::finish(terms, plan, ledger, opens);
    leading::put_day(ledger, day);
    EventAnswer::Moved(choice.moved, choice.closed)
}

// An event under an accepted plan, on a sound ledger, given the first state of each track and, unless it is over, which have an open scope.
pub fn event(
    terms: Terms,
    plan: &Plan,
    ledger: &mut [u16],
    event: u16,
    day: i32,
    society: u16,
    opens: &[bool; 32],
    firsts: &[u16; 32],
) -> EventAnswer
    requires { IsChecked terms plan.now.records ledger.old
        × (is_over (plan_in plan.now.records) (ledger_of terms plan.now.records.counts ledger.old) ≡ false
        → Figures false opens.now plan.now.records.counts.tracks (has_open_scope (plan_in plan.now.records) (ledger_of terms plan.now.records.counts ledger.old)))
        × Figures 0 firsts.now plan.now.records.counts.tracks (first_state (plan_in plan.now.records)) }
    ensures { Meets (event_outcome terms plan.now.records.bytes.now ledger.old
        (record { event = event; day = day; society = society })) (event_told result) ledger.new }
{
    let asked = Asked {
        event,
        day,
        society,
    };
    if let Err(refusal) = refusal_of(terms, plan, ledger, asked) {
        return EventAnswer::Refused(refusal.number());
    }
    let choice = event_choice::choose(terms, plan, ledger, asked, opens);
    go_on(terms, plan, ledger, choice, opens, firsts)
}

// The same, given the first state of each track and an index of the transitions: who has many events makes them once. The open scopes
// it finds itself.
pub fn event_indexed(
    terms: Terms,
    plan: &Plan,
    ledger: &mut [u16],
    asked: Asked,
    firsts: &[u16; 32],
    index: &TransitionIndex,
) -> EventAnswer
    requires { IsChecked terms plan.now.records ledger.old
        × Figures 0 firsts.now plan.now.records.counts.tracks (first_state (plan_in plan.now.records))
        × Indexed plan.now.records.bytes.now plan.now.records.counts index.now.chains.last index.now.chains.before }
    ensures { Meets (event_outcome terms plan.now.records.bytes.now ledger.old (told asked)) (event_told result) ledger.new }
{
    if let Err(refusal) = refusal_of(terms, plan, ledger, asked) {
        return EventAnswer::Refused(refusal.number());
    }
    let opens = opens::open_scopes(terms, plan, ledger);
    let choice = event_choice::choose_indexed(terms, plan, ledger, asked, &opens, index);
    go_on(terms, plan, ledger, choice, &opens, firsts)
}
