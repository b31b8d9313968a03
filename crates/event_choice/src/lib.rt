// What an event will do, read off the ledger before a word is written: the moves, those of its day and its society, the scopes that close, 21 and
// the figures.
#![tactic(auto)]

pub mod closing;
pub mod indexed;
pub mod judging;
pub mod moving;
pub mod societies;
pub mod windows;

ghost use Rattle.std.specs.Prelude.{◌≡◌, false};
ghost use Rattle.plan.specs.Plans.{plan_in};
ghost use Rattle.rules.specs.Scope.{has_open_scope};
ghost use Rattle.rules.specs.Event.{move};
ghost use Rattle.ledger.specs.Ladder.{IsGoing, ledger_of};
ghost use Rattle.lookup.specs.Figures.{Figures, Numbers};
ghost use Rattle.transition_index.specs.Indexed.{Indexed};
ghost use Rattle.event_choice.specs.Next.{any_day_move};
ghost use Rattle.event_choice.specs.Chosen.{told, arguments_of, Chosen};

use plan::Plan;
use rules::Terms;
use transition_index::TransitionIndex;

// What an event is given.
#[derive(Clone, Copy)]
pub struct Asked {
    pub event: u16,
    pub day: i32,
    pub society: u16,
}

// For each track the transition that it takes, 65535 for none, and whether its open scope closes; how many do either; and whether a track
// that it gives an entry is full.
#[derive(Clone, Copy)]
pub struct Choice {
    pub asked: Asked,
    pub taken: [u16; 32],
    pub closing: [bool; 32],
    pub moved: u16,
    pub closed: u16,
    pub full: bool,
}

// What an event does, given which tracks have an open scope, and its moves. Where none leads to a final state, no scope closes.
fn choose_by(
    terms: Terms,
    plan: &Plan,
    ledger: &[u16],
    asked: Asked,
    opens: &[bool; 32],
    taken: &[u16; 32],
) -> Choice
    requires { IsGoing terms plan.now.records ledger.now
        × Figures false opens.now plan.now.records.counts.tracks (has_open_scope (plan_in plan.now.records) (ledger_of terms plan.now.records.counts ledger.now))
        × Numbers taken.now plan.now.records.counts.tracks (move (plan_in plan.now.records) (ledger_of terms plan.now.records.counts ledger.now) (told asked)) }
    ensures { Chosen terms (plan_in plan.now.records) (ledger_of terms plan.now.records.counts ledger.now) result × (arguments_of result ≡ told asked) }
{
    let m = judging::moves(terms, plan, ledger, taken);
    if !m.ends {
        return Choice {
            asked,
            taken: *taken,
            closing: [false; 32],
            moved: m.moved,
            closed: 0,
            full: m.full,
        };
    }
    let closing = closing::closing_scopes(terms, plan, ledger, *opens, taken);
    let v = judging::judge(terms, plan, ledger, taken, &closing);
    Choice {
        asked,
        taken: *taken,
        closing,
        moved: m.moved,
        closed: v.closed,
        full: v.full,
    }
}

// What an event does, given which tracks have an open scope, and the transition that each takes for it on any day.
pub fn choose_from(
    terms: Terms,
    plan: &Plan,
    ledger: &[u16],
    asked: Asked,
    opens: &[bool; 32],
    any: [u16; 32],
) -> Choice
    requires { IsGoing terms plan.now.records ledger.now
        × Figures false opens.now plan.now.records.counts.tracks (has_open_scope (plan_in plan.now.records) (ledger_of terms plan.now.records.counts ledger.now))
        × Numbers any plan.now.records.counts.tracks (any_day_move (plan_in plan.now.records) (ledger_of terms plan.now.records.counts ledger.now) asked.event) }
    ensures { Chosen terms (plan_in plan.now.records) (ledger_of terms plan.now.records.counts ledger.now) result × (arguments_of result ≡ told asked) }
{
    let all = windows::taken_on(plan, asked.day, any);
    let taken = societies::taken_of(plan, asked.society, all);
    choose_by(terms, plan, ledger, asked, opens, &taken)
}

// What an event does, given which tracks have an open scope.
pub fn choose(terms: Terms, plan: &Plan, ledger: &[u16], asked: Asked, opens: &[bool; 32]) -> Choice
    requires { IsGoing terms plan.now.records ledger.now
        × Figures false opens.now plan.now.records.counts.tracks (has_open_scope (plan_in plan.now.records) (ledger_of terms plan.now.records.counts ledger.now)) }
    ensures { Chosen terms (plan_in plan.now.records) (ledger_of terms plan.now.records.counts ledger.now) result × (arguments_of result ≡ told asked) }
{
    let any = moving::taken_by(terms, plan, ledger, asked.event, opens);
    choose_from(terms, plan, ledger, asked, opens, any)
}

// The same by an index of the transitions.
pub fn choose_indexed(
    terms: Terms,
    plan: &Plan,
    ledger: &[u16],
    asked: Asked,
    opens: &[bool; 32],
    index: &TransitionIndex,
) -> Choice
    requires { IsGoing terms plan.now.records ledger.now
        × Figures false opens.now plan.now.records.counts.tracks (has_open_scope (plan_in plan.now.records) (ledger_of terms plan.now.records.counts ledger.now))
        × Indexed plan.now.records.bytes.now plan.now.records.counts index.now.chains.last index.now.chains.before }
    ensures { Chosen terms (plan_in plan.now.records) (ledger_of terms plan.now.records.counts ledger.now) result × (arguments_of result ≡ told asked) }
{
    let any = indexed::taken_from(terms, plan, ledger, asked.event, opens, index);
    choose_from(terms, plan, ledger, asked, opens, any)
}
