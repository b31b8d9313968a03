// The manager's calls. Each is given what the caller keeps to, the plan's bytes and the lent ledger; none has a `requires`. An answer is the
// result with its figures or a refusal with its number, and a refused call changes no word.
#![tactic(auto)]

mod bits;
pub mod calls;
mod verify;

ghost use Rattle.rules.specs.Setting.{terms_of};
ghost use Rattle.rules.specs.Call.{begin_outcome, event_outcome, signal_outcome, fire_outcome, ready_outcome, HandsBack, Meets};
ghost use Rattle.rules.specs.Answers.{begin_told, event_told, signal_told, fire_told, ready_told};

use ledger::setting::terms_of;
use rules::{BeginAnswer, EventAnswer, FireAnswer, ReadyAnswer, Setting, SignalAnswer};

// Overwrites the ledger: roots forward in their first states and holding nothing, others asleep.
pub fn begin(setting: Setting, plan: &[u8], ledger: &mut [u16]) -> BeginAnswer
    ensures { Meets (begin_outcome (terms_of setting) plan.now ledger.old) (begin_told result) ledger.new }
{
    calls::begin(terms_of(setting), plan, ledger)
}

// Moves each forward track without an open scope that the society may move and that has a transition for the event on that day, then closes,
// replaces, and finishes where that is due. The day is kept as the last accepted one. Answers how many tracks moved and how many scopes closed.
pub fn event(
    setting: Setting,
    plan: &[u8],
    ledger: &mut [u16],
    event: u16,
    day: i32,
    society: u16,
) -> EventAnswer
    ensures { Meets (event_outcome (terms_of setting) plan.now ledger.old
        (record { event = event; day = day; society = society })) (event_told result) ledger.new }
{
    calls::event(terms_of(setting), plan, ledger, event, day, society)
}

// Turns every forward track that the society may turn to undoing, puts to sleep the scopes that then have nothing to take back, and finishes
// where that is due. Answers how many turned.
pub fn signal(setting: Setting, plan: &[u8], ledger: &mut [u16], society: u16) -> SignalAnswer
    ensures { Meets (signal_outcome (terms_of setting) plan.now ledger.old (record { society = society }))
        (signal_told result) ledger.new }
{
    calls::signal(terms_of(setting), plan, ledger, society)
}

// Fires a named track that the society may fire: its newest entry is removed, a deviation is entered, scopes with nothing left are put to sleep,
// and it finishes where that is due. Answers the code and the deviation.
pub fn fire(
    setting: Setting,
    plan: &[u8],
    ledger: &mut [u16],
    track: u16,
    society: u16,
) -> FireAnswer
    ensures { Meets (fire_outcome (terms_of setting) plan.now ledger.old
        (record { track = track; society = society })) (fire_told result) ledger.new }
{
    calls::fire(terms_of(setting), plan, ledger, track, society)
}

// A number with bit n set exactly if track n may be fired.
pub fn ready(setting: Setting, plan: &[u8], ledger: &mut [u16]) -> ReadyAnswer
    ensures { Meets (ready_outcome (terms_of setting) plan.now ledger.old) (ready_told result) ledger.new }
{
    calls::ready(terms_of(setting), plan, ledger)
}

// The part of the ledger that holds a track's entries: those held, and no unused pairs. Only an empty part may lie anywhere.
pub fn entries<'a>(setting: Setting, plan: &[u8], ledger: &'a [u16], track: u16) -> &'a [u16]
    ensures { HandsBack (terms_of setting) plan.now ledger.now track ledger.entry.ref_ptr result.ref_ptr result.now ledger.now }
{
    calls::entries(terms_of(setting), plan, ledger, track)
}
