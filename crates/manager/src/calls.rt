// The six calls at any limit that a word can count. The public ones make these at the caller's setting.
ghost use Rattle.std.specs.Prelude.{◌≡◌, ◌<◌};
ghost use Rattle.rules.specs.Call.{begin_outcome, event_outcome, signal_outcome, fire_outcome, ready_outcome, HandsBack, Meets};
ghost use Rattle.rules.specs.Answers.{begin_told, event_told, signal_told, fire_told, ready_told};
ghost use Rattle.manager.specs.Checked.{Span};

use crate::{bits, verify};
use ledger::layout::ENTRY_WIDTH;
use ledger::{layout, track};
use rules::{BeginAnswer, EventAnswer, FireAnswer, ReadyAnswer, SignalAnswer, Terms};
use std::ops::Range;

// Overwrites the ledger: roots forward in their first states and holding nothing, others asleep.
pub fn begin(terms: Terms, plan: &[u8], ledger: &mut [u16]) -> BeginAnswer
    ensures { Meets (begin_outcome terms plan.now ledger.old) (begin_told result) ledger.new }
{
    let mut firsts: [u16; 32] = [0; 32];
    match verify::read_lent(terms, plan, ledger, &mut firsts) {
        Err(refusal) => BeginAnswer::Refused(refusal.number()),
        Ok(read) => {
            opening::begin::begin_all(terms, &read, ledger, &firsts);
            BeginAnswer::Begun
        }
    }
}

// Moves each forward track without an open scope that the society may move and that has a transition for the event on that day, then closes,
// replaces, and finishes where that is due. The day is kept as the last accepted one. Answers how many tracks moved and how many scopes closed.
pub fn event(
    terms: Terms,
    plan: &[u8],
    ledger: &mut [u16],
    event: u16,
    day: i32,
    society: u16,
) -> EventAnswer
    ensures { Meets (event_outcome terms plan.now ledger.old
        (record { event = event; day = day; society = society })) (event_told result) ledger.new }
{
    let mut opens = [false; 32];
    let mut firsts: [u16; 32] = [0; 32];
    match verify::verify(terms, plan, ledger, &mut opens, &mut firsts) {
        Err(refusal) => EventAnswer::Refused(refusal.number()),
        Ok(read) => {
            event_step::event::event(terms, &read, ledger, event, day, society, &opens, &firsts)
        }
    }
}

// Turns every forward track that the society may turn to undoing, puts to sleep the scopes that then have nothing to take back, and finishes
// where that is due. Answers how many turned.
pub fn signal(terms: Terms, plan: &[u8], ledger: &mut [u16], society: u16) -> SignalAnswer
    ensures { Meets (signal_outcome terms plan.now ledger.old (record { society = society }))
        (signal_told result) ledger.new }
{
    let mut opens = [false; 32];
    let mut firsts: [u16; 32] = [0; 32];
    match verify::verify(terms, plan, ledger, &mut opens, &mut firsts) {
        Err(refusal) => SignalAnswer::Refused(refusal.number()),
        Ok(read) => withdrawal::signal::signal(terms, &read, ledger, society),
    }
}

// Fires a named track that the society may fire: its newest entry is removed, a deviation is entered, scopes with nothing left are put to sleep,
// and it finishes where that is due. Answers the code and the deviation.
pub fn fire(terms: Terms, plan: &[u8], ledger: &mut [u16], track: u16, society: u16) -> FireAnswer
    ensures { Meets (fire_outcome terms plan.now ledger.old
        (record { track = track; society = society })) (fire_told result) ledger.new }
{
    let mut opens = [false; 32];
    let mut firsts: [u16; 32] = [0; 32];
    match verify::verify(terms, plan, ledger, &mut opens, &mut firsts) {
        Err(refusal) => FireAnswer::Refused(refusal.number()),
        Ok(read) => {
            withdrawal::fire::fire(terms, &read, ledger, track, society, &opens, &firsts)
        }
    }
}

// A number with bit n set exactly if track n may be fired.
pub fn ready(terms: Terms, plan: &[u8], ledger: &mut [u16]) -> ReadyAnswer
    ensures { Meets (ready_outcome terms plan.now ledger.old) (ready_told result) ledger.new }
{
    let mut opens = [false; 32];
    let mut firsts: [u16; 32] = [0; 32];
    match verify::verify(terms, plan, ledger, &mut opens, &mut firsts) {
        Err(refusal) => ReadyAnswer::Refused(refusal.number()),
        Ok(read) => {
            let bits = bits::ready_bits(terms, &read, ledger, &opens);
            ReadyAnswer::Ready(bits)
        }
    }
}

// The part that holds a track's entries, as the numbers of its words.
fn part_of(terms: Terms, plan: &[u8], ledger: &[u16], track: u16) -> Range<usize>
    ensures { Span terms plan.now ledger.now track result.start result.end }
{
    let mut opens = [false; 32];
    let mut firsts: [u16; 32] = [0; 32];
    match verify::verify(terms, plan, ledger, &mut opens, &mut firsts) {
        Err(_) => 0..0,
        Ok(read) => {
            let t = usize::from(track);
            if read.records.counts.tracks <= t {
                return 0..0;
            }
            let k = track::track_at(terms, ledger, t);
            let from = layout::entry_place(terms, t, 0);
            from..from + ENTRY_WIDTH * usize::from(k.count)
        }
    }
}

// The part of the ledger that holds a track's entries: those held, and no unused pairs. Only an empty part may lie anywhere.
pub fn entries<'a>(terms: Terms, plan: &[u8], ledger: &'a [u16], track: u16) -> &'a [u16]
    ensures { HandsBack terms plan.now ledger.now track ledger.entry.ref_ptr result.ref_ptr result.now ledger.now }
{
    let part = part_of(terms, plan, ledger, track);
    &ledger[part]
}
