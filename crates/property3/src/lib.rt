// Property 3 of the calls: a theorem about lists of them (proofs/Property3.antt, Calls.antt), and the contract of `run_calls`, which makes such a
// list. A call is five words, its kind as in a journal, its argument, an event's day and the society; its answer is three.
#![tactic(auto)]

ghost use Rattle.std.specs.Prelude.{◌≡◌, [], ◌∷◌, ◌++◌, ◌+◌, ◌≤◌, length, take, drop};
ghost use Rattle.rules.specs.Call.{call_outcome, event_outcome, signal_outcome, fire_outcome};
ghost use Rattle.rules.specs.Answers.{event_told, signal_told, fire_told};
ghost use Rattle.property3.specs.Encoding.{kind_read, decoded_call, encoded_answer, encoded_words, answer_room, CallMade};
ghost use Rattle.property3.specs.CallsRun.{CallsMade, CallsRun};

use rules::{BeginAnswer, EventAnswer, FireAnswer, SignalAnswer, Terms};
use signed::words;

pub const CALL_WIDTH: usize = 5;

pub const ANSWER_WIDTH: usize = 3;

// What a call is, told by the journal's kinds.
#[derive(Clone, Copy, PartialEq, Eq)]
pub enum Kind {
    Signal = 17,
    Fire = 18,
    Event = 20,
}

// A word that is neither an event's nor a signal's is a firing's.
impl From<u16> for Kind {
    ghost from_gives = { λ word kind. kind ≡ kind_read word };

    fn from(word: u16) -> Kind {
        if word == Kind::Event as u16 {
            return Kind::Event;
        }
        if word == Kind::Signal as u16 {
            return Kind::Signal;
        }
        Kind::Fire
    }
}

// The begin was accepted and the calls were made; or the begin's refusal; or too few words for the answers, and nothing was done.
#[derive(Clone, Copy)]
pub enum CallsAnswer {
    Begun,
    Refused(u8),
    NoRoom,
}

// A call's answer: the refusal's number, 0 where accepted, and two figures, 0 where there is none.
#[derive(Clone, Copy)]
struct EncodedAnswer {
    refusal: u16,
    first: u16,
    second: u16,
}

// A refusal without figures, and figures without a refusal.
#[tactic(auto, unfolding(crate::specs::Encoding::encoded_words))]
fn refused(n: u8) -> EncodedAnswer
    ensures { encoded_words result ≡ n ∷ 0 ∷ 0 ∷ [] }
{
    EncodedAnswer {
        refusal: u16::from(n),
        first: 0,
        second: 0,
    }
}

#[tactic(auto, unfolding(crate::specs::Encoding::encoded_words))]
fn accepted(first: u16, second: u16) -> EncodedAnswer
    ensures { encoded_words result ≡ 0 ∷ first ∷ second ∷ [] }
{
    EncodedAnswer {
        refusal: 0,
        first,
        second,
    }
}

impl From<EventAnswer> for EncodedAnswer {
    ghost from_gives = { λ answer told. encoded_words told ≡ encoded_answer (event_told answer) };

    #[tactic(auto, unfolding(crate::specs::Encoding::encoded_answer, rules::specs::Answers::event_told))]
    fn from(answer: EventAnswer) -> EncodedAnswer {
        match answer {
            EventAnswer::Refused(n) => refused(n),
            EventAnswer::Moved(moved, closed) => accepted(moved, closed),
        }
    }
}

impl From<SignalAnswer> for EncodedAnswer {
    ghost from_gives = { λ answer told. encoded_words told ≡ encoded_answer (signal_told answer) };

    #[tactic(auto, unfolding(crate::specs::Encoding::encoded_answer, rules::specs::Answers::signal_told))]
    fn from(answer: SignalAnswer) -> EncodedAnswer {
        match answer {
            SignalAnswer::Refused(n) => refused(n),
            SignalAnswer::Turned(turned) => accepted(turned, 0),
        }
    }
}

impl From<FireAnswer> for EncodedAnswer {
    ghost from_gives = { λ answer told. encoded_words told ≡ encoded_answer (fire_told answer) };

    #[tactic(auto, unfolding(crate::specs::Encoding::encoded_answer, rules::specs::Answers::fire_told))]
    fn from(answer: FireAnswer) -> EncodedAnswer {
        match answer {
            FireAnswer::Refused(n) => refused(n),
            FireAnswer::Fired(code, deviation) => accepted(code, deviation),
        }
    }
}

fn make_event(
    terms: Terms,
    plan: &[u8],
    ledger: &mut [u16],
    name: u16,
    day: i32,
    society: u16,
) -> EncodedAnswer
    ensures { CallMade (event_outcome terms plan.now ledger.old (record { event = name; day = day; society = society }))
        result ledger.new }
{
    let answer = manager::calls::event(terms, plan, ledger, name, day, society);
    EncodedAnswer::from(answer)
}

fn make_signal(terms: Terms, plan: &[u8], ledger: &mut [u16], society: u16) -> EncodedAnswer
    ensures { CallMade (signal_outcome terms plan.now ledger.old (record { society = society })) result ledger.new }
{
    let answer = manager::calls::signal(terms, plan, ledger, society);
    EncodedAnswer::from(answer)
}

fn make_fire(
    terms: Terms,
    plan: &[u8],
    ledger: &mut [u16],
    track: u16,
    society: u16,
) -> EncodedAnswer
    ensures { CallMade (fire_outcome terms plan.now ledger.old (record { track = track; society = society }))
        result ledger.new }
{
    let answer = manager::calls::fire(terms, plan, ledger, track, society);
    EncodedAnswer::from(answer)
}

// Makes the call that a kind, an argument, a day and a society stand for.
fn make_call(
    terms: Terms,
    plan: &[u8],
    ledger: &mut [u16],
    kind: u16,
    argument: u16,
    day: i32,
    society: u16,
) -> EncodedAnswer
    ensures { CallMade (call_outcome terms plan.now ledger.old (decoded_call kind argument day society)) result ledger.new }
{
    match Kind::from(kind) {
        Kind::Event => make_event(terms, plan, ledger, argument, day, society),
        Kind::Signal => make_signal(terms, plan, ledger, society),
        Kind::Fire => make_fire(terms, plan, ledger, argument, society),
    }
}

#[tactic(auto, unfolding(crate::specs::Encoding::encoded_words))]
fn write_answer(answers: &mut [u16], at: usize, told: EncodedAnswer)
    requires { at + 3 ≤ length answers.old }
    ensures { answers.new ≡ take at answers.old ++ (encoded_words told ++ drop (at + 3) answers.old) }
{
    let words = [told.refusal, told.first, told.second];
    answers[at..at + ANSWER_WIDTH].copy_from_slice(&words);
}

// Makes the calls, one after the other, and writes their answers.
fn make_calls(terms: Terms, plan: &[u8], ledger: &mut [u16], calls: &[u16], answers: &mut [u16])
    requires { answer_room calls.now ≤ length answers.old }
    ensures { CallsMade terms plan.now ledger.old calls.now answers.old
        ledger.new answers.new }
{
    for i in 0..calls.len() / CALL_WIDTH {
        let kind = calls[CALL_WIDTH * i];
        let argument = calls[CALL_WIDTH * i + 1];
        let low = calls[CALL_WIDTH * i + 2];
        let high = calls[CALL_WIDTH * i + 3];
        let day = words::join(low, high);
        let society = calls[CALL_WIDTH * i + 4];
        let told = make_call(terms, plan, ledger, kind, argument, day, society);
        write_answer(answers, ANSWER_WIDTH * i, told);
    }
}

// Begins, makes the calls after it, and writes the answer of each: where the begin is accepted, property 3 holds of them.
pub fn run_calls(
    terms: Terms,
    plan: &[u8],
    ledger: &mut [u16],
    calls: &[u16],
    answers: &mut [u16],
) -> CallsAnswer
    ensures { CallsRun terms plan.now ledger.old calls.now answers.old result
        ledger.new answers.new }
{
    if answers.len() / ANSWER_WIDTH < calls.len() / CALL_WIDTH {
        return CallsAnswer::NoRoom;
    }
    match manager::calls::begin(terms, plan, ledger) {
        BeginAnswer::Refused(n) => CallsAnswer::Refused(n),
        BeginAnswer::Begun => {
            make_calls(terms, plan, ledger, calls, answers);
            CallsAnswer::Begun
        }
    }
}
