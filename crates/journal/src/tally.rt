// The running tally for the last line.
ghost use Rattle.std.specs.Prelude.{◌≡◌, ℕ, ◌+◌, ◌<◌, ◌^◌};
ghost use Rattle.rules.specs.Answers.{fire_told};
ghost use Rattle.rules.specs.Call.{fire};
ghost use Rattle.rules.specs.Transcript.{firings_of};
ghost use Rattle.journal.specs.Tallied.{tallied};

use rules::FireAnswer;

#[derive(Clone, Copy)]
pub struct Tally {
    pub held: u32,
    pub fired: u32,
}

// One journal record's figures: the entries held after it, and the firings that it did. The caller keeps the sum of the firings
// below 2 ^ 32.
pub fn advance(tally: &mut Tally, held: u32, fired: u32)
    requires { tally.old.fired + fired < 2 ^ 32 }
    ensures { tally.new ≡ tallied tally.old held fired }
{
    tally.held = held;
    tally.fired = tally.fired + fired;
}

// The same by value, for loops.
pub fn advanced(tally: Tally, held: u32, fired: u32) -> Tally
    requires { tally.fired + fired < 2 ^ 32 }
    ensures { result ≡ tallied tally held fired }
{
    let mut next = tally;
    advance(&mut next, held, fired);
    next
}

// The firings that an answered firing did: a refused one did none.
pub fn firings_of(answer: FireAnswer) -> u32
    ensures { (t society : ℕ) → result ≡ firings_of (fire (record { track = t; society = society })) (fire_told answer) }
{
    match answer {
        FireAnswer::Fired(_, _) => 1,
        FireAnswer::Refused(_) => 0,
    }
}
