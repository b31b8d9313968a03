// The lines of the program's text. Each is written at a place of the output and the place after it is answered; `LINE_ROOM`
// bytes hold any of them.
ghost use Rattle.std.specs.Prelude.{[], ◌∷◌, ◌++◌, ◌+◌, ◌<◌, ◌≤◌, length};
ghost use Rattle.rules.specs.Names.{Society, Day};
ghost use Rattle.rules.specs.Text.{ascii, decimal, line};
ghost use Rattle.rules.specs.Transcript.{refusal_line, plan_line, tally_line, deviation_text, call_line, done_line};
ghost use Rattle.rules.specs.Answers.{event_told, signal_told, fire_told};
ghost use Rattle.rules.specs.Call.{event, signal, fire};
ghost use Rattle.journal.specs.Writing.{line_room, Wrote, Lined};

use crate::text::{put_byte, put_deviation, put_number, put_word};
use rules::{Counts, EventAnswer, FireAnswer, SignalAnswer};

pub const LINE_ROOM: usize = 24;

// What ends a line.
const NEWLINE: u8 = b'\n';

// A space and a number.
fn put_field(out: &mut [u8], at: usize, n: u64) -> usize
    requires { at + 1 + length (decimal n) ≤ length out.old }
    ensures { Wrote out.old at (ascii " " ++ decimal n) out.new result }
{
    let number = put_byte(out, at, b' ');
    put_number(out, number, n)
}

// A space and a deviation.
fn put_deviation_field(out: &mut [u8], at: usize, deviation: u16) -> usize
    requires { at + 1 + length (deviation_text deviation) ≤ length out.old }
    ensures { Wrote out.old at (ascii " " ++ deviation_text deviation) out.new result }
{
    let text = put_byte(out, at, b' ');
    put_deviation(out, text, deviation)
}

// A line's name and first number.
fn put_head(out: &mut [u8], at: usize, name: &[u8], n: u64) -> usize
    requires { at + length name.now + 1 + length (decimal n) ≤ length out.old }
    ensures { Wrote out.old at (name.now ++ (ascii " " ++ decimal n)) out.new result }
{
    let field = put_word(out, at, name);
    put_field(out, field, n)
}

// A line of one number.
fn put_one(out: &mut [u8], at: usize, name: &[u8], n: u64) -> usize
    requires { at + length name.now + 2 + length (decimal n) ≤ length out.old }
    ensures { Wrote out.old at (line name.now (decimal n ∷ [])) out.new result }
{
    let end = put_head(out, at, name, n);
    put_byte(out, end, NEWLINE)
}

// A line of three numbers.
fn put_three(out: &mut [u8], at: usize, name: &[u8], n: u64, m: u64, k: u64) -> usize
    requires { at + length name.now + 4 + length (decimal n) + length (decimal m) + length (decimal k) ≤ length out.old }
    ensures { Wrote out.old at (line name.now (decimal n ∷ decimal m ∷ decimal k ∷ [])) out.new result }
{
    let second = put_head(out, at, name, n);
    let third = put_field(out, second, m);
    let end = put_field(out, third, k);
    put_byte(out, end, NEWLINE)
}

// `PLAN` tracks states transitions.
pub fn plan_line(out: &mut [u8], at: usize, c: Counts) -> usize
    requires { (at + line_room ≤ length out.old) × (c.tracks < 65536) × (c.states < 65536) × (c.transitions < 65536) }
    ensures { Lined out.old at (plan_line c) out.new result }
{
    put_three(
        out,
        at,
        b"PLAN",
        c.tracks as u64,
        c.states as u64,
        c.transitions as u64,
    )
}

// `R` number.
pub fn refusal_line(out: &mut [u8], at: usize, number: u8) -> usize
    requires { at + line_room ≤ length out.old }
    ensures { Lined out.old at (refusal_line number) out.new result }
{
    put_one(out, at, b"R", number as u64)
}

// `F` track code deviation.
fn fired_line(out: &mut [u8], at: usize, track: u16, code: u16, deviation: u16) -> usize
    requires { at + line_room ≤ length out.old }
    ensures { Lined out.old at (done_line (fire (record { track = track; society = 0 })) (code ∷ deviation ∷ [])) out.new result }
{
    let second = put_head(out, at, b"F", track as u64);
    let third = put_field(out, second, code as u64);
    let end = put_deviation_field(out, third, deviation);
    put_byte(out, end, NEWLINE)
}

// The line of an event, `E` event moved closed, or its refusal's: the same on any day, for any society.
pub fn event_line(out: &mut [u8], at: usize, name: u16, answer: EventAnswer) -> usize
    requires { at + line_room ≤ length out.old }
    ensures { (day : Day) (society : Society)
        → Lined out.old at (call_line (event (record { event = name; day = day; society = society })) (event_told answer)) out.new result }
{
    match answer {
        EventAnswer::Moved(moved, closed) => put_three(
            out,
            at,
            b"E",
            name as u64,
            moved as u64,
            closed as u64,
        ),
        EventAnswer::Refused(number) => refusal_line(out, at, number),
    }
}

// The line of a signal, `S` turned, or its refusal's.
pub fn signal_line(out: &mut [u8], at: usize, answer: SignalAnswer) -> usize
    requires { at + line_room ≤ length out.old }
    ensures { (society : Society)
        → Lined out.old at (call_line (signal (record { society = society })) (signal_told answer)) out.new result }
{
    match answer {
        SignalAnswer::Turned(turned) => put_one(out, at, b"S", turned as u64),
        SignalAnswer::Refused(number) => refusal_line(out, at, number),
    }
}

// The line of a firing, or its refusal's.
pub fn fire_line(out: &mut [u8], at: usize, track: u16, answer: FireAnswer) -> usize
    requires { at + line_room ≤ length out.old }
    ensures { (society : Society)
        → Lined out.old at (call_line (fire (record { track = track; society = society })) (fire_told answer)) out.new result }
{
    match answer {
        FireAnswer::Fired(code, deviation) => fired_line(out, at, track, code, deviation),
        FireAnswer::Refused(number) => refusal_line(out, at, number),
    }
}

// `H` entries held, firings done.
pub fn tally_line(out: &mut [u8], at: usize, held: u32, fired: u32) -> usize
    requires { at + line_room ≤ length out.old }
    ensures { Lined out.old at (tally_line held fired) out.new result }
{
    let second = put_head(out, at, b"H", held as u64);
    let end = put_field(out, second, fired as u64);
    put_byte(out, end, NEWLINE)
}
