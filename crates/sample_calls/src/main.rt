// Reads plan P, runs the calls of the paper's sample through `run_calls`, and prints a line for each answer: its refusal, 0 where accepted, and
// its two figures.
#![tactic(auto)]

ghost use Rattle.std.specs.Prelude.{◌≡◌, ◌≤◌, IfOk, length, take};

use ledger::layout::LEADING_WORDS;
use ledger::setting::{MAIN_TRACK_WIDTH, terms_of};
use property3::{ANSWER_WIDTH, CALL_WIDTH, CallsAnswer, Kind};
use rules::{Limit, Setting};
use std::io::{self, Read};

const COUNT: usize = 8;

const EVENT: u16 = Kind::Event as u16;

const SIGNAL: u16 = Kind::Signal as u16;

const FIRE: u16 = Kind::Fire as u16;

// "Journal: events 10, 11, 12, signal, four times kind 19", each event on day 0 and each call by society 1: the firings that kind 19 comes to; the last is refused.
const CALLS: [u16; CALL_WIDTH * COUNT] = [
    EVENT, 10, 0, 0, 1, EVENT, 11, 0, 0, 1, EVENT, 12, 0, 0, 1, SIGNAL, 0, 0, 0, 1, FIRE, 1, 0, 0,
    1, FIRE, 2, 0, 0, 1, FIRE, 0, 0, 0, 1, FIRE, 0, 0, 0, 1,
];

// The words of a ledger of 3 tracks.
const LEDGER_WORDS: usize = LEADING_WORDS + MAIN_TRACK_WIDTH * 3;

// The bytes that are read of the plan, at most.
const PLAN_BYTES: usize = 4096;

// Reads until the buffer is full or the input ends; the bytes read stand at the buffer's start. A read that a signal interrupts fails too.
fn read_full<R: Read>(reader: &mut R, buffer: &mut [u8]) -> io::Result<usize>
    ensures within { IfOk result (λ n. n ≤ length buffer.new) }
    ensures taken { IfOk result (λ n. n ≡ length (take n buffer.new)) }
{
    let mut done = 0;
    while done < buffer.len() {
        let n = reader.read(&mut buffer[done..])?;
        if n == 0 {
            break;
        }
        done += n;
    }
    Ok(done)
}

fn print_answers(rt: &impl Print, answers: &[u16]) -> io::Result<()> {
    for words in answers.chunks_exact(ANSWER_WIDTH) {
        println!(rt; "{} {} {}", words[0], words[1], words[2])?;
    }
    Ok(())
}

fn main(rt: HostRuntime) -> io::Result<()> {
    let mut plan = [0u8; PLAN_BYTES];
    let n = read_full(&mut rt.stdin(), &mut plan)?;
    let mut ledger = [0u16; LEDGER_WORDS];
    let mut answers = [0u16; ANSWER_WIDTH * COUNT];
    let answer = property3::run_calls(
        terms_of(Setting { limit: Limit::Main }),
        &plan[..n],
        &mut ledger,
        &CALLS,
        &mut answers,
    );
    if let CallsAnswer::Begun = answer {
        print_answers(&rt, &answers)?;
    }
    Ok(())
}
