// Reads a plan and a journal, and prints what the journal's records did. A plan file that cannot be read, or output that cannot be written, is a
// line on standard error; standard output is the paper's to the byte.
#![tactic(auto)]

ghost use Rattle.std.specs.Prelude.{◌≡◌, ◌≤◌, length, take};

use ledger::setting::terms_of;
use replay::{LEDGER_WORDS, MOST_BYTES, RunAnswer, TEXT_BYTES};
use rules::{Limit, Setting};
use std::fmt::Display;
use std::fs;
use std::io::{self, Read};
use std::rt::Files;

// How many bytes were read, and the error that ended the reading, if one did.
#[derive(Drop)]
struct Reading {
    count: usize,
    failure: Option<io::Error>,
}

// Reads until the buffer is full, the input ends or a read fails, also where a signal interrupts it; the bytes read stand at the buffer's start.
fn read_full<R: Read>(reader: &mut R, buffer: &mut [u8]) -> Reading
    ensures within { result.count ≤ length buffer.new }
    ensures taken { result.count ≡ length (take result.count buffer.new) }
{
    let mut done = 0;
    while done < buffer.len() {
        match reader.read(&mut buffer[done..]) {
            Ok(0) => break,
            Ok(n) => done += n,
            Err(error) => {
                return Reading {
                    count: done,
                    failure: Some(error),
                };
            }
        }
    }
    Reading {
        count: done,
        failure: None,
    }
}

// The system's words for an error, without its number.
fn reason(text: &str) -> &str {
    match text.split_once(" (os error ") {
        Some((reason, _)) => reason,
        None => text,
    }
}

// Tells on standard error what failed, and why. There is nobody to tell where that fails.
fn tell(rt: &impl Eprint, what: &str, why: impl Display + Drop) {
    let _ = eprintln!(rt; "unwind: {what}: {why}");
}

fn complain(rt: &(impl Eprint + AllocGlobal), what: &str, error: io::Error) {
    match format!(in rt.alloc(); "{error}") {
        Ok(text) => tell(rt, what, reason(text.as_str())),
        Err(_) => tell(rt, what, error),
    }
}

// How many of the bytes read count: none where the file cannot be read to its end or to the buffer's.
fn counted(rt: &(impl Eprint + AllocGlobal), reading: Reading) -> usize
    ensures { result ≤ reading.count }
{
    match reading.failure {
        None => reading.count,
        Some(error) => {
            complain(rt, "plan.bin", error);
            0
        }
    }
}

// The bytes of the plan file, as many as the buffer takes; none where it cannot be opened or read.
fn load(rt: &(impl Files + Eprint + AllocGlobal), buffer: &mut [u8]) -> usize
    ensures within { result ≤ length buffer.new }
    ensures taken { result ≡ length (take result buffer.new) }
{
    match fs::open(rt, "plan.bin") {
        Ok(mut file) => {
            let reading = read_full(&mut file, &mut buffer[..]);
            counted(rt, reading)
        }
        Err(error) => {
            complain(rt, "plan.bin", error);
            0
        }
    }
}

// The text on standard output.
fn print(rt: &(impl Print + Eprint + AllocGlobal), text: &[u8]) {
    if let Err(error) = rt.write_all(text) {
        complain(rt, "standard output", error);
    }
}

// One byte more of each input than is allowed tells that it is too long. A journal whose reading fails ends there.
fn main(rt: HostRuntime) {
    let mut plan = [0u8; MOST_BYTES + 1];
    let n = load(&rt, &mut plan);
    let mut journal = [0u8; MOST_BYTES + 1];
    let m = read_full(&mut rt.stdin(), &mut journal).count;
    let mut ledger = [0u16; LEDGER_WORDS];
    let mut text = [0u8; TEXT_BYTES];
    let answer = replay::run(
        terms_of(Setting { limit: Limit::Main }),
        &plan[..n],
        &journal[..m],
        &mut ledger,
        &mut text,
    );
    if let RunAnswer::Written(written) = answer {
        print(&rt, &text[..written]);
    }
}
