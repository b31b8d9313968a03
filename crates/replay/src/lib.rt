// Runs a journal under a plan, and writes the program's text into a lent output.
#![tactic(auto)]

pub mod carry_out;
pub mod records;

ghost use Rattle.std.specs.Prelude.{◌≡◌, ◌+◌, ◌*◌, ◌≤◌, length};
ghost use Rattle.rules.specs.Transcript.{most_bytes};
ghost use Rattle.ledger.specs.Ladder.{IsLent};
ghost use Rattle.replay.specs.Runs.{text_room, run_outcome, Ran, RanPlan};

use crate::records::run_records;
use journal::lines::{plan_line, refusal_line};
use ledger::layout;
use ledger::setting::MAIN_TRACK_WIDTH;
use opening::firsts;
use plan::Plan;
use rules::{Refusal, Terms};

// The most bytes of a plan or a journal.
pub const MOST_BYTES: usize = 32768;

const MOST_TRACKS: usize = 32;

// The words of a ledger of the main program that serves every plan.
pub const LEDGER_WORDS: usize = layout::LEADING_WORDS + MAIN_TRACK_WIDTH * MOST_TRACKS;

// No line is longer than 24 bytes and no record shorter than 4; three lines stand for no record.
const ROOM_OF_BYTE: usize = 6;

const ROOM_BESIDE: usize = 72;

// The bytes of an output that serves every journal.
pub const TEXT_BYTES: usize = ROOM_OF_BYTE * MOST_BYTES + ROOM_BESIDE;

// How many bytes were written; or how many the output must have at least; or the ledger has not the words of 32 tracks.
#[derive(Clone, Copy)]
pub enum RunAnswer {
    Written(usize),
    TooSmall(usize),
    ShortLedger,
}

// How many bytes hold any text of this journal.
pub fn text_room(journal: &[u8]) -> usize
    ensures { result ≡ text_room journal.now }
{
    if MOST_BYTES < journal.len() {
        return ROOM_BESIDE;
    }
    ROOM_OF_BYTE * journal.len() + ROOM_BESIDE
}

// Begins, and writes the lines of an accepted plan. Answers how many bytes were written.
fn run_plan(
    terms: Terms,
    plan: &Plan,
    journal: &[u8],
    ledger: &mut [u16],
    output: &mut [u8],
) -> usize
    requires { IsLent terms plan.now.records ledger.old × (length journal.now ≤ most_bytes) × (6 * length journal.now + 72 ≤ length output.old) }
    ensures { RanPlan terms plan.now.records.bytes.now journal.now plan.now.records.counts
        ledger.old output.old ledger.new output.new result }
{
    let start = plan_line(output, 0, plan.records.counts);
    let firsts = firsts::first_states(plan);
    opening::begin::begin_all(terms, plan, ledger, &firsts);
    run_records(terms, plan, journal, ledger, output, start, &firsts)
}

// Writes the text of a plan and a journal into the output. Where the output or the ledger is too small, nothing is written.
pub fn run(
    terms: Terms,
    plan: &[u8],
    journal: &[u8],
    ledger: &mut [u16],
    output: &mut [u8],
) -> RunAnswer
    ensures { Ran (run_outcome terms plan.now journal.now ledger.old output.old) result
        ledger.new output.new }
{
    let room = text_room(journal);
    if output.len() < room {
        return RunAnswer::TooSmall(room);
    }
    if !layout::has_room(terms, ledger, MOST_TRACKS) {
        return RunAnswer::ShortLedger;
    }
    if MOST_BYTES < plan.len() {
        return RunAnswer::Written(refusal_line(output, 0, Refusal::TooLong as u8));
    }
    if MOST_BYTES < journal.len() {
        return RunAnswer::Written(refusal_line(output, 0, Refusal::TooLong as u8));
    }
    match plan_reader::read(plan) {
        Err(refusal) => RunAnswer::Written(refusal_line(output, 0, refusal.number())),
        Ok(read) => RunAnswer::Written(run_plan(terms, &read, journal, ledger, output)),
    }
}
