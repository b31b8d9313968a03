// The records of a journal, one after the other.
ghost use Rattle.std.specs.Prelude.{◌≡◌, ◌+◌, ◌*◌, ◌≤◌, length};
ghost use Rattle.plan.specs.Plans.{plan_in};
ghost use Rattle.rules.specs.Plan.{first_state};
ghost use Rattle.rules.specs.Transcript.{most_bytes};
ghost use Rattle.ledger.specs.Ladder.{IsChecked};
ghost use Rattle.lookup.specs.Figures.{Figures};
ghost use Rattle.journal.specs.Records.{record_told};
ghost use Rattle.journal.specs.Writing.{line_room};
ghost use Rattle.replay.specs.Runs.{RanRecords};
ghost use Rattle.replay.specs.CarriedOut.{is_broken_record, Closed};

use crate::carry_out::{PlanTables, Progress, carry_out};
use journal::held;
use journal::lines::{refusal_line, tally_line};
use journal::record::{Record, record_at};
use journal::tally::Tally;
use plan::Plan;
use rules::{Refusal, Terms};

fn is_broken(found: Record) -> bool
    ensures { result ≡ is_broken_record (record_told found) }
{
    matches!(found, Record::Broken)
}

// The refusal of a broken record, where the reading ended at one, and the last line.
fn close(found: Record, output: &mut [u8], from: Progress) -> usize
    requires { from.place + 2 * line_room ≤ length output.old }
    ensures { Closed (record_told found) output.old from output.new result }
{
    let last = from.tally;
    if is_broken(found) {
        let place = refusal_line(output, from.place, Refusal::BrokenRecord as u8);
        return tally_line(output, place, last.held, last.fired);
    }
    tally_line(output, from.place, last.held, last.fired)
}

// Writes the lines of the records and the last line from a place of the output on, given the first state of each track. Answers the place after
// them. The index of the plan is made once, before the records.
pub fn run_records(
    terms: Terms,
    plan: &Plan,
    journal: &[u8],
    ledger: &mut [u16],
    output: &mut [u8],
    start: usize,
    firsts: &[u16; 32],
) -> usize
    requires { IsChecked terms plan.now.records ledger.old
        × (length journal.now ≤ most_bytes)
        × (start + 6 * length journal.now + 2 * line_room ≤ length output.old)
        × Figures 0 firsts.now plan.now.records.counts.tracks (first_state (plan_in plan.now.records)) }
    ensures { RanRecords terms plan.now.records.bytes.now journal.now plan.now.records.counts
        ledger.old output.old start ledger.new output.new result }
{
    let index = transition_index::index(&plan.records);
    let tables = PlanTables {
        firsts: *firsts,
        index,
    };
    let held = held::held_total(terms, plan.records.counts, ledger);
    let mut so_far = Progress {
        place: start,
        tally: Tally { held, fired: 0 },
    };
    let mut at: usize = 0;
    loop {
        let found = record_at(journal, at);
        let size = found.size();
        if size == 0 {
            return close(found, output, so_far);
        }
        so_far = carry_out(terms, plan, ledger, output, so_far, found, &tables);
        at += size;
    }
}
