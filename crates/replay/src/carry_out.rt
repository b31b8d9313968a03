// One record of the journal: its call, its line, its figures in the tally.
ghost use Rattle.std.specs.Prelude.{◌+◌, ◌<◌, ◌^◌};
ghost use Rattle.plan.specs.Plans.{plan_in};
ghost use Rattle.rules.specs.Plan.{first_state};
ghost use Rattle.rules.specs.Call.{event, signal, fire};
ghost use Rattle.rules.specs.Journal.{fire_lowest};
ghost use Rattle.ledger.specs.Ladder.{Room};
ghost use Rattle.lookup.specs.Figures.{Figures};
ghost use Rattle.event_choice.specs.Chosen.{told};
ghost use Rattle.journal.specs.Records.{record_told, size_of};
ghost use Rattle.replay.specs.CarriedOut.{call_at, Prepared, Tables, CameTo, CarriedOut};

use event_choice::Asked;
use journal::record::Record;
use journal::tally::Tally;
use journal::{held, lines, tally};
use lookup::opens;
use plan::Plan;
use rules::{Counts, Terms};
use signed::words::join;
use transition_index::TransitionIndex;

// How far a run has come: the place in the output, and the tally.
#[derive(Clone, Copy)]
pub struct Progress {
    pub place: usize,
    pub tally: Tally,
}

// What is read of the plan once: the first state of each track, and the index of its transitions.
#[derive(Clone, Copy)]
pub struct PlanTables {
    pub firsts: [u16; 32],
    pub index: TransitionIndex,
}

// How far a run has come after a record that left this ledger, wrote its line up to the place and did so many firings.
fn come_to(
    terms: Terms,
    c: Counts,
    ledger: &[u16],
    from: Progress,
    place: usize,
    fired: u32,
) -> Progress
    requires { Room terms ledger.now c.tracks × (from.tally.fired + fired < 2 ^ 32) }
    ensures { CameTo terms c ledger.now from place fired result }
{
    let held = held::held_total(terms, c, ledger);
    Progress {
        place,
        tally: tally::advanced(from.tally, held, fired),
    }
}

fn carry_out_event(
    terms: Terms,
    plan: &Plan,
    ledger: &mut [u16],
    output: &mut [u8],
    from: Progress,
    asked: Asked,
    tables: &PlanTables,
) -> Progress
    requires { Prepared terms plan.now.records.bytes.now plan.now.records.counts ledger.old output.old from
        × Tables plan.now.records.bytes.now plan.now.records.counts tables.now }
    ensures { CarriedOut terms plan.now.records.bytes.now plan.now.records.counts (event (told asked)) ledger.old output.old from ledger.new output.new result }
{
    let answer = event_step::event::event_indexed(
        terms,
        plan,
        ledger,
        asked,
        &tables.firsts,
        &tables.index,
    );
    let place = lines::event_line(output, from.place, asked.event, answer);
    come_to(terms, plan.records.counts, ledger, from, place, 0)
}

fn carry_out_signal(
    terms: Terms,
    plan: &Plan,
    ledger: &mut [u16],
    output: &mut [u8],
    from: Progress,
    society: u16,
) -> Progress
    requires { Prepared terms plan.now.records.bytes.now plan.now.records.counts ledger.old output.old from }
    ensures { CarriedOut terms plan.now.records.bytes.now plan.now.records.counts (signal (record { society = society }))
        ledger.old output.old from ledger.new output.new result }
{
    let answer = withdrawal::signal::signal(terms, plan, ledger, society);
    let place = lines::signal_line(output, from.place, answer);
    come_to(terms, plan.records.counts, ledger, from, place, 0)
}

fn carry_out_fire(
    terms: Terms,
    plan: &Plan,
    ledger: &mut [u16],
    output: &mut [u8],
    from: Progress,
    track: u16,
    society: u16,
    firsts: &[u16; 32],
) -> Progress
    requires { Prepared terms plan.now.records.bytes.now plan.now.records.counts ledger.old output.old from
        × Figures 0 firsts.now plan.now.records.counts.tracks (first_state (plan_in plan.now.records)) }
    ensures { CarriedOut terms plan.now.records.bytes.now plan.now.records.counts (fire (record { track = track; society = society }))
        ledger.old output.old from ledger.new output.new result }
{
    let opens = opens::open_scopes(terms, plan, ledger);
    let answer = withdrawal::fire::fire(terms, plan, ledger, track, society, &opens, firsts);
    let place = lines::fire_line(output, from.place, track, answer);
    let fired = tally::firings_of(answer);
    come_to(terms, plan.records.counts, ledger, from, place, fired)
}

// Fires the lowest ready track that the society may fire, or a track that does not exist.
fn carry_out_lowest(
    terms: Terms,
    plan: &Plan,
    ledger: &mut [u16],
    output: &mut [u8],
    from: Progress,
    society: u16,
    firsts: &[u16; 32],
) -> Progress
    requires { Prepared terms plan.now.records.bytes.now plan.now.records.counts ledger.old output.old from
        × Figures 0 firsts.now plan.now.records.counts.tracks (first_state (plan_in plan.now.records)) }
    ensures { CarriedOut terms plan.now.records.bytes.now plan.now.records.counts (call_at terms plan.now.records.bytes.now plan.now.records.counts ledger.old (fire_lowest society))
        ledger.old output.old from ledger.new output.new result }
{
    let lowest = held::lowest_ready(terms, plan, ledger, society);
    carry_out_fire(terms, plan, ledger, output, from, lowest, society, firsts)
}

// Does what the record asks for, given what is read of the plan once.
pub fn carry_out(
    terms: Terms,
    plan: &Plan,
    ledger: &mut [u16],
    output: &mut [u8],
    from: Progress,
    found: Record,
    tables: &PlanTables,
) -> Progress
    requires { Prepared terms plan.now.records.bytes.now plan.now.records.counts ledger.old output.old from
        × (0 < size_of (record_told found))
        × Tables plan.now.records.bytes.now plan.now.records.counts tables.now }
    ensures { CarriedOut terms plan.now.records.bytes.now plan.now.records.counts (call_at terms plan.now.records.bytes.now plan.now.records.counts ledger.old (record_told found))
        ledger.old output.old from ledger.new output.new result }
{
    match found {
        Record::Ended => from,
        Record::Broken => from,
        Record::Event(event, low, high, society) => carry_out_event(
            terms,
            plan,
            ledger,
            output,
            from,
            Asked {
                event,
                day: join(low, high),
                society,
            },
            tables,
        ),
        Record::Signal(society) => { carry_out_signal(terms, plan, ledger, output, from, society) }
        Record::Fire(track, society) => carry_out_fire(
            terms,
            plan,
            ledger,
            output,
            from,
            track,
            society,
            &tables.firsts,
        ),
        Record::FireLowest(society) => carry_out_lowest(
            terms,
            plan,
            ledger,
            output,
            from,
            society,
            &tables.firsts,
        ),
    }
}
