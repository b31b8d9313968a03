// The plan reader: plan bytes to an accepted plan, or to the refusal 2 to 16, 25 or 27. It takes any bytes.
#![tactic(auto)]

pub mod events;
pub mod heights;
pub mod refusals;

ghost use Rattle.std.specs.Prelude.{◌≡◌, OnOk, IfOk};
ghost use Rattle.plan.specs.Plans.{plan_in};
ghost use Rattle.rules.specs.Plan.{plan_of};
ghost use Rattle.rules.specs.Acceptance.{accepted, judge_plan, read_plan};
ghost use Rattle.rules.specs.Answers.{plan_told};
ghost use Rattle.rules.specs.Refusals.{refusal_number};
ghost use Rattle.plan.specs.Passes.{first_marks};
ghost use Rattle.plan_reader.specs.Told.{reading_told};
ghost use Rattle.plan_reader.specs.TracksPass.{TracksPass};

use crate::events::some_repeated_event;
use crate::heights::some_too_high;
use crate::refusals::{
    no_track, some_bad_deviation, some_bad_first, some_bad_host, some_bad_hosting, some_bad_state,
    some_bad_transition,
};
use plan::chains::KeyChains;
use plan::passes::{chain_tracks, first_states};
use plan::{Plan, Records};
use plan_grants::some_bad_grant;
use plan_scan::records::scan_records;
use plan_windows::some_bad_window;
use rules::{Counts, PlanAnswer, Refusal};

// The lowest refusal 13 to 16, 25 or 27 that applies anywhere in a plan in which none of 8 to 12 does. `scopes` has the tracks of each scope.
fn judge_transitions(records: &Records, scopes: &KeyChains<128, 32>) -> Result<(), Refusal>
    requires { TracksPass records.now.bytes.now records.now.counts scopes.now.last scopes.now.before }
    ensures { refusal_number result ≡ judge_plan (plan_in records.now) }
{
    if some_bad_transition(records) {
        return Err(Refusal::Transition);
    }
    if some_bad_deviation(records) {
        return Err(Refusal::Deviation);
    }
    if some_repeated_event(records) {
        return Err(Refusal::RepeatedEvent);
    }
    if some_too_high(records, scopes) {
        return Err(Refusal::TooHigh);
    }
    if some_bad_window(records) {
        return Err(Refusal::Window);
    }
    if some_bad_grant(records) {
        return Err(Refusal::Grant);
    }
    Ok(())
}

// The lowest refusal 8 to 16, 25 or 27 that applies anywhere in the plan. Where none does, `firsts` has each track's first state.
fn judge_plan(records: &Records, firsts: &mut [u16; 32]) -> Result<(), Refusal>
    ensures number { refusal_number result ≡ judge_plan (plan_in records.now) }
    ensures firsts { OnOk result (firsts.new ≡ first_marks (plan_in records.now) records.now.counts.states) }
{
    if no_track(records.bytes, records.counts) {
        return Err(Refusal::NoTrack);
    }
    if some_bad_state(records) {
        return Err(Refusal::State);
    }
    if some_bad_host(records) {
        return Err(Refusal::Host);
    }
    *firsts = first_states(records);
    if some_bad_first(records, firsts) {
        return Err(Refusal::FirstState);
    }
    let scopes = chain_tracks(records);
    if some_bad_hosting(records, &scopes) {
        return Err(Refusal::Hosting);
    }
    judge_transitions(records, &scopes)
}

// Reads a plan: it is accepted, or turned back by the first refusal 2 to 16, 25 or 27. Where it is accepted, `firsts` has each track's first state.
pub fn read_with<'a>(bytes: &'a [u8], firsts: &mut [u16; 32]) -> Result<Plan<'a>, Refusal>
    ensures reading { reading_told result ≡ read_plan bytes.now }
    ensures bytes { IfOk result (λ p. p.records.bytes.now ≡ bytes.now) }
    ensures firsts { IfOk result (λ p. firsts.new ≡ first_marks (plan_in p.records) p.records.counts.states) }
{
    let counts = scan_records(bytes)?;
    let records = Records { bytes, counts };
    judge_plan(&records, firsts)?;
    Ok(Plan { records })
}

// Reads a plan: it is accepted, or turned back by the first refusal 2 to 16, 25 or 27.
pub fn read<'a>(bytes: &'a [u8]) -> Result<Plan<'a>, Refusal>
    ensures reading { reading_told result ≡ read_plan bytes.now }
    ensures bytes { IfOk result (λ p. p.records.bytes.now ≡ bytes.now) }
{
    let mut firsts: [u16; 32] = [0; 32];
    read_with(bytes, &mut firsts)
}

// Reads a plan: its counts, or the first refusal 2 to 16, 25 or 27. Where it is accepted, `firsts` has each track's first state.
pub fn read_plan_with(plan: &[u8], firsts: &mut [u16; 32]) -> PlanAnswer
    ensures { (plan_told result ≡ read_plan plan.now)
        × ((c : Counts) → plan_told result ≡ accepted c → firsts.new ≡ first_marks (plan_of plan.now c) c.states) }
{
    match read_with(plan, firsts) {
        Ok(read) => PlanAnswer::Accepted(read.records.counts),
        Err(refusal) => PlanAnswer::Refused(refusal.number()),
    }
}

// Reads a plan: its counts, or the first refusal 2 to 16, 25 or 27.
pub fn read_plan(plan: &[u8]) -> PlanAnswer
    ensures { plan_told result ≡ read_plan plan.now }
{
    let mut firsts: [u16; 32] = [0; 32];
    read_plan_with(plan, &mut firsts)
}
