// Runs of like records: the tracks, the states, the transitions, the windows and the grants at the front of a plan's bytes.
ghost use Rattle.std.specs.Prelude.{◌≡◌, true, ◌+◌, ◌*◌, ◌≤◌, length};
ghost use Rattle.rules.specs.Record.{size_at, kind_at, length_of};
ghost use Rattle.plan_scan.specs.Kinds.{number_of};
ghost use Rattle.plan_scan.specs.RecordRuns.{Run, InRuns, EndsAfter};

use crate::kinds::Kind;
use plan::fields::{
    GRANT_LENGTH, STATE_LENGTH, TRACK_LENGTH, TRANSITION_LENGTH, WINDOW_LENGTH, word_at,
};
use rules::Counts;

// The length and the kind of the record at a place as one number.
fn head_at(plan: &[u8], at: usize) -> usize
    requires { at + 4 ≤ length plan.now }
    ensures { (result ≡ size_at plan.now at + 65536 * kind_at plan.now at) × (size_at plan.now at ≤ 65535) }
{
    usize::from(word_at(plan, at)) + 65536 * usize::from(word_at(plan, at + 2))
}

// Those of a kind's records.
fn head_of(kind: Kind) -> usize
    ensures { result ≡ length_of (number_of kind) + 65536 * number_of kind }
{
    kind.length() + 65536 * (kind as usize)
}

// How many records of a kind stand one after the other from a place on, at most so many.
fn run_from(plan: &[u8], at: usize, kind: Kind, most: usize) -> usize
    requires { at ≤ length plan.now }
    ensures { (result ≤ most) × (at + length_of (number_of kind) * result ≤ length plan.now) × Run plan.now (number_of kind) at result }
{
    let size = kind.length();
    let wanted = head_of(kind);
    let room = most.min((plan.len() - at) / size);
    for n in 0..room {
        if head_at(plan, at + size * n) != wanted {
            return n;
        }
    }
    room
}

// How many tracks, then states, then transitions stand at the front, within the limits, and then windows and grants, which have none here.
#[tactic(auto, unfolding(rules::specs::Record::length_of))]
pub fn runs(plan: &[u8]) -> Counts
    ensures { InRuns plan.now result }
{
    let tracks = run_from(plan, 0, Kind::Track, 32);
    let states_from = TRACK_LENGTH * tracks;
    let states = run_from(plan, states_from, Kind::State, 128);
    let transitions_from = states_from + STATE_LENGTH * states;
    let transitions = run_from(plan, transitions_from, Kind::Transition, 256);
    let windows_from = transitions_from + TRANSITION_LENGTH * transitions;
    let windows = run_from(plan, windows_from, Kind::Window, plan.len());
    let grants_from = windows_from + WINDOW_LENGTH * windows;
    let grants = run_from(plan, grants_from, Kind::Grant, plan.len());
    Counts {
        tracks,
        states,
        transitions,
        windows,
        grants,
    }
}

// Whether an end record and nothing else follows them.
#[tactic(auto, unfolding(rules::specs::Record::length_of))]
pub fn ends_after(plan: &[u8], c: Counts) -> bool
    requires { InRuns plan.now c }
    ensures { result ≡ true → EndsAfter plan.now c }
{
    let windows_from = TRACK_LENGTH * c.tracks
        + STATE_LENGTH * c.states
        + TRANSITION_LENGTH * c.transitions;
    let grants_from = windows_from + WINDOW_LENGTH * c.windows;
    let at = grants_from + GRANT_LENGTH * c.grants;
    plan.len() - at == 4 && head_at(plan, at) == head_of(Kind::End)
}
