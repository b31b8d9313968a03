// Refusals 8 to 14, judged over the whole plan: for each a test of one record, and whether some record of the plan meets it.
ghost use Rattle.std.specs.Prelude.{◌≡◌, false, ◌+◌, ◌<◌};
ghost use Rattle.plan.specs.Plans.{plan_in};
ghost use Rattle.rules.specs.Fold.{some_below};
ghost use Rattle.rules.specs.Plan.{plan_of, first_state, is_in, is_hosting, transition, mover};
ghost use Rattle.rules.specs.Acceptance.{no_track, bad_state, bad_host, bad_first, bad_hosting, bad_transition, bad_deviation};
ghost use Rattle.plan.specs.Passes.{first_marks, Ends};

use plan::Records;
use plan::chains::KeyChains;
use plan::fields::NO_STATE;
use rules::Counts;

// 8: there is no track.
pub fn no_track(plan: &[u8], c: Counts) -> bool
    ensures { result ≡ no_track (plan_of plan.now c) }
{
    c.tracks == 0
}

// 9: a state names no track, or its final field exceeds 1.
#[tactic(auto, using(plan::proofs::FieldLaws::track_count_lem), unfolding(rules::specs::Acceptance::bad_state))]
pub fn bad_state(records: &Records, s: usize) -> bool
    requires { s < records.now.counts.states }
    ensures { result ≡ bad_state (plan_in records.now) s }
{
    records.counts.tracks <= usize::from(records.track_of(s)) || 1 < records.final_field(s)
}

pub fn some_bad_state(records: &Records) -> bool
    ensures { result ≡ some_below records.now.counts.states (bad_state (plan_in records.now)) }
{
    (0..records.counts.states).any(|s| bad_state(records, s))
}

// 10: a host is neither 65535 nor a state of a lower-numbered track.
pub fn bad_host(records: &Records, t: usize) -> bool
    requires { t < records.now.counts.tracks }
    ensures { result ≡ bad_host (plan_in records.now) t }
{
    let h = records.host_word(t);
    let s = usize::from(h);
    h != NO_STATE && (records.counts.states <= s || t <= usize::from(records.track_of(s)))
}

pub fn some_bad_host(records: &Records) -> bool
    ensures { result ≡ some_below records.now.counts.tracks (bad_host (plan_in records.now)) }
{
    (0..records.counts.tracks).any(|t| bad_host(records, t))
}

// 11: a track has no state, or its first state is final.
pub fn bad_first(records: &Records, t: usize, first: u16) -> bool
    requires { first ≡ first_state (plan_in records.now) t }
    ensures { result ≡ bad_first (plan_in records.now) t }
{
    let s = usize::from(first);
    records.counts.states <= s || records.is_final(s)
}

// The same, where `firsts` has each track's first state. Every state's track exists, as 9 has it.
fn starts_badly(records: &Records, firsts: &[u16; 32], t: usize) -> bool
    requires { (some_below records.now.counts.states (bad_state (plan_in records.now)) ≡ false)
        × (firsts.now ≡ first_marks (plan_in records.now) records.now.counts.states)
        × (t < records.now.counts.tracks) }
    ensures { result ≡ bad_first (plan_in records.now) t }
{
    bad_first(records, t, firsts[t])
}

pub fn some_bad_first(records: &Records, firsts: &[u16; 32]) -> bool
    requires { (some_below records.now.counts.states (bad_state (plan_in records.now)) ≡ false)
        × (firsts.now ≡ first_marks (plan_in records.now) records.now.counts.states) }
    ensures { result ≡ some_below records.now.counts.tracks (bad_first (plan_in records.now)) }
{
    (0..records.counts.tracks).any(|t| starts_badly(records, firsts, t))
}

// 12: a final state hosts a track, or a state that hosts none has a replacement.
pub fn bad_hosting(records: &Records, s: usize, hosting: bool) -> bool
    requires { (s < records.now.counts.states) × (hosting ≡ is_hosting (plan_in records.now) s) }
    ensures { result ≡ bad_hosting (plan_in records.now) s }
{
    if hosting {
        records.is_final(s)
    } else {
        records.replacement_of(s) != 0
    }
}

// The same, where `scopes` has the tracks that each state hosts.
fn hosts_badly(records: &Records, scopes: &KeyChains<128, 32>, s: usize) -> bool
    requires { Ends (is_in (plan_in records.now)) 128 records.now.counts.tracks scopes.now.last × (s < records.now.counts.states) }
    ensures { result ≡ bad_hosting (plan_in records.now) s }
{
    bad_hosting(records, s, scopes.last(s).is_some())
}

pub fn some_bad_hosting(records: &Records, scopes: &KeyChains<128, 32>) -> bool
    requires { Ends (is_in (plan_in records.now)) 128 records.now.counts.tracks scopes.now.last }
    ensures { result ≡ some_below records.now.counts.states (bad_hosting (plan_in records.now)) }
{
    (0..records.counts.states).any(|s| hosts_badly(records, scopes, s))
}

// 13: a transition's source or destination does not exist, they lie in two tracks, the source is final, or the event is 0.
pub fn bad_transition(records: &Records, x: usize) -> bool
    requires { x < records.now.counts.transitions }
    ensures { result ≡ bad_transition (plan_in records.now) x }
{
    let source = usize::from(records.source_of(x));
    if records.counts.states <= source {
        return true;
    }
    let destination = usize::from(records.destination_of(x));
    if records.counts.states <= destination {
        return true;
    }
    if records.track_of(source) != records.track_of(destination) {
        return true;
    }
    if records.is_final(source) {
        return true;
    }
    records.event_of(x) == 0
}

pub fn some_bad_transition(records: &Records) -> bool
    ensures { result ≡ some_below records.now.counts.transitions (bad_transition (plan_in records.now)) }
{
    (0..records.counts.transitions).any(|x| bad_transition(records, x))
}

// 14: a deviation other than 65535 is no state of that track, is final, stands in a hosted track, or comes with code 0.
// The transition's source is a state of some track, as 9 and 13 have it.
pub fn bad_deviation(records: &Records, x: usize) -> bool
    requires { (x < records.now.counts.transitions)
        × ((transition (plan_in records.now) x).source < records.now.counts.states)
        × (mover (plan_in records.now) x < records.now.counts.tracks) }
    ensures { result ≡ bad_deviation (plan_in records.now) x }
{
    let deviation = records.deviation_of(x);
    if deviation == NO_STATE {
        return false;
    }
    let s = usize::from(deviation);
    let t = usize::from(records.track_of(usize::from(records.source_of(x))));
    if !records.is_state_of(t, s) {
        return true;
    }
    if records.is_final(s) {
        return true;
    }
    if !records.is_root(t) {
        return true;
    }
    records.code_of(x) == 0
}

// The same of a plan in which neither 9 nor 13 applies.
fn deviates_badly(records: &Records, x: usize) -> bool
    requires { (some_below records.now.counts.states (bad_state (plan_in records.now)) ≡ false)
        × (some_below records.now.counts.transitions (bad_transition (plan_in records.now)) ≡ false)
        × (x < records.now.counts.transitions) }
    ensures { result ≡ bad_deviation (plan_in records.now) x }
{
    bad_deviation(records, x)
}

pub fn some_bad_deviation(records: &Records) -> bool
    requires { (some_below records.now.counts.states (bad_state (plan_in records.now)) ≡ false)
        × (some_below records.now.counts.transitions (bad_transition (plan_in records.now)) ≡ false) }
    ensures { result ≡ some_below records.now.counts.transitions (bad_deviation (plan_in records.now)) }
{
    (0..records.counts.transitions).any(|x| deviates_badly(records, x))
}
