// Abandoning: "an open scope goes to sleep, with nothing installed, if its tracks are all undoing, hold nothing and have no open scope".
// A track for which this fails is busy. Each track's open scope has its busy tracks counted; one with none is due, and goes to sleep.
// Its host may then be busy no longer, so that the host's own scope is due: recursion to the host's track, whose number is lower.
ghost use Rattle.std.specs.Prelude.{◌≡◌, false, ◌&&◌, ◌+◌, ◌<◌, eqb, get_or};
ghost use Rattle.plan.specs.Plans.{plan_in};
ghost use Rattle.rules.specs.Ledger.{is_undoing, is_empty, written};
ghost use Rattle.rules.specs.Scope.{has_open_scope};
ghost use Rattle.rules.specs.Signal.{abandoned};
ghost use Rattle.ledger.specs.Ladder.{Room, Tidy, IsLent, ledger_of};
ghost use Rattle.lookup.specs.Figures.{Figures};
ghost use Rattle.lookup.specs.OneTrack.{with_configuration};
ghost use Rattle.withdrawal.specs.Scopes.{Nested, is_busy, Counted, kept_by, Due, Climbed, LeftOpen};

use ledger::track;
use lookup::{opens, reading};
use plan::Plan;
use plan::fields::NO_STATE;
use rules::{Counts, Terms};

// For each track: whether it has an open scope, and how many busy tracks it hosts there.
#[derive(Clone, Copy)]
pub struct Scopes {
    pub opens: [bool; 32],
    pub busy: [u8; 32],
}

// Whether a track is undoing and holds nothing.
fn is_taken_back(terms: Terms, c: Counts, ledger: &[u16], t: usize) -> bool
    requires { Room terms ledger.now c.tracks × (t < c.tracks) }
    ensures { result ≡ (is_undoing (ledger_of terms c ledger.now t).mode && is_empty (ledger_of terms c ledger.now t).held) }
{
    let k = reading::track(terms, c, ledger, t);
    k.mode.is_undoing() && k.count == 0
}

// Whether a track is busy, given the tracks that have an open scope.
fn is_busy(terms: Terms, plan: &Plan, ledger: &[u16], opens: &[bool; 32], t: usize) -> bool
    requires { Room terms ledger.now plan.now.records.counts.tracks
        × (t < plan.now.records.counts.tracks)
        × (get_or opens.now t false ≡ has_open_scope (plan_in plan.now.records) (ledger_of terms plan.now.records.counts ledger.now) t) }
    ensures { result ≡ is_busy (plan_in plan.now.records) (ledger_of terms plan.now.records.counts ledger.now) t }
{
    reading::is_awake(terms, plan.records.counts, ledger, t)
        && (!is_taken_back(terms, plan.records.counts, ledger, t) || opens[t])
}

// Adds a track, if it is busy, to the count of its host's track.
fn count_track(
    terms: Terms,
    plan: &Plan,
    ledger: &[u16],
    opens: &[bool; 32],
    busy: &mut [u8; 32],
    t: usize,
)
    requires { IsLent terms plan.now.records ledger.now
        × (t < plan.now.records.counts.tracks)
        × Counted (plan_in plan.now.records) (ledger_of terms plan.now.records.counts ledger.now) opens.now busy.old t }
    ensures { Counted (plan_in plan.now.records) (ledger_of terms plan.now.records.counts ledger.now) opens.now busy.new (t + 1) }
{
    if !is_busy(terms, plan, ledger, opens, t) {
        return;
    }
    let u = reading::host_track(plan, t);
    if u == NO_STATE {
        return;
    }
    let at = u as usize;
    let count = busy[at];
    busy[at] = count + 1;
}

// The open scopes, with the busy tracks of each counted.
fn open_scopes(terms: Terms, plan: &Plan, ledger: &[u16]) -> Scopes
    requires { IsLent terms plan.now.records ledger.now }
    ensures { Counted (plan_in plan.now.records) (ledger_of terms plan.now.records.counts ledger.now) result.opens result.busy plan.now.records.counts.tracks }
{
    let opens = opens::open_scopes(terms, plan, ledger);
    let mut busy: [u8; 32] = [0; 32];
    for t in 0..plan.records.counts.tracks {
        count_track(terms, plan, ledger, &opens, &mut busy, t);
    }
    Scopes { opens, busy }
}

// The scope of a track, which is due, goes to sleep. If that leaves the track busy no longer, its host's track has one busy track fewer,
// and where that was the last one the scope there is next.
fn climb(terms: Terms, plan: &Plan, ledger: &[u16], scopes: Scopes, t: usize) -> Scopes
    requires { Tidy terms ledger.now plan.now.records.counts.tracks
        × Due (plan_in plan.now.records) (ledger_of terms plan.now.records.counts ledger.now) scopes t }
    ensures { Climbed (plan_in plan.now.records) (ledger_of terms plan.now.records.counts ledger.now) scopes result t }
{
    let mut next = scopes;
    next.opens[t] = false;
    if !is_taken_back(terms, plan.records.counts, ledger, t) {
        return next;
    }
    let up = reading::host_track(plan, t);
    if up == NO_STATE {
        return next;
    }
    let at = up as usize;
    let count = next.busy[at] - 1;
    next.busy[at] = count;
    if count != 0 {
        return next;
    }
    climb(terms, plan, ledger, next, at)
}

// Whether a scope is due: it is open, and has no busy track.
fn is_due(opened: bool, busy: u8) -> bool
    ensures { result ≡ (opened && eqb busy 0) }
{
    opened && busy == 0
}

// The scopes that are open once nothing is due any more, given the open ones.
fn left_open(terms: Terms, plan: &Plan, ledger: &[u16], found: Scopes) -> Scopes
    requires { Tidy terms ledger.now plan.now.records.counts.tracks
        × Nested (plan_in plan.now.records) (ledger_of terms plan.now.records.counts ledger.now)
        × Counted (plan_in plan.now.records) (ledger_of terms plan.now.records.counts ledger.now) found.opens found.busy plan.now.records.counts.tracks }
    ensures { LeftOpen (plan_in plan.now.records) (ledger_of terms plan.now.records.counts ledger.now) result.opens }
{
    let mut scopes = found;
    for t in 0..plan.records.counts.tracks {
        if is_due(scopes.opens[t], scopes.busy[t]) {
            scopes = climb(terms, plan, ledger, scopes, t);
        }
    }
    scopes
}

// Puts a track to sleep if the scope that it is in is not left open.
fn leave_track(terms: Terms, plan: &Plan, ledger: &mut [u16], opens: &[bool; 32], t: usize)
    requires { Tidy terms ledger.old plan.now.records.counts.tracks × (t < plan.now.records.counts.tracks) }
    ensures { ledger.new
        ≡ with_configuration terms plan.now.records.counts ledger.old t (kept_by (plan_in plan.now.records) opens.now t (ledger_of terms plan.now.records.counts ledger.old t)) }
{
    if !reading::is_awake(terms, plan.records.counts, ledger, t) {
        return;
    }
    let u = reading::host_track(plan, t);
    if u == NO_STATE {
        return;
    }
    if opens[u as usize] {
        return;
    }
    track::put_to_sleep(terms, ledger, t);
}

// Puts every track to sleep whose scope is not left open.
fn leave_all(terms: Terms, plan: &Plan, ledger: &mut [u16], left: Scopes)
    requires { Tidy terms ledger.old plan.now.records.counts.tracks
        × LeftOpen (plan_in plan.now.records) (ledger_of terms plan.now.records.counts ledger.old) left.opens }
    ensures { (ledger.new
        ≡ written terms plan.now.records.counts.tracks (abandoned (plan_in plan.now.records) (ledger_of terms plan.now.records.counts ledger.old)) ledger.old)
        × Tidy terms ledger.new plan.now.records.counts.tracks }
{
    for t in 0..plan.records.counts.tracks {
        leave_track(terms, plan, ledger, &left.opens, t);
    }
}

// Abandoning, with nothing installed; the tracks whose scope is open then.
pub fn abandon(terms: Terms, plan: &Plan, ledger: &mut [u16]) -> [bool; 32]
    requires { Tidy terms ledger.old plan.now.records.counts.tracks
        × Nested (plan_in plan.now.records) (ledger_of terms plan.now.records.counts ledger.old) }
    ensures { (ledger.new
        ≡ written terms plan.now.records.counts.tracks (abandoned (plan_in plan.now.records) (ledger_of terms plan.now.records.counts ledger.old)) ledger.old)
        × Tidy terms ledger.new plan.now.records.counts.tracks
        × Figures false result plan.now.records.counts.tracks (has_open_scope (plan_in plan.now.records) (ledger_of terms plan.now.records.counts ledger.new)) }
{
    let found = open_scopes(terms, plan, ledger);
    let left = left_open(terms, plan, ledger, found);
    leave_all(terms, plan, ledger, left);
    left.opens
}
