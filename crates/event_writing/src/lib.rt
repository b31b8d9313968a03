// The writing of an event, as the rules have it: the movers install their entries, all enter their destinations, scopes close. Finish is apart.
#![tactic(auto)]

ghost use Rattle.std.specs.Prelude.{◌≡◌, true, false, ◌<◌, length, get_or};
ghost use Rattle.plan.specs.Plans.{plan_in};
ghost use Rattle.rules.specs.Plan.{no_state, optional, replacement, first_state};
ghost use Rattle.rules.specs.Ledger.{written, is_awake};
ghost use Rattle.rules.specs.Event.{installed, installed_by, destination_of, has_code, moved, closed};
ghost use Rattle.ledger.specs.Ladder.{Tidy, IsGoing, ledger_of};
ghost use Rattle.lookup.specs.Figures.{Figures, Numbers};
ghost use Rattle.lookup.specs.OneTrack.{with_configuration};
ghost use Rattle.event_choice.specs.Next.{InRange, moves_of};
ghost use Rattle.event_choice.specs.Chosen.{arguments_of, Chosen};
ghost use Rattle.event_writing.specs.EventParts.{Movers, Closings, is_closed_by, closed_by};

use event_choice::Choice;
use ledger::track;
use lookup::reading;
use opening::entering;
use plan::Plan;
use plan::fields::NO_STATE;
use rules::{Counts, Mode, Terms};

// Installs a code, if it is not 0, as a track's newest entry.
fn give(terms: Terms, c: Counts, ledger: &mut [u16], t: usize, code: u16, deviation: u16)
    requires { Tidy terms ledger.old c.tracks × (t < c.tracks) × ((code ≡ 0 → ⊥) → length (ledger_of terms c ledger.old t).held < terms.limit) }
    ensures { ledger.new
        ≡ with_configuration terms c ledger.old t (installed code deviation (ledger_of terms c ledger.old t)) }
{
    if code == 0 {
        return;
    }
    track::install(terms, ledger, t, code, deviation);
}

// A track that takes a transition, 65535 for none, installs its entry; the state that it enters.
fn install_move(terms: Terms, plan: &Plan, ledger: &mut [u16], t: usize, x: u16) -> u16
    requires { Tidy terms ledger.old plan.now.records.counts.tracks
        × (t < plan.now.records.counts.tracks)
        × ((x ≡ no_state → ⊥) → x < plan.now.records.counts.transitions)
        × (has_code (plan_in plan.now.records) (optional x) ≡ true → length (ledger_of terms plan.now.records.counts ledger.old t).held < terms.limit) }
    ensures { (ledger.new
        ≡ with_configuration terms plan.now.records.counts ledger.old t (installed_by (plan_in plan.now.records) (optional x) (ledger_of terms plan.now.records.counts ledger.old t)))
        × (optional result ≡ destination_of (plan_in plan.now.records) (optional x)) }
{
    if x == NO_STATE {
        return NO_STATE;
    }
    let code = plan.records.code_of(x as usize);
    let deviation = plan.records.deviation_of(x as usize);
    give(terms, plan.records.counts, ledger, t, code, deviation);
    plan.records.destination_of(x as usize)
}

// Every mover installs its entry; the state that each track enters, 65535 for none.
fn install_moves(terms: Terms, plan: &Plan, ledger: &mut [u16], taken: &[u16; 32]) -> [u16; 32]
    requires { Tidy terms ledger.old plan.now.records.counts.tracks
        × InRange plan.now.records.counts taken.now
        × Movers terms (plan_in plan.now.records) (ledger_of terms plan.now.records.counts ledger.old) (moves_of taken.now plan.now.records.counts.tracks) }
    ensures { (ledger.new
        ≡ written terms plan.now.records.counts.tracks
        (λ t. installed_by (plan_in plan.now.records) (moves_of taken.now plan.now.records.counts.tracks t) (ledger_of terms plan.now.records.counts ledger.old t)) ledger.old)
        × Numbers result plan.now.records.counts.tracks (λ t. destination_of (plan_in plan.now.records) (moves_of taken.now plan.now.records.counts.tracks t)) }
{
    let mut to = [NO_STATE; 32];
    for t in 0..plan.records.counts.tracks {
        to[t] = install_move(terms, plan, ledger, t, taken[t]);
    }
    to
}

// Whether a track in this mode is in a scope that closes.
fn is_closed(plan: &Plan, closing: &[bool; 32], m: Mode, t: usize) -> bool
    requires { t < plan.now.records.counts.tracks }
    ensures { result ≡ is_closed_by (plan_in plan.now.records) closing.now t (is_awake m) }
{
    let u = reading::host_track(plan, t);
    if u == NO_STATE {
        return false;
    }
    if !m.is_awake() {
        return false;
    }
    closing[u as usize]
}

// A track goes to sleep if its scope closes, and is given the replacement if its own does.
fn close_track(terms: Terms, plan: &Plan, ledger: &mut [u16], closing: &[bool; 32], t: usize)
    requires { Tidy terms ledger.old plan.now.records.counts.tracks
        × (t < plan.now.records.counts.tracks)
        × (get_or closing.now t false ≡ true → ((ledger_of terms plan.now.records.counts ledger.old t).state < plan.now.records.counts.states)
        × ((replacement (plan_in plan.now.records) (ledger_of terms plan.now.records.counts ledger.old t).state ≡ 0 → ⊥) → length (ledger_of terms plan.now.records.counts ledger.old t).held < terms.limit)) }
    ensures { ledger.new
        ≡ with_configuration terms plan.now.records.counts ledger.old t
        (closed_by (plan_in plan.now.records) closing.now t (ledger_of terms plan.now.records.counts ledger.old t)) }
{
    let k = reading::track(terms, plan.records.counts, ledger, t);
    if is_closed(plan, closing, k.mode, t) {
        track::put_to_sleep(terms, ledger, t);
        return;
    }
    if !closing[t] {
        return;
    }
    let code = plan.records.replacement_of(k.state as usize);
    give(terms, plan.records.counts, ledger, t, code, NO_STATE);
}

// The scopes that are due to close do.
fn close_scopes(terms: Terms, plan: &Plan, ledger: &mut [u16], closing: &[bool; 32])
    requires { Tidy terms ledger.old plan.now.records.counts.tracks
        × Closings terms (plan_in plan.now.records) (ledger_of terms plan.now.records.counts ledger.old) closing.now }
    ensures { ledger.new
        ≡ written terms plan.now.records.counts.tracks (closed (plan_in plan.now.records) (ledger_of terms plan.now.records.counts ledger.old)) ledger.old }
{
    for t in 0..plan.records.counts.tracks {
        close_track(terms, plan, ledger, closing, t);
    }
}

// Writes the moves and the closings of the event, given the first state of each track.
pub fn write(terms: Terms, plan: &Plan, ledger: &mut [u16], choice: Choice, firsts: &[u16; 32])
    requires { IsGoing terms plan.now.records ledger.old
        × Chosen terms (plan_in plan.now.records) (ledger_of terms plan.now.records.counts ledger.old) choice
        × (choice.full ≡ false)
        × Figures 0 firsts.now plan.now.records.counts.tracks (first_state (plan_in plan.now.records)) }
    ensures { ledger.new
        ≡ written terms plan.now.records.counts.tracks
        (closed (plan_in plan.now.records) (moved (plan_in plan.now.records) (ledger_of terms plan.now.records.counts ledger.old) (arguments_of choice)))
        ledger.old }
{
    let to = install_moves(terms, plan, ledger, &choice.taken);
    entering::enter_all(terms, plan, ledger, *firsts, to);
    if choice.closed == 0 {
        return;
    }
    close_scopes(terms, plan, ledger, &choice.closing);
}
