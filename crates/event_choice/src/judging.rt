// What is known of an event before a word is written: whether a track that it gives an entry is full, and the figures.
ghost use Rattle.std.specs.Prelude.{◌≡◌, false, cond, not, ◌&&◌, ◌<◌, ◌≤◌, eqb, leb, length};
ghost use Rattle.plan.specs.Plans.{plan_in};
ghost use Rattle.std.proofs.Math.Option.{some};
ghost use Rattle.rules.specs.Plan.{no_state, optional};
ghost use Rattle.rules.specs.Event.{has_code};
ghost use Rattle.ledger.specs.Ladder.{IsLent, IsGoing, ledger_of};
ghost use Rattle.lookup.specs.Figures.{Figures};
ghost use Rattle.event_choice.specs.Next.{InRange, moves_of, code_by, is_last, closes_next};
ghost use Rattle.event_choice.specs.Chosen.{Surveyed, Judged};

use lookup::reading;
use plan::Plan;
use plan::fields::NO_STATE;
use rules::{Terms, Track};

// The code that a track is given: its transition's, or the replacement if its scope closes; 0 for none.
fn code_given(plan: &Plan, k: Track, x: u16, closes: bool) -> u16
    requires { (k.state < plan.now.records.counts.states) × ((x ≡ no_state → ⊥) → x < plan.now.records.counts.transitions) }
    ensures { result ≡ code_by (plan_in plan.now.records) k.state (optional x) closes }
{
    if x != NO_STATE {
        return plan.records.code_of(x as usize);
    }
    if !closes {
        return 0;
    }
    plan.records.replacement_of(k.state as usize)
}

// Whether a track that is given a code is full.
fn is_full(terms: Terms, plan: &Plan, k: Track, x: u16, closes: bool) -> bool
    requires { (k.state < plan.now.records.counts.states) × ((x ≡ no_state → ⊥) → x < plan.now.records.counts.transitions) }
    ensures { result ≡ (leb terms.limit k.count && not (eqb (code_by (plan_in plan.now.records) k.state (optional x) closes) 0)) }
{
    if k.count < terms.limit {
        return false;
    }
    code_given(plan, k, x, closes) != 0
}

// Whether a transition leads to a final state.
fn is_last(plan: &Plan, x: u16) -> bool
    requires { x < plan.now.records.counts.transitions }
    ensures { result ≡ is_last (plan_in plan.now.records) (some x) }
{
    let d = plan.records.destination_of(x as usize);
    plan.records.is_final(d as usize)
}

// Whether a transition gives an entry to a track that is full.
fn overfills(terms: Terms, plan: &Plan, ledger: &[u16], x: u16, t: usize) -> bool
    requires { IsLent terms plan.now.records ledger.now × (t < plan.now.records.counts.tracks) × (x < plan.now.records.counts.transitions) }
    ensures { result ≡ (has_code (plan_in plan.now.records) (some x) && leb terms.limit (length (ledger_of terms plan.now.records.counts ledger.now t).held)) }
{
    if plan.records.code_of(x as usize) == 0 {
        return false;
    }
    let k = reading::track(terms, plan.records.counts, ledger, t);
    terms.limit <= k.count
}

// Of the moves: how many, whether one leads to a final state, and whether one gives an entry to a track that is full.
#[derive(Clone, Copy)]
pub struct Survey {
    pub moved: u16,
    pub ends: bool,
    pub full: bool,
}

// What is known of the moves alone.
pub fn moves(terms: Terms, plan: &Plan, ledger: &[u16], taken: &[u16; 32]) -> Survey
    requires { IsLent terms plan.now.records ledger.now × InRange plan.now.records.counts taken.now }
    ensures { Surveyed terms (plan_in plan.now.records) (ledger_of terms plan.now.records.counts ledger.now) taken.now plan.now.records.counts.tracks result }
{
    let mut n: u16 = 0;
    let mut ends = false;
    let mut full = false;
    for t in 0..plan.records.counts.tracks {
        let x = taken[t];
        if x != NO_STATE {
            n += 1;
            ends = ends | is_last(plan, x);
            full = full | overfills(terms, plan, ledger, x, t);
        }
    }
    Survey {
        moved: n,
        ends,
        full,
    }
}

// Of an event: how many scopes close, and whether a track that it gives an entry is full.
#[derive(Clone, Copy)]
pub struct Verdict {
    pub closed: u16,
    pub full: bool,
}

// The verdict on the moves and the closings.
pub fn judge(
    terms: Terms,
    plan: &Plan,
    ledger: &[u16],
    taken: &[u16; 32],
    closing: &[bool; 32],
) -> Verdict
    requires { IsGoing terms plan.now.records ledger.now
        × InRange plan.now.records.counts taken.now
        × Figures false closing.now plan.now.records.counts.tracks (closes_next (plan_in plan.now.records) (ledger_of terms plan.now.records.counts ledger.now) (moves_of taken.now plan.now.records.counts.tracks)) }
    ensures { Judged terms (plan_in plan.now.records) (ledger_of terms plan.now.records.counts ledger.now) (moves_of taken.now plan.now.records.counts.tracks) plan.now.records.counts.tracks result }
{
    let mut closed: u16 = 0;
    let mut full = false;
    for t in 0..plan.records.counts.tracks {
        let k = reading::track(terms, plan.records.counts, ledger, t);
        let x = taken[t];
        let closes = closing[t];
        closed += u16::from(closes);
        full = full | is_full(terms, plan, k, x, closes);
    }
    Verdict { closed, full }
}
