// What soundness asks of scopes, by marks that one pass over the tracks sets for the states that host them.
ghost use Rattle.std.specs.Prelude.{◌≡◌, false};
ghost use Rattle.plan.specs.Plans.{plan_in};
ghost use Rattle.rules.specs.Fold.{every_below};
ghost use Rattle.rules.specs.Scope.{has_open_scope};
ghost use Rattle.ledger.specs.Ladder.{IsLent, ledger_of};
ghost use Rattle.lookup.specs.Figures.{Figures};
ghost use Rattle.soundness.specs.Parts.{Marked, sound_scope, well_marked};

use finish::done;
use lookup::reading;
use plan::Plan;
use plan::fields::NO_STATE;
use rules::Terms;

// Of the tracks in a scope whether some is awake, asleep, not forward in a final state, not bare.
#[derive(Clone, Copy, Default)]
pub struct ScopeMark {
    pub awake: bool,
    pub asleep: bool,
    pub unfinished: bool,
    pub busy: bool,
}

impl ScopeMark {
    // Whether the scope is as the clauses on scopes have it. One that is not open is.
    fn is_sound(self) -> bool
        ensures { result ≡ well_marked self }
    {
        !self.awake | (!self.asleep & self.unfinished & self.busy)
    }
}

// The mark of every scope, by the state that hosts it.
fn mark_scopes(terms: Terms, plan: &Plan, ledger: &[u16], opens: &[bool; 32]) -> [ScopeMark; 128]
    requires { IsLent terms plan.now.records ledger.now
        × Figures false opens.now plan.now.records.counts.tracks (has_open_scope (plan_in plan.now.records) (ledger_of terms plan.now.records.counts ledger.now)) }
    ensures { Marked (plan_in plan.now.records) (ledger_of terms plan.now.records.counts ledger.now) plan.now.records.counts.tracks result }
{
    let mut marks = [ScopeMark::default(); 128];
    for t in 0..plan.records.counts.tracks {
        let h = plan.records.host_word(t);
        if h != NO_STATE {
            let s = usize::from(h);
            let k = reading::track(terms, plan.records.counts, ledger, t);
            let awake = k.mode.is_awake();
            let ended = done::is_ended(&plan.records, k);
            let bare = done::is_bare(k, opens[t]);
            let mark = marks[s];
            marks[s] = ScopeMark {
                awake: mark.awake | awake,
                asleep: mark.asleep | !awake,
                unfinished: mark.unfinished | !ended,
                busy: mark.busy | !bare,
            };
        }
    }
    marks
}

// Whether every scope is sound, given which tracks have an open one.
pub fn are_sound(terms: Terms, plan: &Plan, ledger: &[u16], opens: &[bool; 32]) -> bool
    requires { IsLent terms plan.now.records ledger.now
        × Figures false opens.now plan.now.records.counts.tracks (has_open_scope (plan_in plan.now.records) (ledger_of terms plan.now.records.counts ledger.now)) }
    ensures { result ≡ every_below plan.now.records.counts.states (sound_scope (plan_in plan.now.records) (ledger_of terms plan.now.records.counts ledger.now)) }
{
    let marks = mark_scopes(terms, plan, ledger, opens);
    (0..plan.records.counts.states).all(|s| marks[s].is_sound())
}
