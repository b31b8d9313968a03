// Rights: the tracks that a society may move, turn or fire, and whether it has a right anywhere, from a plan's grants (the paper's rights records).
#![tactic(auto)]

ghost use Rattle.std.specs.Prelude.{◌≡◌, false, ◌<◌};
ghost use Rattle.plan.specs.Plans.{plan_in};
ghost use Rattle.rules.specs.Rights.{gives_to, holds, is_permitted, holds_somewhere};
ghost use Rattle.lookup.specs.Figures.{Figures};

use lookup::reading;
use plan::Plan;
use plan::fields::NO_STATE;

// What a society may be given the right to do, as a grant's sum has it: `Right::Move as u16` and so on is what the functions ask.
#[derive(Clone, Copy, PartialEq, Eq)]
pub enum Right {
    Move = 1,
    Signal = 2,
    Fire = 4,
}

// Whether a grant gives a society a right.
fn gives_to(plan: &Plan, right: u16, society: u16, g: usize) -> bool
    requires { (0 < right) × (g < plan.now.records.counts.grants) }
    ensures { result ≡ gives_to (plan_in plan.now.records) right society g }
{
    if plan.records.grant_society(g) != society {
        return false;
    }
    let sum = plan.records.grant_rights(g);
    sum / right % 2 == 1
}

// Whether a society has a right somewhere.
pub fn holds_somewhere(plan: &Plan, right: u16, society: u16) -> bool
    requires { 0 < right }
    ensures { result ≡ holds_somewhere (plan_in plan.now.records) right society }
{
    (0..plan.records.counts.grants).any(|g| gives_to(plan, right, society, g))
}

// The roots where a society has a right.
fn roots_held(plan: &Plan, right: u16, society: u16) -> [bool; 32]
    requires { 0 < right }
    ensures { Figures false result plan.now.records.counts.tracks (holds (plan_in plan.now.records) right society) }
{
    let mut held = [false; 32];
    for g in 0..plan.records.counts.grants {
        if gives_to(plan, right, society, g) {
            let root = usize::from(plan.records.grant_root(g));
            held[root] = true;
        }
    }
    held
}

// The tracks under those roots: a hosted track is permitted what its host's track is, whose number is lower.
pub fn permitted(plan: &Plan, right: u16, society: u16) -> [bool; 32]
    requires { 0 < right }
    ensures { Figures false result plan.now.records.counts.tracks (is_permitted (plan_in plan.now.records) right society) }
{
    let mut may = roots_held(plan, right, society);
    for t in 0..plan.records.counts.tracks {
        let u = reading::host_track(plan, t);
        if u != NO_STATE {
            may[t] = may[usize::from(u)];
        }
    }
    may
}
