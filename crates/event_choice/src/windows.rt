// The windows: of the moves that an event makes on any day, those that may be taken on its day. One pass over the windows, one over the tracks.
ghost use Rattle.std.specs.Prelude.{◌≡◌, ◌<◌, length};
ghost use Rattle.plan.specs.Plans.{plan_in};
ghost use Rattle.rules.specs.Plan.{no_state, optional, taken_on};
ghost use Rattle.lookup.specs.Figures.{Numbers};
ghost use Rattle.event_choice.specs.Next.{InRange, Shut, moves_of};

use plan::Plan;
use plan::fields::NO_STATE;

// For each transition whether a window shuts it on a day.
fn shut_on(plan: &Plan, day: i32) -> [bool; 256]
    ensures { Shut (plan_in plan.now.records) day plan.now.records.counts.windows result }
{
    let mut shut = [false; 256];
    for w in 0..plan.records.counts.windows {
        if !plan.records.is_within(w, day) {
            let x = plan.records.window_transition(w) as usize;
            shut[x] = true;
        }
    }
    shut
}

// A transition that is taken on any day, 65535 for none, or none if it is shut.
fn unless_shut(plan: &Plan, day: i32, shut: &[bool; 256], x: u16) -> u16
    requires { Shut (plan_in plan.now.records) day plan.now.records.counts.windows shut.now
        × ((x ≡ no_state → ⊥) → x < plan.now.records.counts.transitions) }
    ensures { optional result ≡ taken_on (plan_in plan.now.records) day (optional x) }
{
    if x == NO_STATE {
        return NO_STATE;
    }
    if shut[x as usize] {
        return NO_STATE;
    }
    x
}

// The transition that each track takes on a day, given the one that it takes on any day, 65535 for none.
pub fn taken_on(plan: &Plan, day: i32, any: [u16; 32]) -> [u16; 32]
    requires { InRange plan.now.records.counts any × (length any ≡ 32) }
    ensures { Numbers result plan.now.records.counts.tracks (λ t. taken_on (plan_in plan.now.records) day (moves_of any plan.now.records.counts.tracks t)) }
{
    if plan.records.counts.windows == 0 {
        return any;
    }
    let shut = shut_on(plan, day);
    let mut taken = [NO_STATE; 32];
    for t in 0..plan.records.counts.tracks {
        taken[t] = unless_shut(plan, day, &shut, any[t]);
    }
    taken
}
