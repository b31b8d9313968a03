// The first state of each track of an accepted plan.
ghost use Rattle.rules.specs.Plan.{first_state};
ghost use Rattle.plan.specs.Plans.{plan_in};
ghost use Rattle.lookup.specs.Figures.{Figures};

use plan::{Plan, passes};

// The first state of each track.
pub fn first_states(plan: &Plan) -> [u16; 32]
    ensures { Figures 0 result plan.now.records.counts.tracks (first_state (plan_in plan.now.records)) }
{
    passes::first_states(&plan.records)
}
