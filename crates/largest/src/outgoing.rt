// The transitions that leave each state, chained, so that each of them is met without a pass over the others.
ghost use Rattle.plan.specs.Plans.{plan_in};
ghost use Rattle.rules.specs.Largest.{leaves};
ghost use Rattle.plan.specs.Passes.{Chains};

use plan::Plan;
use plan::chains::KeyChains;

// The transitions of each state, by their source.
pub fn chain_transitions(plan: &Plan) -> KeyChains<128, 256>
    ensures { Chains (leaves (plan_in plan.now.records)) 128 plan.now.records.counts.transitions result.last result.before }
{
    let mut outgoing = KeyChains::new();
    for x in 0..plan.records.counts.transitions {
        outgoing.add(usize::from(plan.records.source_of(x)), x);
    }
    outgoing
}
