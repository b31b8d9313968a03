// The rights: of the moves that an event makes for any society, those of the tracks that its own may move.
ghost use Rattle.std.specs.Prelude.{◌≡◌, cond, length};
ghost use Rattle.plan.specs.Plans.{plan_in};
ghost use Rattle.std.proofs.Math.Option.{none};
ghost use Rattle.rules.specs.Plan.{optional};
ghost use Rattle.rules.specs.Rights.{move_right, is_permitted};
ghost use Rattle.lookup.specs.Figures.{Numbers};
ghost use Rattle.event_choice.specs.Next.{moves_of};

use plan::Plan;
use plan::fields::NO_STATE;
use rights::Right;

// A transition, 65535 for none, or none if it may not be taken.
fn if_permitted(may: bool, x: u16) -> u16
    ensures { optional result ≡ cond may (optional x) none }
{
    if may { x } else { NO_STATE }
}

// The transition that each track takes for a society, given the one that it takes for any, 65535 for none.
pub fn taken_of(plan: &Plan, society: u16, all: [u16; 32]) -> [u16; 32]
    requires { length all ≡ 32 }
    ensures { Numbers result plan.now.records.counts.tracks
        (λ t. cond (is_permitted (plan_in plan.now.records) move_right society t) (moves_of all plan.now.records.counts.tracks t) none) }
{
    let may = rights::permitted(plan, Right::Move as u16, society);
    let mut taken = [NO_STATE; 32];
    for t in 0..plan.records.counts.tracks {
        taken[t] = if_permitted(may[t], all[t]);
    }
    taken
}
