// The checks that a call makes first: 2 to 16, 25, 27, 17, 24 and 18. What they find beside their answer is lent out, so that no step works it out
// again: the first state of each track of an accepted plan, and who has an open scope in a ledger that is not over.
ghost use Rattle.std.specs.Prelude.{◌≡◌, false, IfOk};
ghost use Rattle.rules.specs.Plan.{first_state};
ghost use Rattle.rules.specs.Scope.{has_open_scope, is_over};
ghost use Rattle.plan.specs.Plans.{plan_in};
ghost use Rattle.plan_reader.specs.Told.{reading_told};
ghost use Rattle.ledger.specs.Ladder.{ledger_of};
ghost use Rattle.lookup.specs.Figures.{Figures};
ghost use Rattle.manager.specs.Checked.{lent, checked, FirstsFound};

use ledger::{layout, leading};
use plan::Plan;
use rules::{Refusal, Terms};
use soundness::sound;

// 2 to 16, 25, 27 and 17: the plan is accepted, and the ledger has room for its tracks.
pub fn read_lent<'a>(
    terms: Terms,
    plan: &'a [u8],
    ledger: &[u16],
    firsts: &mut [u16; 32],
) -> Result<Plan<'a>, Refusal>
    ensures told { reading_told result ≡ lent terms plan.now ledger.now }
    ensures bytes { IfOk result (λ p. p.records.bytes.now ≡ plan.now) }
    ensures found { FirstsFound plan.now firsts.new }
    ensures firsts { IfOk result (λ p. Figures 0 firsts.new p.records.counts.tracks (first_state (plan_in p.records))) }
{
    let read = plan_reader::read_with(plan, firsts)?;
    if !layout::has_room(terms, ledger, read.records.counts.tracks) {
        return Err(Refusal::NoRoom);
    }
    Ok(read)
}

// 24 and 18 too: the ledger is this plan's own, and sound.
pub fn verify<'a>(
    terms: Terms,
    plan: &'a [u8],
    ledger: &[u16],
    opens: &mut [bool; 32],
    firsts: &mut [u16; 32],
) -> Result<Plan<'a>, Refusal>
    ensures told { reading_told result ≡ checked terms plan.now ledger.now }
    ensures bytes { IfOk result (λ p. p.records.bytes.now ≡ plan.now) }
    ensures scopes { IfOk result (λ p. is_over (plan_in p.records) (ledger_of terms p.records.counts ledger.now) ≡ false
        → Figures false opens.new p.records.counts.tracks (has_open_scope (plan_in p.records) (ledger_of terms p.records.counts ledger.now))) }
    ensures found { FirstsFound plan.now firsts.new }
    ensures firsts { IfOk result (λ p. Figures 0 firsts.new p.records.counts.tracks (first_state (plan_in p.records))) }
{
    let read = read_lent(terms, plan, ledger, firsts)?;
    let other = leading::is_other(plan, ledger);
    let sound = sound::is_sound(terms, &read, ledger, opens);
    if other {
        return Err(Refusal::OtherPlan);
    }
    if !sound {
        return Err(Refusal::Unsound);
    }
    Ok(read)
}
