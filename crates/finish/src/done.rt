// Tracks that are done, either way: ended, or bare.
ghost use Rattle.std.specs.Prelude.{◌≡◌, not, ◌&&◌, eqb};
ghost use Rattle.plan.specs.Plans.{plan_in};
ghost use Rattle.rules.specs.Plan.{is_final};
ghost use Rattle.rules.specs.Ledger.{is_forward, is_undoing};

use plan::Records;
use rules::Track;

// Whether a number is a final state, whatever the number.
pub fn is_final(records: &Records, s: usize) -> bool
    ensures { result ≡ is_final (plan_in records.now) s }
{
    s < records.counts.states && records.is_final(s)
}

// Whether a track has ended: forward in a final state.
pub fn is_ended(records: &Records, k: Track) -> bool
    ensures { result ≡ (is_forward k.mode && is_final (plan_in records.now) k.state) }
{
    k.mode.is_forward() && is_final(records, usize::from(k.state))
}

// Whether a track is bare: undoing, holding nothing and without an open scope, as `inner` tells.
pub fn is_bare(k: Track, inner: bool) -> bool
    ensures { result ≡ (is_undoing k.mode && eqb k.count 0 && not inner) }
{
    k.mode.is_undoing() && k.count == 0 && !inner
}
