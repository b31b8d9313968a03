// What soundness asks of a track.
ghost use Rattle.std.specs.Prelude.{◌≡◌, true, ◌<◌};
ghost use Rattle.plan.specs.Plans.{plan_in};
ghost use Rattle.rules.specs.Fold.{every_below};
ghost use Rattle.rules.specs.Ledger.{is_awake};
ghost use Rattle.rules.specs.Soundness.{are_tidy, is_hosted_well};
ghost use Rattle.ledger.specs.Ladder.{IsLent, ledger_of};
ghost use Rattle.soundness.specs.Parts.{sound_track};

use crate::entries;
use lookup::reading;
use plan::Plan;
use plan::fields::NO_STATE;
use rules::{Mode, Terms};

// Whether an awake track in mode `m`, if it is hosted, has its host awake in the hosting state and in the same mode.
fn hosted_well(terms: Terms, plan: &Plan, ledger: &[u16], t: usize, m: Mode) -> bool
    requires { IsLent terms plan.now.records ledger.now
        × (t < plan.now.records.counts.tracks)
        × (m ≡ (ledger_of terms plan.now.records.counts ledger.now t).mode)
        × (is_awake m ≡ true) }
    ensures { result ≡ is_hosted_well (plan_in plan.now.records) (ledger_of terms plan.now.records.counts ledger.now) t }
{
    let h = plan.records.host_word(t);
    if h == NO_STATE {
        return true;
    }
    let o = usize::from(plan.records.track_of(usize::from(h)));
    let k = reading::track(terms, plan.records.counts, ledger, o);
    k.state == h && k.mode == m
}

// Whether a track is as the clauses on tracks and entries have it. One that is asleep is, unless it is a root.
fn is_sound(terms: Terms, plan: &Plan, ledger: &[u16], t: usize) -> bool
    requires { IsLent terms plan.now.records ledger.now
        × (t < plan.now.records.counts.tracks)
        × (are_tidy terms ledger.now plan.now.records.counts.tracks ≡ true) }
    ensures { result ≡ sound_track (plan_in plan.now.records) (ledger_of terms plan.now.records.counts ledger.now) t }
{
    let k = reading::track(terms, plan.records.counts, ledger, t);
    if !k.mode.is_awake() {
        return !plan.records.is_root(t);
    }
    let own = plan.records.is_state_of(t, usize::from(k.state));
    let good = entries::good_entries(terms, plan, ledger, t, k.count);
    let hosted = hosted_well(terms, plan, ledger, t, k.mode);
    own & good & hosted
}

// Whether every track is.
pub fn are_sound(terms: Terms, plan: &Plan, ledger: &[u16]) -> bool
    requires { IsLent terms plan.now.records ledger.now × (are_tidy terms ledger.now plan.now.records.counts.tracks ≡ true) }
    ensures { result ≡ every_below plan.now.records.counts.tracks (sound_track (plan_in plan.now.records) (ledger_of terms plan.now.records.counts ledger.now)) }
{
    (0..plan.records.counts.tracks).all(|t| is_sound(terms, plan, ledger, t))
}
