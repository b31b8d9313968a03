// A track's configuration and its host, as every step reads them, and whether the ledger is over.
ghost use Rattle.std.specs.Prelude.{◌≡◌, not, ◌<◌};
ghost use Rattle.plan.specs.Plans.{plan_in};
ghost use Rattle.rules.specs.Fold.{every_below};
ghost use Rattle.rules.specs.Ledger.{is_awake};
ghost use Rattle.rules.specs.Scope.{is_over};
ghost use Rattle.ledger.specs.Ladder.{Room, IsChecked, ledger_of};
ghost use Rattle.lookup.specs.HostTrack.{host_track};
ghost use Rattle.ledger.specs.Words.{track_of};

use ledger::track;
use plan::Plan;
use plan::fields::NO_STATE;
use rules::{Counts, Terms, Track};

// A track of the ledger.
pub fn track(terms: Terms, c: Counts, ledger: &[u16], t: usize) -> Track
    requires { Room terms ledger.now c.tracks × (t < c.tracks) }
    ensures { result ≡ track_of (ledger_of terms c ledger.now t) }
{
    track::track_at(terms, ledger, t)
}

// Whether a track is awake.
pub fn is_awake(terms: Terms, c: Counts, ledger: &[u16], t: usize) -> bool
    requires { Room terms ledger.now c.tracks × (t < c.tracks) }
    ensures { result ≡ is_awake (ledger_of terms c ledger.now t).mode }
{
    track(terms, c, ledger, t).mode.is_awake()
}

// "all asleep ("over")", of any ledger.
pub fn all_asleep(terms: Terms, c: Counts, ledger: &[u16]) -> bool
    requires { Room terms ledger.now c.tracks }
    ensures { result ≡ every_below c.tracks (λ t. not (is_awake (ledger_of terms c ledger.now t).mode)) }
{
    (0..c.tracks).all(|t| !is_awake(terms, c, ledger, t))
}

// The same of a sound ledger: its first track is a root, and every root is awake unless it is over.
pub fn is_over(terms: Terms, plan: &Plan, ledger: &[u16]) -> bool
    requires { IsChecked terms plan.now.records ledger.now }
    ensures { result ≡ is_over (plan_in plan.now.records) (ledger_of terms plan.now.records.counts ledger.now) }
{
    !is_awake(terms, plan.records.counts, ledger, 0)
}

// The track of a track's host, 65535 for a root.
pub fn host_track(plan: &Plan, t: usize) -> u16
    requires { t < plan.now.records.counts.tracks }
    ensures { result ≡ host_track (plan_in plan.now.records) t }
{
    let h = plan.records.host_word(t);
    if h == NO_STATE {
        return NO_STATE;
    }
    plan.records.track_of(usize::from(h))
}
