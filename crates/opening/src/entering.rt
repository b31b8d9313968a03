// Entering states: "Entering a hosting state opens its scope: its tracks wake in the same way, their first states' scopes with them".
ghost use Rattle.std.specs.Prelude.{◌≡◌, true, ◌<◌};
ghost use Rattle.plan.specs.Plans.{plan_in};
ghost use Rattle.rules.specs.Plan.{first_state};
ghost use Rattle.rules.specs.Ledger.{sleeping, written};
ghost use Rattle.rules.specs.Opening.{enter};
ghost use Rattle.ledger.specs.Ladder.{Tidy, ledger_of};
ghost use Rattle.lookup.specs.OneTrack.{with_configuration};
ghost use Rattle.lookup.specs.Figures.{Figures};
ghost use Rattle.opening.specs.Entering.{states_of, entered_by, Sleepers};

use crate::{waking, writing};
use plan::Plan;
use plan::fields::NO_STATE;
use rules::{Counts, Mode, Terms};

// A track goes forward in a state, or wakes in its first state if the state is 65535 and it wakes, or is left as it is.
fn enter_track(
    terms: Terms,
    c: Counts,
    ledger: &mut [u16],
    t: usize,
    s: u16,
    wakes: bool,
    first: u16,
)
    requires { Tidy terms ledger.old c.tracks × (t < c.tracks) × (wakes ≡ true → ledger_of terms c ledger.old t ≡ sleeping) }
    ensures { ledger.new ≡ with_configuration terms c ledger.old t (entered_by s wakes first (ledger_of terms c ledger.old t)) }
{
    if s != NO_STATE {
        writing::put_mode(terms, c, ledger, t, Mode::Forward, s);
        return;
    }
    if !wakes {
        return;
    }
    writing::put_mode(terms, c, ledger, t, Mode::Forward, first);
}

// Each track with a state in `to`, 65535 for none, enters it, and the scopes that are entered open, given the first state of each track.
pub fn enter_all(terms: Terms, plan: &Plan, ledger: &mut [u16], firsts: [u16; 32], to: [u16; 32])
    requires { Tidy terms ledger.old plan.now.records.counts.tracks
        × Figures 0 firsts plan.now.records.counts.tracks (first_state (plan_in plan.now.records))
        × Sleepers (plan_in plan.now.records) (states_of to) (ledger_of terms plan.now.records.counts ledger.old) }
    ensures { ledger.new
        ≡ written terms plan.now.records.counts.tracks (enter (plan_in plan.now.records) (states_of to) (ledger_of terms plan.now.records.counts ledger.old)) ledger.old }
{
    let woken = waking::woken_by(plan, &firsts, &to);
    for t in 0..plan.records.counts.tracks {
        enter_track(
            terms,
            plan.records.counts,
            ledger,
            t,
            to[t],
            woken[t],
            firsts[t],
        );
    }
}
