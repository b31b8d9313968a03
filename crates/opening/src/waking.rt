// Which tracks wake where tracks enter states: one pass up the tracks, since a host's track has a lower number.
ghost use Rattle.std.specs.Prelude.{◌≡◌, false, ◌<◌};
ghost use Rattle.plan.specs.Plans.{plan_in};
ghost use Rattle.rules.specs.Plan.{first_state};
ghost use Rattle.rules.specs.Opening.{wakes};
ghost use Rattle.lookup.specs.Figures.{Figures};
ghost use Rattle.opening.specs.Entering.{states_of};

use plan::Plan;
use plan::fields::NO_STATE;

// Whether a track wakes, given which of the lower tracks do.
fn wakes(plan: &Plan, firsts: &[u16; 32], to: &[u16; 32], woken: &[bool; 32], t: usize) -> bool
    requires { Figures 0 firsts.now plan.now.records.counts.tracks (first_state (plan_in plan.now.records))
        × (t < plan.now.records.counts.tracks)
        × Figures false woken.now t (wakes (plan_in plan.now.records) (states_of to.now)) }
    ensures { result ≡ wakes (plan_in plan.now.records) (states_of to.now) t }
{
    let h = plan.records.host_word(t);
    if h == NO_STATE {
        return false;
    }
    let u = plan.records.track_of(h as usize) as usize;
    let s = to[u];
    if s != NO_STATE {
        return h == s;
    }
    if !woken[u] {
        return false;
    }
    h == firsts[u]
}

// The tracks that wake where each track with a state in `to`, 65535 for none, enters it, given the first state of each track.
pub fn woken_by(plan: &Plan, firsts: &[u16; 32], to: &[u16; 32]) -> [bool; 32]
    requires { Figures 0 firsts.now plan.now.records.counts.tracks (first_state (plan_in plan.now.records)) }
    ensures { Figures false result plan.now.records.counts.tracks (wakes (plan_in plan.now.records) (states_of to.now)) }
{
    let mut woken = [false; 32];
    for t in 0..plan.records.counts.tracks {
        let w = wakes(plan, firsts, to, &woken, t);
        woken[t] = w;
    }
    woken
}
