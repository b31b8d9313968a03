// Figures that the reader keeps for each track or state, each by one pass over the records.
ghost use Rattle.std.specs.Prelude.{◌≡◌, false};
ghost use Rattle.plan.specs.Plans.{plan_in};
ghost use Rattle.rules.specs.Fold.{some_below};
ghost use Rattle.rules.specs.Plan.{is_in};
ghost use Rattle.rules.specs.Acceptance.{bad_state, bad_host};
ghost use Rattle.plan.specs.Passes.{first_marks, is_host_of, Ends, Chains};

use crate::Records;
use crate::chains::KeyChains;
use crate::fields::NO_STATE;

// The first state of each track, 65535 where it has none: a state is its track's first if none was met before it. Every state's track
// exists, as 9 has it.
pub fn first_states(records: &Records) -> [u16; 32]
    requires { some_below records.now.counts.states (bad_state (plan_in records.now)) ≡ false }
    ensures { result ≡ first_marks (plan_in records.now) records.now.counts.states }
{
    let mut firsts = [NO_STATE; 32];
    for s in 0..records.counts.states {
        let t = usize::from(records.track_of(s));
        if firsts[t] == NO_STATE {
            firsts[t] = s as u16;
        }
    }
    firsts
}

// The tracks of each scope, by the state that hosts them. Every host is a state, as 10 has it.
pub fn chain_tracks(records: &Records) -> KeyChains<128, 32>
    requires { some_below records.now.counts.tracks (bad_host (plan_in records.now)) ≡ false }
    ensures { Chains (is_in (plan_in records.now)) 128 records.now.counts.tracks result.last result.before }
{
    let mut scopes = KeyChains::new();
    for t in 0..records.counts.tracks {
        let h = records.host_word(t);
        if h != NO_STATE {
            scopes.add(usize::from(h), t);
        }
    }
    scopes
}

// The hosting states of each track. Every host is a state of a track, as 10 has it; `scopes` has the tracks that each state hosts.
pub fn chain_states(records: &Records, scopes: &KeyChains<128, 32>) -> KeyChains<32, 128>
    requires { (some_below records.now.counts.tracks (bad_host (plan_in records.now)) ≡ false)
        × Ends (is_in (plan_in records.now)) 128 records.now.counts.tracks scopes.now.last }
    ensures { Chains (is_host_of (plan_in records.now)) 32 records.now.counts.states result.last result.before }
{
    let mut hosts = KeyChains::new();
    for s in 0..records.counts.states {
        if scopes.last(s).is_some() {
            hosts.add(usize::from(records.track_of(s)), s);
        }
    }
    hosts
}
