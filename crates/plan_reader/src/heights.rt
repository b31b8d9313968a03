// Refusal 16: a track's height and a state's reach, each by the other, as far as a remaining height allows.
ghost use Rattle.std.specs.Prelude.{◌≡◌, false, ◌<◌};
ghost use Rattle.plan.specs.Plans.{plan_in};
ghost use Rattle.rules.specs.Fold.{some_below};
ghost use Rattle.rules.specs.Plan.{is_in, height_to, reach_by};
ghost use Rattle.rules.specs.Acceptance.{bad_host, too_high};
ghost use Rattle.plan.specs.Passes.{Chains, Forest};

use plan::Records;
use plan::chains::KeyChains;
use plan::passes::chain_states;

const MOST_HEIGHT: usize = 8;

// A track's height, one more than the greatest reach of its states, as far as `left` levels show it. States that host nothing have none.
#[cycle(height_reach)]
fn height(
    records: &Records,
    scopes: &KeyChains<128, 32>,
    hosts: &KeyChains<32, 128>,
    t: usize,
    left: usize,
) -> usize
    requires { Forest records.now.bytes.now records.now.counts scopes.now.last scopes.now.before hosts.now.last hosts.now.before
        × (t < records.now.counts.tracks) }
    ensures { result ≡ height_to (plan_in records.now) left t }
{
    if left == 0 {
        return 0;
    }
    let mut best: usize = 0;
    let mut next = hosts.last(t);
    while let Some(s) = next {
        best = best.max(reach(records, scopes, hosts, s, left - 1));
        next = hosts.before(s);
    }
    best + 1
}

// A state's reach, the greatest height of the tracks that it hosts, as far as `left` levels show it.
#[cycle(height_reach)]
fn reach(
    records: &Records,
    scopes: &KeyChains<128, 32>,
    hosts: &KeyChains<32, 128>,
    s: usize,
    left: usize,
) -> usize
    requires { Forest records.now.bytes.now records.now.counts scopes.now.last scopes.now.before hosts.now.last hosts.now.before
        × (s < records.now.counts.states) }
    ensures { result ≡ reach_by (plan_in records.now) (height_to (plan_in records.now) left) s }
{
    let mut best: usize = 0;
    let mut next = scopes.last(s);
    while let Some(t) = next {
        best = best.max(height(records, scopes, hosts, t, left));
        next = scopes.before(t);
    }
    best
}

// 16 of a track: its height exceeds 8. One level more than that shows it. Every host is a state of a lower-numbered track, as 10 has it.
fn too_high(
    records: &Records,
    scopes: &KeyChains<128, 32>,
    hosts: &KeyChains<32, 128>,
    t: usize,
) -> bool
    requires { Forest records.now.bytes.now records.now.counts scopes.now.last scopes.now.before hosts.now.last hosts.now.before
        × (t < records.now.counts.tracks) }
    ensures { result ≡ too_high (plan_in records.now) t }
{
    MOST_HEIGHT < height(records, scopes, hosts, t, MOST_HEIGHT + 1)
}

// 16: the height of a track exceeds 8. No hosted track is as high as its host's, so the roots decide. `scopes` has the tracks of each scope.
pub fn some_too_high(records: &Records, scopes: &KeyChains<128, 32>) -> bool
    requires { (some_below records.now.counts.tracks (bad_host (plan_in records.now)) ≡ false)
        × Chains (is_in (plan_in records.now)) 128 records.now.counts.tracks scopes.now.last scopes.now.before }
    ensures { result ≡ some_below records.now.counts.tracks (too_high (plan_in records.now)) }
{
    let hosts = chain_states(records, scopes);
    (0..records.counts.tracks).any(|t| records.is_root(t) && too_high(records, scopes, &hosts, t))
}
