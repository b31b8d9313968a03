// Refusal 27: a grant names no root, has rights outside 1 to 7, repeats a pair of society and root, or is the 65th.
#![tactic(auto)]

ghost use Rattle.std.specs.Prelude.{◌≡◌, ◌||◌, ◌<◌, ◌≤◌, eqb, ltb};
ghost use Rattle.plan.specs.Plans.{plan_in};
ghost use Rattle.rules.specs.Fold.{some_below};
ghost use Rattle.rules.specs.Plan.{grant};
ghost use Rattle.rules.specs.Acceptance.{most_rights, names_no_root, bad_grant};
ghost use Rattle.plan_grants.specs.Pairs.{Pair, is_among};

use plan::Records;

const MOST_GRANTS: usize = 64;

const MOST_RIGHTS: u16 = 7;

// Whether a grant's root does not exist or has a host.
fn names_no_root(records: &Records, g: usize) -> bool
    requires { g < records.now.counts.grants }
    ensures { result ≡ names_no_root (plan_in records.now) g }
{
    let t = usize::from(records.grant_root(g));
    records.counts.tracks <= t || !records.is_root(t)
}

// Whether a grant's rights are no sum of 1 to 7.
fn bad_rights(records: &Records, g: usize) -> bool
    requires { g < records.now.counts.grants }
    ensures { result ≡ (eqb (grant (plan_in records.now) g).rights 0 || ltb most_rights (grant (plan_in records.now) g).rights) }
{
    let rights = records.grant_rights(g);
    rights == 0 || MOST_RIGHTS < rights
}

// A grant's society and root as one number.
fn pair_of(records: &Records, g: usize) -> u32
    requires { g < records.now.counts.grants }
    ensures { Pair (plan_in records.now) g result }
{
    u32::from(records.grant_society(g)) + 65536 * u32::from(records.grant_root(g))
}

// Whether a pair is one of the first `count`. All are read, so that the processor takes many at a time.
fn is_among(pairs: &[u32; 64], count: usize, pair: u32) -> bool
    requires { count ≤ 64 }
    ensures { result ≡ is_among pairs.now count pair }
{
    let mut found = false;
    for i in 0..count {
        found |= pairs[i] == pair;
    }
    found
}

// `pairs` has the pairs of the grants looked at.
pub fn some_bad_grant(records: &Records) -> bool
    ensures { result ≡ some_below records.now.counts.grants (bad_grant (plan_in records.now)) }
{
    if MOST_GRANTS < records.counts.grants {
        return true;
    }
    let mut pairs: [u32; 64] = [0; 64];
    for g in 0..records.counts.grants {
        if names_no_root(records, g) {
            return true;
        }
        if bad_rights(records, g) {
            return true;
        }
        let pair = pair_of(records, g);
        if is_among(&pairs, g, pair) {
            return true;
        }
        pairs[g] = pair;
    }
    false
}
