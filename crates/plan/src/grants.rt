// The grants of a plan (the paper's rights records): the society that each gives rights, the root that they are over, and the rights.
ghost use Rattle.std.specs.Prelude.{◌≡◌, ◌+◌, ◌<◌, ◌≤◌, length};
ghost use Rattle.rules.specs.Plan.{grant, grant_record};
ghost use Rattle.plan.specs.Plans.{plan_in};

use crate::Records;
use crate::fields::{
    GRANT_LENGTH, STATE_LENGTH, TRACK_LENGTH, TRANSITION_LENGTH, WINDOW_LENGTH, word_at,
};

// Where a grant's fields start in its record, after the length and the kind.
const GRANT_SOCIETY: usize = 4;

const GRANT_ROOT: usize = 6;

const GRANT_RIGHTS: usize = 8;

impl Records<'_> {
    // Where a grant's record starts.
    #[tactic(auto, unfolding(rules::specs::Plan::grant_record, rules::specs::Plan::window_record, rules::specs::Plan::transition_record, rules::specs::Plan::state_record, rules::specs::Plan::track_record, rules::specs::Record::length_of))]
    fn grant_place(&self, g: usize) -> usize
        requires { g < self.now.counts.grants }
        ensures { (result ≡ grant_record self.now.counts g) × (result + 10 ≤ length self.now.bytes.now) }
    {
        let windows_from = TRACK_LENGTH * self.counts.tracks
            + STATE_LENGTH * self.counts.states
            + TRANSITION_LENGTH * self.counts.transitions;
        let grants_from = windows_from + WINDOW_LENGTH * self.counts.windows;
        grants_from + GRANT_LENGTH * g
    }

    // The society that a grant gives rights.
    #[tactic(auto, using(crate::proofs::FieldLaws::society_at_lem))]
    pub fn grant_society(&self, g: usize) -> u16
        requires { g < self.now.counts.grants }
        ensures { result ≡ (grant (plan_in self.now) g).society }
    {
        word_at(self.bytes, self.grant_place(g) + GRANT_SOCIETY)
    }

    // The root that they are over.
    #[tactic(auto, using(crate::proofs::FieldLaws::root_at))]
    pub fn grant_root(&self, g: usize) -> u16
        requires { g < self.now.counts.grants }
        ensures { result ≡ (grant (plan_in self.now) g).root }
    {
        word_at(self.bytes, self.grant_place(g) + GRANT_ROOT)
    }

    // The rights, as a sum of 1 to move, 2 to signal and 4 to fire.
    #[tactic(auto, using(crate::proofs::FieldLaws::rights_at))]
    pub fn grant_rights(&self, g: usize) -> u16
        requires { g < self.now.counts.grants }
        ensures { result ≡ (grant (plan_in self.now) g).rights }
    {
        word_at(self.bytes, self.grant_place(g) + GRANT_RIGHTS)
    }
}
