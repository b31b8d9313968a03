// The windows of a plan: the transition that each restricts, and its first and last day.
ghost use Rattle.std.specs.Prelude.{◌≡◌, ◌+◌, ◌<◌, ◌≤◌, length};
ghost use Rattle.rules.specs.Plan.{window, window_record, is_within};
ghost use Rattle.plan.specs.Plans.{plan_in};

use crate::Records;
use crate::fields::{
    STATE_LENGTH, TRACK_LENGTH, TRANSITION_LENGTH, WINDOW_LENGTH, day_at, word_at,
};

// Where a window's fields start in its record, after the length and the kind.
const WINDOW_TRANSITION: usize = 4;

const WINDOW_FIRST: usize = 6;

const WINDOW_LAST: usize = 10;

impl Records<'_> {
    // Where a window's record starts.
    #[tactic(auto, unfolding(rules::specs::Plan::window_record, rules::specs::Plan::transition_record, rules::specs::Plan::state_record, rules::specs::Plan::track_record, rules::specs::Record::length_of))]
    fn window_place(&self, w: usize) -> usize
        requires { w < self.now.counts.windows }
        ensures { (result ≡ window_record self.now.counts w) × (result + 14 ≤ length self.now.bytes.now) }
    {
        let windows_from = TRACK_LENGTH * self.counts.tracks
            + STATE_LENGTH * self.counts.states
            + TRANSITION_LENGTH * self.counts.transitions;
        windows_from + WINDOW_LENGTH * w
    }

    // The transition that a window restricts.
    #[tactic(auto, using(crate::proofs::FieldLaws::named_at))]
    pub fn window_transition(&self, w: usize) -> u16
        requires { w < self.now.counts.windows }
        ensures { result ≡ (window (plan_in self.now) w).transition }
    {
        word_at(self.bytes, self.window_place(w) + WINDOW_TRANSITION)
    }

    // A window's first day.
    #[tactic(auto, using(crate::proofs::FieldLaws::first_day_at))]
    pub fn first_day(&self, w: usize) -> i32
        requires { w < self.now.counts.windows }
        ensures { result ≡ (window (plan_in self.now) w).first }
    {
        day_at(self.bytes, self.window_place(w) + WINDOW_FIRST)
    }

    // A window's last day, which it has too.
    #[tactic(auto, using(crate::proofs::FieldLaws::last_day_at))]
    pub fn last_day(&self, w: usize) -> i32
        requires { w < self.now.counts.windows }
        ensures { result ≡ (window (plan_in self.now) w).last }
    {
        day_at(self.bytes, self.window_place(w) + WINDOW_LAST)
    }

    // Whether a day is one of a window's.
    pub fn is_within(&self, w: usize, day: i32) -> bool
        requires { w < self.now.counts.windows }
        ensures { result ≡ is_within (window (plan_in self.now) w) day }
    {
        self.first_day(w) <= day && day <= self.last_day(w)
    }
}
