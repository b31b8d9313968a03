// The fields of a plan's records, each by its number at the place that follows from the counts. Nothing is copied out.
ghost use Rattle.std.specs.Prelude.{◌≡◌, ◌+◌, ◌*◌, ◌<◌, length};
ghost use Rattle.rules.specs.Record.{word, day_at};
ghost use Rattle.rules.specs.Plan.{host_word, owner, replacement, state, transition, state_record, transition_record, is_root, is_final, is_state_of};
ghost use Rattle.plan.specs.Plans.{plan_in};

use crate::Records;
use signed::words::join;

// A record's length in bytes, of a track, a state, a transition, a window and a grant.
pub const TRACK_LENGTH: usize = 6;

pub const STATE_LENGTH: usize = 10;

pub const TRANSITION_LENGTH: usize = 14;

pub const WINDOW_LENGTH: usize = 14;

pub const GRANT_LENGTH: usize = 10;

// Where a record's fields start in it, after the length and the kind: a track's, a state's and a transition's.
const TRACK_HOST: usize = 4;

const STATE_TRACK: usize = 4;

const STATE_FINAL: usize = 6;

const STATE_REPLACEMENT: usize = 8;

const TRANSITION_SOURCE: usize = 4;

const TRANSITION_EVENT: usize = 6;

const TRANSITION_CODE: usize = 8;

const TRANSITION_DEVIATION: usize = 10;

const TRANSITION_DESTINATION: usize = 12;

// Stands for no state: a root's host, a transition without a deviation.
pub const NO_STATE: u16 = 65535;

// The 16-bit little-endian number at a place.
pub fn word_at(bytes: &[u8], at: usize) -> u16
    requires { at + 1 < length bytes.now }
    ensures { result ≡ word bytes.now at }
{
    u16::from_le_bytes([bytes[at], bytes[at + 1]])
}

// The signed 32-bit number at a place, its low word first.
pub fn day_at(bytes: &[u8], at: usize) -> i32
    requires { at + 3 < length bytes.now }
    ensures { result ≡ day_at bytes.now at }
{
    join(word_at(bytes, at), word_at(bytes, at + 2))
}

impl Records<'_> {
    // A track's host: a state number, or 65535 for a root.
    #[tactic(auto, using(crate::proofs::FieldLaws::host_word_lem), unfolding(rules::specs::Plan::track_record, rules::specs::Record::length_of))]
    pub fn host_word(&self, t: usize) -> u16
        requires { t < self.now.counts.tracks }
        ensures { result ≡ host_word (plan_in self.now) t }
    {
        word_at(self.bytes, TRACK_LENGTH * t + TRACK_HOST)
    }

    // The field of a state's record that starts `at` bytes into it.
    #[tactic(auto, unfolding(rules::specs::Plan::state_record, rules::specs::Plan::track_record, rules::specs::Record::length_of))]
    fn state_word(&self, s: usize, at: usize) -> u16
        requires { (s < self.now.counts.states) × (at < 10) }
        ensures { result ≡ word self.now.bytes.now (state_record self.now.counts s + at) }
    {
        word_at(
            self.bytes,
            TRACK_LENGTH * self.counts.tracks + STATE_LENGTH * s + at,
        )
    }

    // The track of a state.
    #[tactic(auto, using(crate::proofs::FieldLaws::owner_at))]
    pub fn track_of(&self, s: usize) -> u16
        requires { s < self.now.counts.states }
        ensures { result ≡ owner (plan_in self.now) s }
    {
        self.state_word(s, STATE_TRACK)
    }

    // A state's final field: 0, or 1 for a final state.
    #[tactic(auto, using(crate::proofs::FieldLaws::final_at))]
    pub fn final_field(&self, s: usize) -> u16
        requires { s < self.now.counts.states }
        ensures { result ≡ (state (plan_in self.now) s).final }
    {
        self.state_word(s, STATE_FINAL)
    }

    // A state's replacement code, 0 for none.
    #[tactic(auto, using(crate::proofs::FieldLaws::replacement_at))]
    pub fn replacement_of(&self, s: usize) -> u16
        requires { s < self.now.counts.states }
        ensures { result ≡ replacement (plan_in self.now) s }
    {
        self.state_word(s, STATE_REPLACEMENT)
    }

    // The field of a transition's record that starts `at` bytes into it.
    #[tactic(auto, unfolding(rules::specs::Plan::transition_record, rules::specs::Plan::state_record, rules::specs::Plan::track_record, rules::specs::Record::length_of))]
    fn transition_word(&self, x: usize, at: usize) -> u16
        requires { (x < self.now.counts.transitions) × (at < 14) }
        ensures { result ≡ word self.now.bytes.now (transition_record self.now.counts x + at) }
    {
        word_at(
            self.bytes,
            TRACK_LENGTH * self.counts.tracks
                + STATE_LENGTH * self.counts.states
                + TRANSITION_LENGTH * x
                + at,
        )
    }

    // The state that a transition leaves.
    #[tactic(auto, using(crate::proofs::FieldLaws::source_at))]
    pub fn source_of(&self, x: usize) -> u16
        requires { x < self.now.counts.transitions }
        ensures { result ≡ (transition (plan_in self.now) x).source }
    {
        self.transition_word(x, TRANSITION_SOURCE)
    }

    // The event that a transition answers.
    #[tactic(auto, using(crate::proofs::FieldLaws::event_at))]
    pub fn event_of(&self, x: usize) -> u16
        requires { x < self.now.counts.transitions }
        ensures { result ≡ (transition (plan_in self.now) x).event }
    {
        self.transition_word(x, TRANSITION_EVENT)
    }

    // A transition's retraction code, 0 for none.
    #[tactic(auto, using(crate::proofs::FieldLaws::code_at))]
    pub fn code_of(&self, x: usize) -> u16
        requires { x < self.now.counts.transitions }
        ensures { result ≡ (transition (plan_in self.now) x).code }
    {
        self.transition_word(x, TRANSITION_CODE)
    }

    // A transition's deviation state, 65535 for none.
    #[tactic(auto, using(crate::proofs::FieldLaws::deviation_at))]
    pub fn deviation_of(&self, x: usize) -> u16
        requires { x < self.now.counts.transitions }
        ensures { result ≡ (transition (plan_in self.now) x).deviation }
    {
        self.transition_word(x, TRANSITION_DEVIATION)
    }

    // The state that a transition enters.
    #[tactic(auto, using(crate::proofs::FieldLaws::destination_at))]
    pub fn destination_of(&self, x: usize) -> u16
        requires { x < self.now.counts.transitions }
        ensures { result ≡ (transition (plan_in self.now) x).destination }
    {
        self.transition_word(x, TRANSITION_DESTINATION)
    }

    // Whether a track has no host.
    pub fn is_root(&self, t: usize) -> bool
        requires { t < self.now.counts.tracks }
        ensures { result ≡ is_root (plan_in self.now) t }
    {
        self.host_word(t) == NO_STATE
    }

    // Whether a state is final.
    #[tactic(auto, unfolding(rules::specs::Plan::is_final))]
    pub fn is_final(&self, s: usize) -> bool
        requires { s < self.now.counts.states }
        ensures { result ≡ is_final (plan_in self.now) s }
    {
        self.final_field(s) != 0
    }

    // Whether a number is a state of a track, whatever the number.
    pub fn is_state_of(&self, t: usize, s: usize) -> bool
        ensures { result ≡ is_state_of (plan_in self.now) t s }
    {
        s < self.counts.states && usize::from(self.track_of(s)) == t
    }
}
