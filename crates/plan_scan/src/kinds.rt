// The kinds of records.
ghost use Rattle.std.specs.Prelude.{◌≡◌, ◌<◌, ◌≤◌};
ghost use Rattle.rules.specs.Record.{length_of, rank_of, most_of, count_of, one_more};
ghost use Rattle.plan_scan.specs.Kinds.{number_of, Decodes};

use plan::fields::{GRANT_LENGTH, STATE_LENGTH, TRACK_LENGTH, TRANSITION_LENGTH, WINDOW_LENGTH};
use rules::{Counts, Refusal};

const END_LENGTH: usize = 4;

// The end stays last of all, though its kind is 4.
#[derive(Clone, Copy, PartialEq, Eq)]
pub enum Kind {
    Track = 1,
    State = 2,
    Transition = 3,
    End = 4,
    Window = 5,
    Grant = 6,
}

impl TryFrom<u16> for Kind {
    type Error = Refusal;

    ghost try_from_gives = { Decodes };

    fn try_from(number: u16) -> Result<Self, Refusal> {
        match number {
            1 => Ok(Kind::Track),
            2 => Ok(Kind::State),
            3 => Ok(Kind::Transition),
            4 => Ok(Kind::End),
            5 => Ok(Kind::Window),
            6 => Ok(Kind::Grant),
            _ => Err(Refusal::Kind),
        }
    }
}

impl Kind {
    pub fn number(self) -> u16
        ensures { result ≡ number_of self }
    {
        self as u16
    }

    // The length of its records.
    #[tactic(auto, unfolding(rules::specs::Record::length_of))]
    pub fn length(self) -> usize
        ensures { (result ≡ length_of (number_of self)) × (4 ≤ result) × (result ≤ 14) }
    {
        match self {
            Kind::Track => TRACK_LENGTH,
            Kind::State => STATE_LENGTH,
            Kind::Transition => TRANSITION_LENGTH,
            Kind::End => END_LENGTH,
            Kind::Window => WINDOW_LENGTH,
            Kind::Grant => GRANT_LENGTH,
        }
    }

    // Where it stands in the order of kinds.
    #[tactic(auto, unfolding(rules::specs::Record::rank_of))]
    pub fn rank(self) -> usize
        ensures { result ≡ rank_of (number_of self) }
    {
        match self {
            Kind::Track => 1,
            Kind::State => 2,
            Kind::Transition => 3,
            Kind::Window => 4,
            Kind::Grant => 5,
            Kind::End => 6,
        }
    }

    // The most of its records that 6 lets a plan have. Windows, grants and ends are not counted for it.
    #[tactic(auto, unfolding(rules::specs::Record::most_of))]
    pub fn most(self) -> usize
        ensures { result ≡ most_of (number_of self) }
    {
        match self {
            Kind::Track => 32,
            Kind::State => 128,
            Kind::Transition => 256,
            Kind::Window => 1,
            Kind::Grant => 1,
            Kind::End => 1,
        }
    }

    // How many of its records were counted for 6.
    #[tactic(auto, unfolding(rules::specs::Record::count_of))]
    pub fn count(self, c: Counts) -> usize
        ensures { result ≡ count_of c (number_of self) }
    {
        match self {
            Kind::Track => c.tracks,
            Kind::State => c.states,
            Kind::Transition => c.transitions,
            Kind::Window => 0,
            Kind::Grant => 0,
            Kind::End => 0,
        }
    }

    // With one more of its records.
    #[tactic(auto, unfolding(rules::specs::Record::one_more))]
    pub fn one_more(self, c: Counts) -> Counts
        requires { (c.tracks ≤ 32) × (c.states ≤ 128) × (c.transitions ≤ 256) × (c.windows < 18446744073709551615)
            × (c.grants < 18446744073709551615) }
        ensures { result ≡ one_more c (number_of self) }
    {
        Counts {
            tracks: c.tracks + usize::from(self == Kind::Track),
            states: c.states + usize::from(self == Kind::State),
            transitions: c.transitions + usize::from(self == Kind::Transition),
            windows: c.windows + usize::from(self == Kind::Window),
            grants: c.grants + usize::from(self == Kind::Grant),
        }
    }
}
