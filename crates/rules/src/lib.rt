// The types that every layer shares: a track as it is read out of its words, the refusals, and one answer for each call. The meaning of each type is in
// specs/.
#![tactic(auto)]

ghost use Rattle.std.specs.Prelude.{◌≡◌};
ghost use Rattle.rules.specs.Ledger.{is_awake, is_forward, is_undoing};
ghost use Rattle.rules.specs.Refusals.{number_of};

// A track's mode (asleep, forward, undoing).
#[derive(Clone, Copy, PartialEq, Eq)]
pub enum Mode {
    Asleep,
    Forward,
    Undoing,
}

impl Mode {
    pub fn is_awake(self) -> bool
        ensures { result ≡ is_awake self }
    {
        self != Mode::Asleep
    }

    pub fn is_forward(self) -> bool
        ensures { result ≡ is_forward self }
    {
        self == Mode::Forward
    }

    pub fn is_undoing(self) -> bool
        ensures { result ≡ is_undoing self }
    {
        self == Mode::Undoing
    }
}

// A track without its entries: mode, state, and the count of entries held.
#[derive(Clone, Copy)]
pub struct Track {
    pub mode: Mode,
    pub state: u16,
    pub count: u16,
}

// How many entries a track may hold: as in the main program, or as on the reading rooms' machine.
#[derive(Clone, Copy)]
pub enum Limit {
    Main,
    ReadingRoom,
}

// What a caller chooses on each call, and keeps to from a ledger's begin on. No ledger stores it.
#[derive(Clone, Copy)]
pub struct Setting {
    pub limit: Limit,
}

// What a setting comes to below the public calls, where any limit that a word can count will do.
#[derive(Clone, Copy)]
pub struct Terms {
    pub limit: u16,
}

// How many tracks, states, transitions, windows and rights records a plan has.
#[derive(Clone, Copy)]
pub struct Counts {
    pub tracks: usize,
    pub states: usize,
    pub transitions: usize,
    pub windows: usize,
    pub grants: usize,
}

// Why a call is turned back, in the order of the paper's numbers.
#[derive(Clone, Copy, PartialEq, Eq)]
pub enum Refusal {
    // the plan or the journal is longer than 32,768 bytes
    TooLong = 1,
    // fewer than four bytes are left for a record's length and kind
    NoHead = 2,
    // there is no such kind, or the kinds fall
    Kind = 3,
    // the length is not the kind's
    Length = 4,
    // fewer bytes are left than the length says
    CutShort = 5,
    // more records of a kind than a plan may have
    TooMany = 6,
    // something follows the end record
    AfterEnd = 7,
    // there is no track
    NoTrack = 8,
    // a state names no track, or its final field exceeds 1
    State = 9,
    // a host is neither 65535 nor a state of a lower-numbered track
    Host = 10,
    // a track has no state, or its first state is final
    FirstState = 11,
    // a final state hosts a track, or a state that hosts none has a replacement
    Hosting = 12,
    // a transition's states do not exist or do not fit, or its event is 0
    Transition = 13,
    // a deviation does not fit
    Deviation = 14,
    // two transitions share source and event
    RepeatedEvent = 15,
    // the height of a track exceeds 8
    TooHigh = 16,
    // the ledger has too few words
    NoRoom = 17,
    // the ledger is not sound
    Unsound = 18,
    // the event is 0
    NoEvent = 19,
    // the ledger is over
    Over = 20,
    // a track that would be given an entry is full
    Full = 21,
    // the track may not be fired, or does not exist
    MayNotFire = 22,
    // a record of the journal is broken
    BrokenRecord = 23,
    // the ledger was begun under another plan
    OtherPlan = 24,
    // a window names no transition, repeats one, ends before it begins, or leaves the range of days
    Window = 25,
    // the day is out of range or before the last accepted one, or there is no such date
    Day = 26,
    // a grant names no root, has rights outside 1 to 7, repeats a pair, or is the 65th
    Grant = 27,
    // the society lacks the right
    NoRight = 28,
    // the plan has a deviation or a cycle
    Unbounded = 29,
}

impl Refusal {
    // The number that the paper gives it.
    pub fn number(self) -> u8
        ensures { result ≡ number_of self }
    {
        self as u8
    }
}

// What the plan reader answers: the counts, or the refusal.
#[derive(Clone, Copy)]
pub enum PlanAnswer {
    Accepted(Counts),
    Refused(u8),
}

#[derive(Clone, Copy)]
pub enum BeginAnswer {
    Begun,
    Refused(u8),
}

// Tracks moved and scopes closed.
#[derive(Clone, Copy)]
pub enum EventAnswer {
    Moved(u16, u16),
    Refused(u8),
}

// How many tracks turned.
#[derive(Clone, Copy)]
pub enum SignalAnswer {
    Turned(u16),
    Refused(u8),
}

// The code and the deviation of the entry that was fired.
#[derive(Clone, Copy)]
pub enum FireAnswer {
    Fired(u16, u16),
    Refused(u8),
}

// Bit n is set exactly if track n may be fired.
#[derive(Clone, Copy)]
pub enum ReadyAnswer {
    Ready(u32),
    Refused(u8),
}

// A date of the Gregorian calendar, January being month 1.
#[derive(Clone, Copy)]
pub struct Date {
    pub year: u16,
    pub month: u16,
    pub day: u16,
}

// The date of a day.
#[derive(Clone, Copy)]
pub enum DateAnswer {
    On(Date),
    Refused(u8),
}

// The day of a date.
#[derive(Clone, Copy)]
pub enum DayAnswer {
    Day(i32),
    Refused(u8),
}

// Whether the largest numbers of entries are shown.
#[derive(Clone, Copy)]
pub enum LargestAnswer {
    Shown,
    Refused(u8),
}

// The largest number of entries of each track, how many transitions the path shown for it has, and these paths end to end. 65535 fills up.
#[derive(Clone, Copy)]
pub struct Largest {
    pub answer: LargestAnswer,
    pub figures: [u16; 32],
    pub lengths: [u16; 32],
    pub steps: [u16; 256],
}
