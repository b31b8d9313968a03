// The records of the journal.
ghost use Rattle.std.specs.Prelude.{◌≡◌, ◌+◌, ◌≤◌, length};
ghost use Rattle.rules.specs.Record.{word, day_at};
ghost use Rattle.rules.specs.Journal.{journal_length, society_at, record_of, item_at};
ghost use Rattle.journal.specs.Records.{record_told, size_of, kind_number, IsKind};

use plan::fields::word_at;

// The kinds of the journal's records.
#[derive(Clone, Copy, PartialEq, Eq)]
enum Kind {
    Signal,
    Fire,
    FireLowest,
    Event,
}

// Where the kind starts, and the fields: those of an event are its number, its day's two words and the society, that of a signal the society, those
// of a firing the track and the society. A record has as many bytes as its last field ends at.
const KIND_PLACE: usize = 2;

const FIRST_FIELD: usize = 4;

const SECOND_FIELD: usize = 6;

const THIRD_FIELD: usize = 8;

const FOURTH_FIELD: usize = 10;

const EVENT_LENGTH: usize = 12;

const SIGNAL_LENGTH: usize = 6;

const FIRE_LENGTH: usize = 8;

// What stands at a place of the journal: its end, a broken record, or what is asked for, with its fields, of an event's day the low word first.
#[derive(Clone, Copy, PartialEq, Eq)]
pub enum Record {
    Ended,
    Broken,
    Event(u16, u16, u16, u16),
    Signal(u16),
    Fire(u16, u16),
    FireLowest(u16),
}

impl Kind {
    // The kind of this number, if there is one.
    fn of(number: u16) -> Option<Kind>
        ensures { IsKind number result }
    {
        match number {
            17 => Some(Kind::Signal),
            18 => Some(Kind::Fire),
            19 => Some(Kind::FireLowest),
            20 => Some(Kind::Event),
            _ => None,
        }
    }

    // The length of its records.
    fn length(self) -> usize
        ensures { result ≡ journal_length (kind_number self) }
    {
        match self {
            Kind::Signal => SIGNAL_LENGTH,
            Kind::Fire => FIRE_LENGTH,
            Kind::FireLowest => SIGNAL_LENGTH,
            Kind::Event => EVENT_LENGTH,
        }
    }
}

impl Record {
    // How many bytes it has.
    pub fn size(self) -> usize
        ensures { result ≡ size_of (record_told self) }
    {
        match self {
            Record::Ended => 0,
            Record::Broken => 0,
            Record::Event(_, _, _, _) => EVENT_LENGTH,
            Record::Signal(_) => SIGNAL_LENGTH,
            Record::Fire(_, _) => FIRE_LENGTH,
            Record::FireLowest(_) => SIGNAL_LENGTH,
        }
    }
}

// The record at a place where one of a kind stands whole.
fn whole_at(journal: &[u8], at: usize, kind: Kind) -> Record
    requires { at + journal_length (kind_number kind) ≤ length journal.now }
    ensures { record_told result
        ≡ record_of (kind_number kind) (word journal.now (at + 4)) (day_at journal.now (at + 6)) (society_at journal.now at (kind_number kind)) }
{
    let first = word_at(journal, at + FIRST_FIELD);
    match kind {
        Kind::Signal => Record::Signal(first),
        Kind::Fire => Record::Fire(first, word_at(journal, at + SECOND_FIELD)),
        Kind::FireLowest => Record::FireLowest(first),
        Kind::Event => Record::Event(
            first,
            word_at(journal, at + SECOND_FIELD),
            word_at(journal, at + THIRD_FIELD),
            word_at(journal, at + FOURTH_FIELD),
        ),
    }
}

// What stands at a place of the journal.
pub fn record_at(journal: &[u8], at: usize) -> Record
    ensures { record_told result ≡ item_at journal.now at }
{
    if journal.len() <= at {
        return Record::Ended;
    }
    let left = journal.len() - at;
    if left < FIRST_FIELD {
        return Record::Broken;
    }
    let Some(kind) = Kind::of(word_at(journal, at + KIND_PLACE)) else {
        return Record::Broken;
    };
    let length = kind.length();
    if usize::from(word_at(journal, at)) != length {
        return Record::Broken;
    }
    if left < length {
        return Record::Broken;
    }
    whole_at(journal, at, kind)
}
