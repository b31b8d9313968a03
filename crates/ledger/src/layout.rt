// Where the ledger's words stand: the only place for these numbers.
ghost use Rattle.std.specs.Prelude.{◌≡◌, not, ◌+◌, ◌*◌, ◌≤◌, ◌<◌, ltb, length};
ghost use Rattle.rules.specs.Layout.{entry_width, track_width, track_place, entries_place, word_count};

use rules::Terms;

// Words before the first track: the length and the sum of the plan and the last accepted day, and where they stand.
pub const LEADING_WORDS: usize = 4;

pub const LENGTH_WORD: usize = 0;

pub const SUM_WORD: usize = 1;

pub const LOW_DAY_WORD: usize = 2;

pub const HIGH_DAY_WORD: usize = 3;

// Mode, state, count of entries held, and where the last two stand.
pub const HEAD_WORDS: usize = 3;

pub const STATE_WORD: usize = 1;

pub const COUNT_WORD: usize = 2;

// Retraction code and deviation state.
pub const ENTRY_WIDTH: usize = 2;

pub fn wide(x: u16) -> usize
    ensures { (result ≡ x) × (result < 65536) }
{
    usize::from(x)
}

// The most entries that a track holds.
pub fn limit(terms: Terms) -> usize
    ensures { result ≡ terms.limit }
{
    usize::from(terms.limit)
}

// Words of one track.
pub fn track_width(terms: Terms) -> usize
    ensures { (result ≡ track_width terms) × (result < 131074) }
{
    HEAD_WORDS + ENTRY_WIDTH * limit(terms)
}

// Where a track's words start, which is where those of the tracks below it end.
pub fn track_place(terms: Terms, t: usize) -> usize
    requires { t ≤ 32 }
    ensures { result ≡ track_place terms t }
{
    LEADING_WORDS + track_width(terms) * t
}

// Where a track's entry stands, the oldest being its first.
pub fn entry_place(terms: Terms, t: usize, k: usize) -> usize
    requires { (t ≤ 32) × (k ≤ terms.limit) }
    ensures { result ≡ entries_place terms t + entry_width * k }
{
    track_place(terms, t) + HEAD_WORDS + ENTRY_WIDTH * k
}

// Whether a ledger has words for so many tracks.
pub fn has_room(terms: Terms, ledger: &[u16], tracks: usize) -> bool
    requires { tracks ≤ 32 }
    ensures { result ≡ not (ltb (length ledger.now) (word_count terms tracks)) }
{
    !(ledger.len() < track_place(terms, tracks))
}
