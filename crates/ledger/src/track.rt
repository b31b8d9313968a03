// One track's words: its mode, state and count by value, its entries by their number, the oldest being the first.
ghost use Rattle.std.specs.Prelude.{◌≡◌, ◌+◌, ◌≤◌, ◌<◌, set};
ghost use Rattle.rules.specs.Layout.{track_place};
ghost use Rattle.rules.specs.Ledger.{mode_of, entry_at, sleeping, written};
ghost use Rattle.ledger.specs.Ladder.{Within, Room};
ghost use Rattle.ledger.specs.Words.{track_at, with_track, entry_place, entry_of, with_entry, with_installed, with_removed, with_asleep};

use crate::layout;
use crate::layout::{COUNT_WORD, LEADING_WORDS, STATE_WORD};
use rules::{Mode, Terms, Track};

fn mode_of(w: u16) -> Mode
    ensures { result ≡ mode_of w }
{
    match w {
        0 => Mode::Asleep,
        1 => Mode::Forward,
        _ => Mode::Undoing,
    }
}

// A track as its words tell it.
pub fn track_at(terms: Terms, ledger: &[u16], t: usize) -> Track
    requires { Within terms ledger.now t }
    ensures { result ≡ track_at terms ledger.now t }
{
    let at = layout::track_place(terms, t);
    Track {
        mode: mode_of(ledger[at]),
        state: ledger[at + STATE_WORD],
        count: ledger[at + COUNT_WORD],
    }
}

// Writes a track's mode, state and count.
pub fn put_track(terms: Terms, ledger: &mut [u16], t: usize, k: Track)
    requires { Within terms ledger.old t }
    ensures { ledger.new ≡ with_track terms ledger.old t k }
{
    let at = layout::track_place(terms, t);
    ledger[at] = k.mode as u16;
    ledger[at + STATE_WORD] = k.state;
    ledger[at + COUNT_WORD] = k.count;
}

// An entry: its retraction code and its deviation state.
#[derive(Clone, Copy)]
pub struct Entry {
    pub code: u16,
    pub deviation: u16,
}

// A track's entry.
pub fn entry_at(terms: Terms, ledger: &[u16], t: usize, k: usize) -> Entry
    requires { Within terms ledger.now t × (k < terms.limit) }
    ensures { entry_of result ≡ entry_at ledger.now (entry_place terms t k) }
{
    let at = layout::entry_place(terms, t, k);
    Entry {
        code: ledger[at],
        deviation: ledger[at + 1],
    }
}

// The retraction code of a track's entry.
pub fn entry_code(terms: Terms, ledger: &[u16], t: usize, k: usize) -> u16
    requires { Within terms ledger.now t × (k < terms.limit) }
    ensures { result ≡ (entry_at ledger.now (entry_place terms t k)).code }
{
    entry_at(terms, ledger, t, k).code
}

// The deviation state of a track's entry.
pub fn entry_deviation(terms: Terms, ledger: &[u16], t: usize, k: usize) -> u16
    requires { Within terms ledger.now t × (k < terms.limit) }
    ensures { result ≡ (entry_at ledger.now (entry_place terms t k)).deviation }
{
    entry_at(terms, ledger, t, k).deviation
}

// Writes an entry.
pub fn put_entry(terms: Terms, ledger: &mut [u16], t: usize, k: usize, entry: Entry)
    requires { Within terms ledger.old t × (k < terms.limit) }
    ensures { ledger.new ≡ with_entry terms ledger.old t k entry.code entry.deviation }
{
    let at = layout::entry_place(terms, t, k);
    ledger[at] = entry.code;
    ledger[at + 1] = entry.deviation;
}

// Writes the count of entries held.
fn put_count(terms: Terms, ledger: &mut [u16], t: usize, count: u16)
    requires { Within terms ledger.old t }
    ensures { ledger.new ≡ set ledger.old (track_place terms t + 2) count }
{
    let at = layout::track_place(terms, t);
    ledger[at + COUNT_WORD] = count;
}

// Installs an entry as the newest.
pub fn install(terms: Terms, ledger: &mut [u16], t: usize, code: u16, deviation: u16)
    requires { Within terms ledger.old t × ((track_at terms ledger.old t).count < terms.limit) }
    ensures { ledger.new ≡ with_installed terms ledger.old t code deviation }
{
    let k = track_at(terms, ledger, t);
    let n = k.count;
    put_entry(terms, ledger, t, usize::from(n), Entry { code, deviation });
    put_count(terms, ledger, t, n + 1);
}

// Removes the newest entry, and leaves zeros in its place.
pub fn remove_newest(terms: Terms, ledger: &mut [u16], t: usize)
    requires { Within terms ledger.old t × (0 < (track_at terms ledger.old t).count) × ((track_at terms ledger.old t).count ≤ terms.limit) }
    ensures { ledger.new ≡ with_removed terms ledger.old t }
{
    let k = track_at(terms, ledger, t);
    let n = k.count - 1;
    let none = Entry {
        code: 0,
        deviation: 0,
    };
    put_entry(terms, ledger, t, usize::from(n), none);
    put_count(terms, ledger, t, n);
}

// Puts a track to sleep: all its words are zero.
pub fn put_to_sleep(terms: Terms, ledger: &mut [u16], t: usize)
    requires { Within terms ledger.old t }
    ensures { ledger.new ≡ with_asleep terms ledger.old t }
{
    let at = layout::track_place(terms, t);
    let end = at + layout::track_width(terms);
    ledger[at..end].fill(0);
}

// Puts so many tracks to sleep.
pub fn put_all_to_sleep(terms: Terms, ledger: &mut [u16], tracks: usize)
    requires { Room terms ledger.old tracks }
    ensures { ledger.new ≡ written terms tracks (λ t. sleeping) ledger.old }
{
    let end = layout::track_place(terms, tracks);
    ledger[LEADING_WORDS..end].fill(0);
}
