// Whether a ledger's words are as the layout has them: modes 0 to 2, as many entries at most as the terms allow, unused pairs zero, an asleep
// track all zeros.
ghost use Rattle.std.specs.Prelude.{◌≡◌, ◌+◌, ◌≤◌, eqb, length, get_or};
ghost use Rattle.rules.specs.Fold.{every_below};
ghost use Rattle.rules.specs.Layout.{track_width};
ghost use Rattle.rules.specs.Soundness.{is_tidy, are_tidy};
ghost use Rattle.ledger.specs.Ladder.{Room};

use crate::layout;
use crate::layout::{COUNT_WORD, ENTRY_WIDTH, HEAD_WORDS, LEADING_WORDS};
use rules::Terms;

// Whether words are zero. All are read, so that the processor takes many at a time.
fn are_zero(words: &[u16]) -> bool
    ensures { result ≡ every_below (length words.now) (λ j. eqb (get_or words.now j 0) 0) }
{
    let mut bits: u16 = 0;
    for w in words {
        bits |= *w;
    }
    bits == 0
}

// Whether the words of the track at a place are as the layout has them.
fn is_tidy(terms: Terms, ledger: &[u16], at: usize) -> bool
    requires { at + track_width terms ≤ length ledger.now }
    ensures { result ≡ is_tidy terms ledger.now at }
{
    let end = at + layout::track_width(terms);
    let mode = ledger[at];
    if mode == 0 {
        return are_zero(&ledger[at..end]);
    }
    if 2 < mode {
        return false;
    }
    let count = usize::from(ledger[at + COUNT_WORD]);
    let limit = layout::limit(terms);
    if limit < count {
        return false;
    }
    are_zero(&ledger[at + HEAD_WORDS + ENTRY_WIDTH * count..end])
}

// Whether those of every track are. `at` is where the track looked at starts.
pub fn are_tidy(terms: Terms, ledger: &[u16], tracks: usize) -> bool
    requires { Room terms ledger.now tracks }
    ensures { result ≡ are_tidy terms ledger.now tracks }
{
    let width = layout::track_width(terms);
    let mut all = true;
    let mut at = LEADING_WORDS;
    for t in 0..tracks {
        all &= is_tidy(terms, ledger, at);
        at += width;
    }
    all
}
