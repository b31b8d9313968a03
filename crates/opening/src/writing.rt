// Writing one track of a ledger, the others left as they are.
ghost use Rattle.std.specs.Prelude.{◌≡◌, ◌<◌};
ghost use Rattle.ledger.specs.Ladder.{Tidy, ledger_of};
ghost use Rattle.lookup.specs.OneTrack.{with_configuration, with_mode};

use ledger::track;
use lookup::reading;
use rules::{Counts, Mode, Terms, Track};

// A track's mode and state; it holds what it held.
pub fn put_mode(terms: Terms, c: Counts, ledger: &mut [u16], t: usize, m: Mode, s: u16)
    requires { Tidy terms ledger.old c.tracks × (t < c.tracks) }
    ensures { ledger.new ≡ with_configuration terms c ledger.old t (with_mode m s (ledger_of terms c ledger.old t)) }
{
    let k = reading::track(terms, c, ledger, t);
    let next = Track {
        mode: m,
        state: s,
        count: k.count,
    };
    track::put_track(terms, ledger, t, next);
}
