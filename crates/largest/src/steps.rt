// Reading the paths that are shown: they stand end to end.
ghost use Rattle.std.specs.Prelude.{◌≡◌, List, ℕ, ◌<◌, get_or, sum, take};
ghost use Rattle.rules.specs.Largest.{no_transition};
ghost use Rattle.largest.specs.Laid.{Laid};

use crate::NO_TRANSITION;

// Where the path of a track starts: behind those of the tracks before it.
fn start_of(lengths: &[u16; 32], t: usize) -> usize
    requires { t < 32 }
    ensures { result ≡ sum (take t lengths.now) }
{
    lengths[..t].iter().map(|n| usize::from(*n)).sum()
}

// The transition at a place of a track's path, 65535 beyond it.
pub fn step_at(lengths: &[u16; 32], steps: &[u16; 256], t: usize, place: u16) -> u16
    requires { (t < 32) × ((path : ℕ → List ℕ) × Laid lengths.now steps.now path) }
    ensures { (path : ℕ → List ℕ) → Laid lengths.now steps.now path → result ≡ get_or (path t) place no_transition }
{
    if lengths[t] <= place {
        return NO_TRANSITION;
    }
    steps[start_of(lengths, t) + usize::from(place)]
}
