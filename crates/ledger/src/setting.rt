// What the caller's setting comes to in numbers.
ghost use Rattle.std.specs.Prelude.{◌≡◌};
ghost use Rattle.rules.specs.Setting.{terms_of};

use crate::layout;
use rules::{Limit, Setting, Terms};

// The most entries that a track holds: in the main program, and on the reading rooms' machine.
pub const MAIN_LIMIT: u16 = 32;

pub const READING_ROOM_LIMIT: u16 = 8;

// Words of one track in the main program.
pub const MAIN_TRACK_WIDTH: usize = layout::HEAD_WORDS
    + layout::ENTRY_WIDTH * (MAIN_LIMIT as usize);

#[tactic(auto, unfolding(rules::specs::Setting::terms_of, rules::specs::Setting::limit_of))]
pub fn terms_of(setting: Setting) -> Terms
    ensures { result ≡ terms_of setting }
{
    match setting.limit {
        Limit::Main => Terms { limit: MAIN_LIMIT },
        Limit::ReadingRoom => Terms {
            limit: READING_ROOM_LIMIT,
        },
    }
}
