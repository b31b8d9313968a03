// The ledger in its words: where each track's stand, reading and writing them, whether they are as the layout has them, and which plan they
// belong to.
#![tactic(auto, unfolding(rules::specs::Layout::leading_words, rules::specs::Layout::head_words, rules::specs::Layout::entry_width, rules::specs::Layout::track_width, rules::specs::Layout::entries_place, rules::specs::Layout::word_count))]

pub mod layout;
pub mod leading;
pub mod setting;
pub mod tidy;
pub mod track;
