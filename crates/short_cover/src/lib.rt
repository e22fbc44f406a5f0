//! How well a plan covers what is wanted: the slots that it leaves below their needs, and the least cover of each day.
#![tactic(auto)]

mod cover_lines;
mod least;
mod moments;
mod short;

pub use cover_lines::short_text;
pub use least::{LeastCover, least_covers};
pub use short::{ShortSlot, short_slots};
