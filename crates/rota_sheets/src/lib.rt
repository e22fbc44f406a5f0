//! Sheets of a plan to print and to hang up: how many duties of each shift start on each day, and who takes a break when.
#![tactic(auto)]

mod breaks;
mod breaks_lines;
mod heads;
mod heads_lines;
mod names;

pub use breaks::{TakenBreak, taken_breaks};
pub use breaks_lines::breaks_text;
pub use heads::{UsedShift, duties_on, heads_on, used_shifts};
pub use heads_lines::heads_text;
