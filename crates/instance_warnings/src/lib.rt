//! What a planner should know of an instance before it is searched: shift types that can have no duty, slots that no duty
//! can reach, numbers that make plans or bounds poor, and what is legal and odd.
#![tactic(auto)]

mod breaks;
mod judging;
mod oddities;
mod reaching;
mod relaxing;
mod slots;
mod telling;
mod wording;

pub use judging::{unreached_slots_cost, warnings};
pub use relaxing::Part;
pub use slots::Slots;
pub use telling::{Limit, Warning};
pub use wording::WordedWarning;
