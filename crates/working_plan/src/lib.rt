//! A plan that duties are put into and taken out of, with its cost, for searches. Nothing is claimed of it: whoever takes a plan
//! from a search judges it.
#![tactic(auto)]

mod levels;
mod plan;

pub use levels::{Effect, FREE, FULL, Levels, Stretches, count_of};
pub use plan::{Placed, Plan};
