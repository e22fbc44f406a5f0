//! Which rows of a plan can stand in a plan of another instance, and why others can't.
#![tactic(auto)]

mod carrying;
mod obstacles;

pub use carrying::carried_rows;
pub use obstacles::{Obstacle, obstacle_of};
