//! The greedy plan: shift by shift, always the one that lowers the cost most, each with its best break lists.
#![tactic(auto)]

mod bounds;
mod draft;
mod gains;
mod kept;
mod known;
mod laws;
mod lists;
mod plan;
mod prices;
mod rows;
mod values;

pub use laws::{gain_is_the_fall_of_cost, greedy_plan_is_ready};
pub use plan::{greedy_plan, greedy_plan_until};
