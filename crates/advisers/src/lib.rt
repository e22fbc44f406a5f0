//! Advisers of a search: what prices and which plan to try for a node.
#![tactic(auto)]

mod choosing;
mod fixed;
mod forced;
mod greedy_adviser;
mod greedy_plan;
mod heard;
mod rounds;
mod stepping;
mod subgradient;

pub use fixed::Fixed;
pub use greedy_adviser::{Greedy, greedy_prices};
pub use greedy_plan::{GreedyPlan, plan_of};
pub use heard::Heard;
pub use subgradient::Subgradient;
