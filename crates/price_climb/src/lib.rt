//! Prices of slots and of cuts that give a good bound, by climbing along rays with a working set of shifts.
//!
//! Nothing is claimed of them: whoever takes them computes the bound that they give.
#![tactic(auto)]

mod averages;
mod climb;
mod corners;
mod fronts;
mod limits;
mod pass;
mod price_range;
mod ranges;
mod values;

pub use climb::Climb;
pub use fronts::FrontCut;
pub use limits::Limits;
pub use ranges::Ranges;
