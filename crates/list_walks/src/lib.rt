//! How the legal break lists of a shift go on, break by break: along the graph that the instance keeps of the shift, and by
//! layers where it keeps none.
#![tactic(auto)]

mod steps;
mod walks;

pub use steps::{Standing, WalkWay};
pub use walks::ListWalks;
