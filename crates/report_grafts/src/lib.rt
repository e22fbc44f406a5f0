//! Runs of a search below one node of a report, apart from the rest of it, and the report that such a run is grafted into: its proof
//! lines are added, and its bound is what they show together.
#![tactic(auto)]

mod branches;
mod exporting;
mod fault;
mod grafting;
pub mod laws;
mod pinning;
mod sub_run;

pub use exporting::export;
pub use fault::GraftFault;
pub use grafting::graft;
pub use pinning::pins;
pub use sub_run::SubRun;
