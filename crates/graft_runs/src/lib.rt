//! Runs of `graft_run`: from the words and the two files that they name to a grafted report, to breaks that are planned anew, or to the
//! open nodes of a report.
#![tactic(auto)]

mod below;
mod breaks;
mod nodes;
mod numbers;
mod reading;
mod refusals;
mod running;
mod status;
mod words;

pub use running::{graft_top, graft_top_by};
pub use status::GraftStatus;
pub use words::{Budget, Command, Request, request_of};
