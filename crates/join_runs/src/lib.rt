//! Runs of `graft_run join`: from the words and the files that they name to a report into which parts are joined.
#![tactic(auto)]

mod joining;
mod parts;
mod reading;
mod refusals;
mod status;
mod words;

pub use joining::join_top;
pub use status::{JoinStatus, PartCause};
pub use words::{JoinRequest, join_of};
