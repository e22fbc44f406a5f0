//! A run of the checker: the words, the two files that they name, and the line that it writes.
#![tactic(auto)]

mod certifying;
mod checking;
mod recounting;
mod status;
mod verdict;
mod words;

pub use checking::check_run;
pub use status::{BundleFault, CheckStatus};
pub use words::{Command, Files, Request, may_be_file, request_of};
