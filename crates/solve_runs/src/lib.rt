//! The runs of `solve`: from the words of a command line, the document of an instance and a disk for the journal to a status and the
//! report of the search; and the runs of its demonstrations, which keep their journal in memory.
#![tactic(auto)]

mod demo;
mod report;
mod run;
mod search;
mod searched;
mod seats;
mod status;
mod words;

pub use demo::demo_line;
pub use report::{cert_of, report_of};
pub use run::{Ended, run_command, solve_run};
pub use search::run_search;
pub use searched::{Request, SearchEnd, Searched};
pub use status::{Status, status_line};
pub use words::journal_path;
