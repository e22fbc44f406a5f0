//! The way of a journal of the first version to the present one: the words, the two files that they name, and the line that is written.
#![tactic(auto)]

mod carrying;
mod line;
mod migrating;
mod status;
mod words;

pub use migrating::migrate_run;
pub use status::{MigrateStatus, OldFault, status_line};
pub use words::{Files, files_of};
