//! The state of a search, made again from the records of its journal, and the records of a journal of the first version spelled anew.
#![tactic(auto)]

mod adding;
mod cut_tree;
mod fault;
mod findings;
mod migrating;
mod reads;
mod rebuilding;

pub use fault::{RebuildFault, Why};
pub use migrating::migrate_records;
pub use rebuilding::rebuild;
