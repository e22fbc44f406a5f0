//! A journal: a header and records in a file, so written that a crash at any moment leaves whole records, and every one that was put.
#![tactic(auto)]

mod fault;
mod file_bytes;
mod installing;
mod journal;
mod laws;
mod open_file;
mod parse;
mod reads;
mod settling;
mod stored;
mod told;

pub use fault::JournalFault;
pub use installing::install;
pub use journal::Journal;
pub use laws::{one_old_reading, one_reading, unfinished_is_refused};
pub use settling::settle;

/// The most bytes that the file of a search's journal may have.
pub const JOURNAL_MAX: u32 = 67_108_864;
