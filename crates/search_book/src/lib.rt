//! The book of a search: its posts on a disk, and the best plan that they make. After a crash at any moment the disk opens
//! to a book of the same posts, or of a front of them with all that were acknowledged.
#![tactic(auto)]

mod as_board;
mod batched;
mod book;
mod book_opening;
mod committing;
mod head;
mod laws;
mod listing;
mod log_opening;
mod open_fault;
mod post_log;
mod record_log;
mod sends;
mod session;

pub use book::Book;
pub use laws::one_history;
pub use log_opening::Unopened;
pub use open_fault::OpenFault;
pub use sends::sent;
