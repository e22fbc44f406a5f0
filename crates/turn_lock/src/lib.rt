//! A ticket lock with seats. Whoever wants the value draws a ticket and waits for its turn; a turn adds at most one pass to the value's history,
//! under the number of the seat that made it, and each seat knows how far it has seen that history.
#![tactic(auto)]

mod lock;
mod pass;
mod rule;
mod seat;
mod view;

pub use lock::{TurnLock, Unmade};
pub use pass::{Pass, Passed};
pub use seat::{Entered, Turn, TurnSeat};
