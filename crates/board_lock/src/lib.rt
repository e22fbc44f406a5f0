//! The lock of a board: a value in a slot of a table of atomic words, which one seat at a time takes out and puts back; and what
//! lies behind the lock, the board of a search with a ledger of its commits and with the teller of its best cost.
#![tactic(auto)]

mod begun;
mod desk;
mod held;
pub mod laws;
mod lock;
mod roots;
mod rule;
mod shut;
mod view;

pub use begun::{Begun, BestOf};
pub use desk::Desk;
pub use held::Held;
pub use lock::{Lock, Pass};
pub use roots::BoardRoot;
pub use rule::Rooted;
pub use view::View;
