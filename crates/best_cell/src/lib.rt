//! The best cost of a search in a cell: one tells it, and others read it without the lock of the board.
#![tactic(auto)]

mod cell;
mod rule;
mod view;

pub use cell::{Reader, Teller, pair};
pub use rule::Telling;
use std::alloc::AllocError;

/// Running out of memory.
pub type NoMemory = AllocError;
