//! A worker's seat at the lock of the board, whichever lock that is.

use atomic_table::Badge;
use board_lock::{BoardRoot, View};
use std::snapshot::Snapshot;
use turn_lock::TurnSeat;

/// A worker's seat at a lock with turns, with the board as it was opened, of which the seat knows. The seat is away while its worker is inside.
#[derive(Drop)]
pub(crate) struct TurnPass<B> {
    pub(crate) seat: Option<TurnSeat<BoardRoot<B>>>,
    pub(crate) root: Snapshot<BoardRoot<B>>,
}

/// What lies at a worker's place: its seat at the lock of the board.
#[derive(Drop)]
pub(crate) enum Chair<B> {
    /// The seat is away, since its worker is at work.
    Away,
    /// A seat at a lock that whoever comes first gets.
    Badge(Badge<View<BoardRoot<B>>>),
    /// A seat at a lock whose turns are taken in the order of tickets.
    Turns(TurnPass<B>),
}
