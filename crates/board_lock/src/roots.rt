// What a seat at the lock of a board knows of it.
use std::snapshot::Snapshot;

/// The board as it was when the lock was made over it, and for how many workers. No value of it is made: it stands in contracts
/// alone.
pub struct BoardRoot<B> {
    /// The board as it was opened.
    pub opened: Snapshot<B>,
    /// How many workers take nodes of it. They have the numbers from 0 on.
    pub workers: u32,
}
