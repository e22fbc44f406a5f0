//! What a search knows already where advice is asked for.
use crate::Prices;
use shift_instance::Rows;

/// What a search knows already that may serve whoever looks for prices and plans of a node. Nothing is promised of it.
#[derive(Drop)]
pub struct Hint {
    /// The prices last posted for the node, or else for its nearest ancestor that has some, with the price 0 for each cut below
    /// that. There are none where none were posted.
    pub prices: Option<Prices>,
    /// The rows of the best rota so far.
    pub rows: Rows,
}
