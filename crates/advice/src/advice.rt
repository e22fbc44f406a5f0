//! What a worker asks an adviser, and what it is advised.
use head_splits::{Class, Cuts, Hint, Prices};
use shift_instance::Rows;

/// What a worker asks for: advice for the node of these cuts.
#[derive(Drop)]
pub struct Ask {
    /// The cuts of the node, from the root on.
    pub cuts: Cuts,
    /// What every legal rota below the cuts is known to cost at least.
    pub floor: u64,
    /// What the best rota so far costs.
    pub best: u64,
    /// What the search knows already of the node. Nothing is promised of it.
    pub hint: Hint,
}

/// A way to split a node: its parts have at most `m`, and at least `m + 1`, duties of a class.
#[derive(Drop)]
pub struct Splitting {
    /// The class.
    pub class: Class,
    /// The number.
    pub m: u16,
}

/// What an adviser advises. Neither the prices nor the plan nor the split need be lawful: who asked judges each.
#[derive(Drop)]
pub struct Advice {
    /// Prices for the cuts.
    pub prices: Prices,
    /// The rows of a plan, if any.
    pub plan: Option<Rows>,
    /// How to split the node, if there is a better way than the one that settling its cuts gives.
    pub split: Option<Splitting>,
}
