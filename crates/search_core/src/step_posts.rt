//! What a worker hands over for a node.
use dual_bound::{Proved, SettledNode};
use head_splits::Class;
use rota_cost::Costed;

/// What a worker found of the node in its hand, and how it closes it.
#[derive(Drop)]
pub struct StepPosts {
    /// The node, by its number.
    pub node: u32,
    /// A plan, which becomes best where it is cheaper.
    pub plan: Option<Costed>,
    /// Prices for the node's cuts, with their bound.
    pub proved: Proved,
    /// How the node is closed.
    pub close: Close,
}

/// How a node is closed.
#[derive(Drop)]
pub enum Close {
    /// By its bound alone, which is no less than the cost of the best rota.
    ByPrice,
    /// By a split into at most `m` and at least `m + 1` duties of a class.
    Split { class: Class, m: u16 },
    /// As settled, by its only plan.
    Settled(SettledNode),
}
