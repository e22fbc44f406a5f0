//! The open nodes of a report, each with its floor: what a search elsewhere can go on with. And the nodes that proof lines make, and what
//! further lines make of one of them alone.
#![tactic(auto)]

mod growing;
mod listing;
mod node;
mod tree;

pub use listing::{OpenNode, open_nodes};
pub use tree::NodeTree;
