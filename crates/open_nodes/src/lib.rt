//! The open nodes of a search that no worker holds, in the order in which they are taken.
#![tactic(auto)]

mod nodes;

pub use nodes::OpenNodes;
