//! The cuts of a node.
use crate::Cut;
use break_rules::Sequence;

/// Cuts, from the root of the search on.
pub type Cuts = Sequence<Cut>;
