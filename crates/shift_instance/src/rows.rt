//! The rows of a rota.
use crate::Row;
use break_rules::Sequence;

/// Rows, in their order: each stands for its duty, as often as it counts.
pub type Rows = Sequence<Row>;
