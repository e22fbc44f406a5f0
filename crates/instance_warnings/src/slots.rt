//! Slots of a planning period.
use break_rules::Sequence;

/// Slots, in rising order.
pub type Slots = Sequence<u16>;
