//! When a climb ends.

/// When a climb ends.
#[derive(Clone, Copy)]
pub struct Limits {
    /// The most rounds.
    pub rounds: u32,
    /// The value from which on it needn't go on.
    pub goal: f64,
    /// The batches in a row that may gain little.
    pub stalls: u32,
    /// The first size of a step, as a part of the value.
    pub step: f64,
}
