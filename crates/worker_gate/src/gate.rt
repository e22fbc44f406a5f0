//! What a worker passes between a take and its commit.

/// What a worker passes once between a take and its commit. A gate may count, tell, wait, or hold a worker back: nothing that is proved
/// of a run depends on it.
pub trait Gate {
    /// A search over a journal begins, with no node taken yet: the journal has the prices of so many steps, its best plan costs so
    /// much, and no legal plan costs less than the bound. Unless it says otherwise, a gate does nothing then.
    fn begin(&self, _steps: u64, _cost: u64, _bound: u64) {}

    /// The worker of this number passes. It has taken so many nodes in this run, this one among them; at the end of its type the
    /// number stands still.
    fn enter(&self, worker: u32, step: u64);
}

/// The gate that does nothing.
pub struct Open;

impl Gate for Open {
    fn enter(&self, _worker: u32, _step: u64) {}
}
