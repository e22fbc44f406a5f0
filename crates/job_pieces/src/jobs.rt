//! Jobs by number.
ghost use Rattle.std.specs.Prelude.{◌≡◌, ◌<◌, ℕ, IfOk};

use std::alloc::{AllocError, Global};

/// Jobs that may be done in any order, each by itself. A job gives an `O`, and a worker keeps a `K` from job to job.
pub trait Jobs<O, K> {
    /// How many jobs there are.
    ghost count: { Self → ℕ };

    /// Whether the job of that number may give that.
    ghost gives: { Self → ℕ → O → Type 0 };

    /// Whether a worker may keep that.
    ghost serves: { Self → K → Type 0 };

    /// How many jobs there are.
    fn count(&self) -> usize
        ensures { result ≡ count self.now };

    /// What a worker keeps before its first job.
    fn begin(&self, alloc: Global) -> K
        ensures { serves self.now result };

    /// Does the job of a number, counted from 0.
    fn run(&self, alloc: Global, kept: &mut K, at: usize) -> Result<O, AllocError>
        requires there { at < count self.now }
        requires serves { serves self.now kept.old }
        ensures gives { IfOk result (gives self.now at) }
        ensures serves { serves self.now kept.new };
}
