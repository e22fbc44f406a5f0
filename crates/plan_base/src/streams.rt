// Where bytes come from and where they go.
ghost use Rattle.std.specs.Prelude.{◌≡◌, ◌<◌, ◌≤◌, List, ℕ, length, IfOk, Option};
ghost use Rattle.std.specs.Io.KnownBytes.{ReadConsumes, WriteAppends};
ghost use Rattle.plan_base.specs.Causes.{CountsFaults, next_count};

use crate::Failed;

/// Gives bytes, one read after another.
pub trait Source {
    /// The bytes still to come, in order; none where the source doesn't tell.
    ghost left: { Self → Option (List ℕ) };

    /// How many reads there were. At the last value of a u64 it stands still.
    ghost calls: { Self → ℕ };

    /// How many reads failed. At the last value of a u64 it stands still.
    ghost faults: { Self → ℕ };

    /// Moves the next bytes to the front of `into` and answers how many. 0 on a buffer that isn't empty is the end.
    /// `Failed` comes only with a fault; then no byte is lost.
    fn read(&mut self, into: &mut [u8]) -> Result<usize, Failed>
        ensures bound { IfOk result (λ n. n ≤ length into.new) }
        ensures bytes { ReadConsumes (left self.old) (left self.new) result into.new }
        ensures count { calls self.new ≡ next_count (calls self.old) }
        ensures cause { CountsFaults (faults self.old) (faults self.new) result };
}

/// Takes bytes, one write after another.
pub trait Sink {
    /// The bytes taken so far, in order; none where the sink doesn't tell.
    ghost held: { Self → Option (List ℕ) };

    /// How many writes failed. At the last value of a u64 it stands still.
    ghost faults: { Self → ℕ };

    /// Takes bytes from the front of `bytes` and answers how many: at least one, unless there is none.
    /// `Failed` comes only with a fault, and where no byte can be taken it does; then no byte was taken.
    fn write(&mut self, bytes: &[u8]) -> Result<usize, Failed>
        ensures bound { IfOk result (λ n. n ≤ length bytes.now) }
        ensures some { IfOk result (λ n. 0 < length bytes.now → 0 < n) }
        ensures bytes { WriteAppends (held self.old) (held self.new) result bytes.now }
        ensures cause { CountsFaults (faults self.old) (faults self.new) result };
}
