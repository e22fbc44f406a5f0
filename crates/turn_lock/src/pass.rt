ghost use Rattle.std.specs.Prelude.{List};
ghost use Rattle.turn_lock.specs.declared.pass.Pass.{Pass};

/// One turn that appended posts: the number of the seat that made it, and how many posts there were before it and after it.
#[derive(Clone, Copy, PartialEq, Eq, Debug, Drop)]
pub struct Pass {
    /// The seat's number.
    pub seat: u32,
    /// How many posts there were before it.
    pub from: u64,
    /// How many posts there were after it.
    pub to: u64,
}

/// A value with a root, which no turn changes, and with the passes that were made on it.
pub trait Passed {
    /// What a root is.
    type Root;

    /// The root of a value.
    ghost root: { Self → Self.Root };

    /// The passes that were made on a value, in order.
    ghost passes: { Self → List Pass };
}
