//! What an adviser is, and what it is told.
ghost use Rattle.std.specs.Prelude.{◌≡◌, ◌≤◌, ◌+◌, ◌-◌, ◌^◌, ℕ, Option, Some, min, length};
ghost use Rattle.advice.specs.declared.adviser.Told.{Told};

use crate::{Advice, Ask};
use break_rules::NoMemory;
use shift_instance::Instance;

/// What became of a step: the node that it was for, and what is known of the search behind it.
#[derive(Clone, Copy, PartialEq, Eq, Drop)]
pub struct Told {
    /// The number of the node.
    pub node: u32,
    /// What every legal rota below the node's cuts is known to cost at least.
    pub floor: u64,
    /// What the best rota so far costs.
    pub best: u64,
}

/// Something that advises workers of a search, and is told what became of their steps. What it advises needn't be lawful:
/// who asked judges it.
pub trait Adviser: Drop {
    /// How often it was told something. At the last value of a u64 it stands still.
    ghost told: { Self → ℕ };

    /// What it was told last.
    ghost last: { Self → Option Told };

    /// Advises for a node.
    fn advise(&mut self, instance: &Instance, ask: &Ask) -> Result<Advice, NoMemory>
        requires few { length ask.now.cuts ≤ 2 ^ 33 }
        ensures told { told self.new ≡ told self.old }
        ensures last { last self.new ≡ last self.old };

    /// Tells the adviser what became of a step. It takes no memory.
    fn learn(&mut self, news: &Told)
        ensures told { told self.new ≡ min (told self.old + 1) (2 ^ 64 - 1) }
        ensures last { last self.new ≡ Some news.now };
}
