//! What a move did, by which it is undone.
ghost use Rattle.std.specs.Prelude.{◌≡◌};

use crate::changes::Change;
use shift_instance::Duty;
use std::marker::Model;

/// What a move did, by which it is undone.
///
/// Contracts see each duty that is changed, once, with how often it stood in the plan before and afterwards.
#[derive(Drop)]
pub struct Done {
    pub(crate) changes: Vec<Change>,
    pub(crate) gone: Vec<Duty>,
    pub(crate) made: Vec<Duty>,
}

impl Model for Done {
    ghost use Rattle.std.specs.Prelude.{List};
    ghost use Rattle.local_moves.specs.declared.changes.Change.{Change};

    ghost Value = { List Change };

    ghost view = { λ d. d.changes.items };

    ghost use Rattle.local_moves.specs.Changes.{IsTied};

    ghost invariant = { λ d. IsTied d.changes.items d.gone.items d.made.items };
}

impl Done {
    /// The changes. It takes no memory.
    pub fn changes(&self) -> &[Change]
        ensures { result.now ≡ self.now }
    {
        self.changes.as_slice()
    }
}
