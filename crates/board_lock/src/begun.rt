// Which run it is.
ghost use Rattle.std.specs.Prelude.{ℕ, Option, None};
ghost use Rattle.search_core.specs.Board.{BoardView};
ghost use Rattle.board_lock.specs.Best.{IsBestAt};

use best_cell::Telling;
use std::marker::{Brand, PhantomData};
use std::sync::ledger::Ledger;

/// The run of workers over a board: the board as it was opened, and how many workers take nodes of it. Whoever begins a run picks it, with the
/// ledger of its commits.
pub trait Begun: Ledger {
    /// The board as it was opened.
    ghost begun_at: { Option BoardView };

    /// How many workers it has.
    ghost begun_by: { ℕ };
}

// a run over no board, where nobody picks
impl Begun for Brand {
    ghost begun_at = { None };

    ghost begun_by = { 0 };
}

/// What the workers of a run are told without the lock: how many posts a board has that their turns have made of the first one, and what its best
/// rota costs.
pub struct BestOf<L> {
    marker: PhantomData<L>,
}

impl<L: Begun> Telling for BestOf<L> {
    ghost tells = { IsBestAt L.begun_at L.begun_by };
}
