// What lies behind the lock of a board: the board with its ledger, and who tells its best cost to those that don't have the lock.
ghost use Rattle.std.specs.Prelude.{◌≡◌};
ghost use Rattle.best_cell.specs.Told.{last_of};
ghost use Rattle.board_lock.specs.Best.{best_of};

use crate::begun::{Begun, BestOf};
use crate::held::Held;
use crate::roots::BoardRoot;
use crate::rule::Rooted;
use best_cell::Teller;
use search_core::Board;
use std::sync::Wait;

/// A board with its ledger, and the teller of its best cost, which has told last how many posts the board has and what its best rota costs.
pub struct Desk<B: Board, L: Begun> {
    /// The board with its ledger.
    pub held: Held<B, L>,
    /// Tells what the best rota costs.
    pub teller: Teller<BestOf<L>>,
    ghost told: { last_of teller ≡ best_of (B.seen held.board) },
}

impl<B: Board, L: Begun> Rooted for Desk<B, L> {
    type Root = BoardRoot<B>;

    ghost use Rattle.board_lock.specs.Roots.{root_at};

    ghost root = { λ desk. root_at desk.held.opened desk.held.workers };
}

impl<B: Board, L: Begun> Held<B, L> {
    ghost use Rattle.best_cell.specs.Told.{Follows};

    /// Tells how many posts the board has now, and what its best rota costs.
    pub fn tell<R: Wait>(&self, rt: &R, teller: &mut Teller<BestOf<L>>)
        requires { Follows (last_of teller.old) (best_of (B.seen self.now.board)) }
        ensures { last_of teller.new ≡ best_of (B.seen self.now.board) }
    {
        teller.tell(rt, self.board.posts(), self.board.best_cost());
    }
}
