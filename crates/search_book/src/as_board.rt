//! The book of a search as a board.
use crate::Book;
use break_rules::NoMemory;
use head_splits::{Cuts, Hint};
use plan_base::Disk;
use search_core::{Board, CommitFault, Kept, StepPosts, Taken};

impl<D: Disk> Board for Book<D> {
    ghost use Rattle.search_book.specs.Boards.{sound_of};
    ghost use Rattle.search_book.specs.Search.{board_of};

    ghost seen = { λ b. board_of D.reads D.calls D.faults b };

    /// A worker whose hand is empty takes a node, if one is to be had.
    fn take(&mut self, worker: u32) -> Taken {
        self.take(worker)
    }

    /// Whether it gives nodes: nothing shut it, a node is open, no worker gave up, and a step is left.
    fn gives(&self) -> bool {
        self.gives()
    }

    /// The cuts of the node in a worker's hand.
    fn cuts(&self, worker: u32) -> Result<Cuts, NoMemory> {
        self.cuts(worker)
    }

    /// What is known already of the node in a worker's hand. Nothing is promised of it.
    fn hint(&self, worker: u32) -> Result<Hint, NoMemory> {
        self.hint(worker)
    }

    /// A worker commits a step for the node in its hand, and lets go of it.
    fn commit(&mut self, worker: u32, step: StepPosts) -> Result<Kept, CommitFault> {
        self.commit(worker, step)
    }

    /// A worker lets go of the node in its hand, if there is one, without a commit. The book gives no more nodes then.
    fn yield_node(&mut self, worker: u32) {
        self.yield_node(worker);
    }

    /// The node in a worker's hand.
    fn held(&self, worker: u32) -> Option<u32> {
        self.held(worker)
    }

    /// What the best rota costs.
    fn best_cost(&self) -> u64 {
        self.best_cost()
    }

    /// How many posts there are.
    fn posts(&self) -> u64 {
        self.posts()
    }

    ghost sound = { λ b. sound_of D.reads D.calls D.faults b.log b.hands b.taken b.budget b.halted b.keeps };
}
