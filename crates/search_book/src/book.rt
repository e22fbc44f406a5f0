//! The book of a search on a disk, from which workers take nodes.
ghost use Rattle.std.specs.Prelude.{◌≡◌, ◌↔◌, ℕ, ◌+◌, ◌*◌, ◌^◌, ◌<◌, ◌≤◌, [], ◌++◌, false, length, IfErr, IfOk, IsSome, IsTrue, None, Some};
ghost use Rattle.plan_base.specs.Disk.{TellsAlike};
ghost use Rattle.search_core.specs.Board.{yields, CommitRefuses, Commits, Gives, TakeMakes};
ghost use Rattle.search_core.specs.Book.{book_of, is_finished, floor_of, IsSound};
ghost use Rattle.search_core.specs.Core.{empty_hands, hand};
ghost use Rattle.search_core.specs.Kept.{cuts_in};
ghost use Rattle.search_core.specs.Steps.{Fits};
ghost use Rattle.search_book.specs.Committing.{LeavesLog, RecordsStep};
ghost use Rattle.search_book.specs.Keeping.{IsRunningPosts, PostsLast, ShutOf};
ghost use Rattle.search_book.specs.Listing.{ListsFree};
ghost use Rattle.post_codec.specs.Batches.{joined};
ghost use Rattle.search_book.specs.Search.{board_of};

use crate::post_log::PostLog;
use crate::session::Session;
use break_rules::NoMemory;
use head_splits::{Cuts, Hint};
use open_nodes::OpenNodes;
use plan_base::Disk;
use post_codec::Post;
use search_core::{CommitFault, Kept, StepPosts, Taken};
use shift_instance::Rows;
use std::marker::Model;

/// The book of a search for an instance, with the disk that holds its posts. Whoever opens the disk again after a crash
/// finds a book of the same posts, or of a front of them with all that were acknowledged.
///
/// Contracts see its posts on their disk, the node in the hand of each worker, the steps taken and those of the budget, and
/// whether a worker let go of its node without a commit.
#[derive(Drop)]
pub struct Book<D: Disk> {
    session: Session<D>,
}

impl<D: Disk> Model for Book<D> {
    ghost use Rattle.search_book.specs.Search.{SearchView};

    ghost Value = { SearchView D };

    ghost view = { λ b. record { log = b.session.log; hands = b.session.hands; taken = b.session.taken; budget = b.session.budget; halted = b.session.halted; keeps = record { all = b.session.all; folds = b.session.folds; apart = b.session.apart; unsplit = b.session.unsplit; counted = b.session.counted; sixteen = b.session.sixteen; within = b.session.within; fresh = b.session.fresh; past = b.session.past } } };
}

impl<D: Disk> Book<D> {
    /// The rows of the best rota, which are legal for the instance.
    pub fn best(&self) -> &Rows
        ensures best { result.now ≡ self.now.log.book.best }
        ensures sound { IsSound self.now.log.instance self.now.log.book }
    {
        self.session.log().state().best()
    }

    /// What every legal rota is known to cost at least.
    pub fn floor(&self) -> u64
        ensures floor { result ≡ floor_of self.now.log.book }
        ensures sound { IsSound self.now.log.instance self.now.log.book }
    {
        self.session.log().state().floor()
    }

    /// How many steps were taken since the book was opened.
    pub fn taken(&self) -> u64
        ensures { result ≡ self.now.taken }
    {
        self.session.taken()
    }

    /// Whether no node is open. Then the best rota is cheapest.
    pub fn finished(&self) -> bool
        ensures { result ≡ is_finished self.now.log.book }
    {
        self.session.is_finished()
    }

    /// The posts, from the first one in the file on.
    pub fn history(&self) -> &[Post]
        ensures history { result.now ≡ self.now.log.history }
        ensures few { length self.now.log.history < 2 ^ 24 }
        ensures folds { book_of self.now.log.instance self.now.log.history ≡ Some self.now.log.book }
    {
        let _made = self.session.log().made();
        self.session.log().state().history()
    }

    /// How many records were made since the book was opened, with all that a crash at any moment may leave, and why the
    /// book is shut, where it is. The moment at which the last of them was acknowledged isn't after now, even where a disk
    /// fault shut the book, and since then no more calls were made than one more record takes.
    pub fn batches(&self) -> u64
        ensures made { result ≡ length self.now.log.batches }
        ensures all { self.now.log.history ≡ self.now.log.opening ++ joined self.now.log.batches }
        ensures lasts { PostsLast D.reads D.images_since D.calls self.now.log }
        ensures running { self.now.log.in_flight ≡ [] → IsRunningPosts D.reads D.images D.calls self.now.log }
        ensures single { length self.now.log.in_flight ≤ 1 }
        ensures moment { D.calls self.now.log.opened + 4 * length self.now.log.batches ≤ D.calls self.now.log.disk }
        ensures most { D.calls self.now.log.disk ≤ D.calls self.now.log.opened + 4 * length self.now.log.batches + 4 }
        ensures telling { TellsAlike (D.reads self.now.log.opened) (D.reads self.now.log.disk) }
        ensures faults { D.faults self.now.log.opened ≤ D.faults self.now.log.disk }
        ensures fault { ShutOf self.now.log.limit (D.faults self.now.log.opened) (D.faults self.now.log.disk) self.now.log.in_flight self.now.log.shut }
    {
        self.session.log().made()
    }

    /// A worker whose hand is empty takes a node, if one is to be had.
    pub fn take(&mut self, worker: u32) -> Taken
        requires worker { worker < 16 }
        requires empty { hand self.old.hands worker ≡ None }
        ensures log { self.new.log ≡ self.old.log }
        ensures makes { TakeMakes result worker (board_of D.reads D.calls D.faults self.old) (board_of D.reads D.calls D.faults self.new) }
    {
        self.session.take(worker)
    }

    /// Whether it gives nodes: nothing shut it, a node is open, no worker gave up, and a step is left.
    pub fn gives(&self) -> bool
        ensures { IsTrue result ↔ Gives (board_of D.reads D.calls D.faults self.now) }
    {
        self.session.gives()
    }

    /// The cuts of the node in a worker's hand.
    pub fn cuts(&self, worker: u32) -> Result<Cuts, NoMemory>
        requires worker { worker < 16 }
        requires full { IsSome (hand self.now.hands worker) }
        ensures cuts { IfOk result (λ cuts. (k : ℕ) → hand self.now.hands worker ≡ Some k → cuts ≡ cuts_in self.now.log.book.nodes k) }
        ensures few { IfOk result (λ cuts. length cuts ≤ 2 ^ 24) }
    {
        self.session.cuts(worker)
    }

    /// What is known already of the node in a worker's hand: the prices last posted for it or above it, and the best rota. Nothing
    /// is promised of it.
    pub fn hint(&self, worker: u32) -> Result<Hint, NoMemory>
        requires worker { worker < 16 }
        requires full { IsSome (hand self.now.hands worker) }
    {
        self.session.hint(worker)
    }

    /// A worker commits a step for the node in its hand, and lets go of it. All posts of the step are one record; where it has
    /// none, no record is made. Memory is taken before the first call on the disk.
    pub fn commit(&mut self, worker: u32, step: StepPosts) -> Result<Kept, CommitFault>
        requires worker { worker < 16 }
        requires fits { Fits self.old.log.instance step }
        ensures ok { IfOk result (Commits worker step (board_of D.reads D.calls D.faults self.old) (board_of D.reads D.calls D.faults self.new)) }
        ensures recorded { IfOk result (RecordsStep D.calls worker step self.old.log self.new.log) }
        ensures err { IfErr result (CommitRefuses worker step (board_of D.reads D.calls D.faults self.old) (board_of D.reads D.calls D.faults self.new)) }
        ensures left { IfErr result (LeavesLog D.faults worker step self.old.log self.new.log) }
    {
        self.session.commit(worker, step)
    }

    /// A worker lets go of the node in its hand, if there is one, without a commit. The book gives no more nodes then.
    pub fn yield_node(&mut self, worker: u32)
        requires { worker < 16 }
        ensures log { self.new.log ≡ self.old.log }
        ensures yields { board_of D.reads D.calls D.faults self.new ≡ yields worker (board_of D.reads D.calls D.faults self.old) }
    {
        self.session.yield_node(worker);
    }

    /// The node in a worker's hand.
    pub fn held(&self, worker: u32) -> Option<u32>
        requires { worker < 16 }
        ensures { result ≡ hand self.now.hands worker }
    {
        self.session.held(worker)
    }

    /// What the best rota costs.
    pub fn best_cost(&self) -> u64
        ensures { result ≡ self.now.log.book.cost }
    {
        self.session.log().state().cost()
    }

    /// How many posts there are.
    pub fn posts(&self) -> u64
        ensures { result ≡ length self.now.log.history }
    {
        self.session.log().state().history().len() as u64
    }

    /// The disk, handed back. It takes no memory.
    pub fn into_disk(self) -> D
        ensures { result ≡ self.log.disk }
    {
        let Book { session } = self;
        session.into_disk()
    }

    // The book of a log of posts and their open nodes, before any step.
    pub(crate) fn over(log: PostLog<D>, nodes: OpenNodes, budget: u64) -> Book<D>
        requires open { log.shut ≡ None }
        requires new { log.history ≡ log.opening }
        requires nodes { ListsFree log.book empty_hands nodes.entries }
        ensures log { result.log ≡ log }
        ensures hands { result.hands ≡ empty_hands }
        ensures steps { (result.taken ≡ 0) × (result.budget ≡ budget) × (result.halted ≡ false) }
    {
        Book {
            session: Session::over(log, nodes, budget),
        }
    }
}
