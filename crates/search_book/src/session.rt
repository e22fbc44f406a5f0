//! The posts of a search on a disk, with the hands of its workers and its steps.
ghost use Rattle.std.specs.Prelude.{◌≡◌, ◌↔◌, ℕ, ◌^◌, ◌<◌, ◌≤◌, ◌++◌, false, true, length, not, IfErr, IfOk, IsSome, IsTrue, None, Some};
ghost use Rattle.search_core.specs.Board.{yields, CommitRefuses, Commits, Gives, TakeMakes};
ghost use Rattle.search_core.specs.Book.{book_of, is_finished, is_node_and};
ghost use Rattle.search_core.specs.Calls.{full_hands};
ghost use Rattle.search_core.specs.Core.{empty_hands, hand, AreApart};
ghost use Rattle.search_core.specs.Kept.{cuts_in};
ghost use Rattle.search_core.specs.Steps.{Fits};
ghost use Rattle.search_core.specs.declared.board.Shutting.TheVariants.{Full};
ghost use Rattle.search_book.specs.Committing.{LeavesLog, RecordsStep};
ghost use Rattle.post_codec.specs.Batches.{joined};
ghost use Rattle.search_book.specs.Listing.{ListsAllFree, ListsFree, ListsOnlyFree};
ghost use Rattle.search_book.specs.Search.{board_at, IsOver};

use crate::committing::{may_commit, record_step};
use crate::listing::{follow_step, give_back, holds_open};
use crate::post_log::PostLog;
use break_rules::NoMemory;
use head_splits::{Cuts, Hint};
use open_nodes::OpenNodes;
use plan_base::Disk;
use search_core::{CommitFault, Hands, Kept, StepPosts, Taken, WORKERS_MAX};

/// For how many open nodes a commit makes room: for the two that its step may split off, and for one from each hand.
const ROOM: u32 = 2 + WORKERS_MAX;

/// The posts of a search with their disk, the node in the hand of each worker, the open nodes that no worker holds, how many
/// steps were taken and how many may be, and whether a worker let go of its node without a commit.
#[derive(Drop)]
pub(crate) struct Session<D: Disk> {
    log: PostLog<D>,
    hands: Hands,
    nodes: OpenNodes,
    taken: u64,
    budget: u64,
    halted: bool,
    ghost all: { log.history ≡ log.opening ++ joined log.batches },
    ghost folds: { book_of log.instance log.history ≡ Some log.book },
    ghost apart: { AreApart hands },
    ghost unsplit: { (w x : ℕ) → hand hands w ≡ Some x → is_node_and log.book x (λ n. not n.split) ≡ true },
    ghost counted: { (w x : ℕ) → hand hands w ≡ Some x → 0 < taken },
    ghost sixteen: { length hands ≡ 16 },
    ghost within: { taken ≤ budget },
    ghost fresh: { taken ≡ 0 → log.history ≡ log.opening },
    ghost past: { (end most : ℕ) → log.shut ≡ Some (Full end most) → IsOver log end most },
    ghost only: { ListsOnlyFree log.book hands nodes.entries },
    ghost found: { ListsAllFree log.book hands nodes.entries },
    // there is room for the nodes in the hands
    ghost room: { full_hands hands ≤ nodes.spare },
}

impl<D: Disk> Session<D> {
    /// The log of the posts.
    pub(crate) fn log(&self) -> &PostLog<D>
        ensures { result.now ≡ self.now.log }
    {
        &self.log
    }

    /// How many steps were taken.
    pub(crate) fn taken(&self) -> u64
        ensures { result ≡ self.now.taken }
    {
        self.taken
    }

    /// A worker whose hand is empty takes a node, if one is to be had.
    pub(crate) fn take(&mut self, worker: u32) -> Taken
        requires worker { worker < 16 }
        requires empty { hand self.old.hands worker ≡ None }
        ensures log { self.new.log ≡ self.old.log }
        ensures makes { TakeMakes result worker (board_at D.reads D.calls D.faults self.old.log self.old.hands self.old.taken self.old.budget self.old.halted) (board_at D.reads D.calls D.faults self.new.log self.new.hands self.new.taken self.new.budget self.new.halted) }
    {
        if self.log.shut().is_some() {
            return Taken::Closed;
        }
        if self.is_finished() {
            return Taken::Finished;
        }
        if self.halted {
            return Taken::Halted;
        }
        if self.taken == self.budget {
            return Taken::Spent;
        }
        let _first = self.nodes.first();
        let Some((floor, node)) = self.nodes.take_first() else {
            return Taken::Idle;
        };
        let best = self.log.state().cost();
        self.hands.take(worker, node);
        self.taken += 1;
        Taken::Node { node, floor, best }
    }

    /// Whether no node is open, neither one that no worker holds nor one in a hand.
    pub(crate) fn is_finished(&self) -> bool
        ensures { result ≡ is_finished self.now.log.book }
    {
        self.nodes.first().is_none() && !holds_open(self.log.state(), &self.hands)
    }

    /// Whether it gives nodes: nothing shut it, a node is open, no worker gave up, and a step is left.
    pub(crate) fn gives(&self) -> bool
        ensures { IsTrue result ↔ Gives (board_at D.reads D.calls D.faults self.now.log self.now.hands self.now.taken self.now.budget self.now.halted) }
    {
        if self.log.shut().is_some() {
            return false;
        }
        if self.is_finished() {
            return false;
        }
        if self.halted {
            return false;
        }
        self.taken < self.budget
    }

    /// The cuts of the node in a worker's hand.
    pub(crate) fn cuts(&self, worker: u32) -> Result<Cuts, NoMemory>
        requires worker { worker < 16 }
        requires full { IsSome (hand self.now.hands worker) }
        ensures cuts { IfOk result (λ cuts. (k : ℕ) → hand self.now.hands worker ≡ Some k → cuts ≡ cuts_in self.now.log.book.nodes k) }
        ensures few { IfOk result (λ cuts. length cuts ≤ 2 ^ 24) }
    {
        let _made = self.log.made();
        match self.hands.held(worker) {
            Some(node) => self.log.state().cuts_of(node),
            None => unreachable!(),
        }
    }

    /// What is known already of the node in a worker's hand.
    pub(crate) fn hint(&self, worker: u32) -> Result<Hint, NoMemory>
        requires worker { worker < 16 }
        requires full { IsSome (hand self.now.hands worker) }
    {
        let _made = self.log.made();
        match self.hands.held(worker) {
            Some(node) => self.log.state().hint(node),
            None => unreachable!(),
        }
    }

    /// A worker commits a step for the node in its hand, and lets go of it. All posts of the step are one record; where it has
    /// none, no record is made. Memory is taken before the first call on the disk.
    pub(crate) fn commit(&mut self, worker: u32, step: StepPosts) -> Result<Kept, CommitFault>
        requires worker { worker < 16 }
        requires fits { Fits self.old.log.instance step }
        ensures ok { IfOk result (Commits worker step (board_at D.reads D.calls D.faults self.old.log self.old.hands self.old.taken self.old.budget self.old.halted) (board_at D.reads D.calls D.faults self.new.log self.new.hands self.new.taken self.new.budget self.new.halted)) }
        ensures recorded { IfOk result (RecordsStep D.calls worker step self.old.log self.new.log) }
        ensures err { IfErr result (CommitRefuses worker step (board_at D.reads D.calls D.faults self.old.log self.old.hands self.old.taken self.old.budget self.old.halted) (board_at D.reads D.calls D.faults self.new.log self.new.hands self.new.taken self.new.budget self.new.halted)) }
        ensures left { IfErr result (LeavesLog D.faults worker step self.old.log self.new.log) }
    {
        match may_commit(&self.log, &self.hands, worker, &step) {
            Ok(()) => {}
            Err(fault) => return Err(fault),
        }
        if let Some((floor, best)) = self.log.state().stays_open(&step) {
            return Err(CommitFault::NotClosing { floor, best, step });
        }
        let Ok(()) = self.nodes.reserve(ROOM) else {
            return Err(CommitFault::NoMemory);
        };
        let _made = self.log.made();
        let count = self.log.state().nodes().len() as u32;
        let best = self.log.state().cost();
        let kept = match record_step(&mut self.log, worker as u16, step) {
            Ok(kept) => kept,
            Err(fault) => return Err(fault),
        };
        let _made = self.log.made();
        follow_step(&mut self.nodes, self.log.state(), count, best);
        self.hands.release(worker);
        Ok(kept)
    }

    /// A worker lets go of the node in its hand, if there is one, without a commit. No more nodes are given then.
    pub(crate) fn yield_node(&mut self, worker: u32)
        requires { worker < 16 }
        ensures log { self.new.log ≡ self.old.log }
        ensures yields { board_at D.reads D.calls D.faults self.new.log self.new.hands self.new.taken self.new.budget self.new.halted ≡ yields worker (board_at D.reads D.calls D.faults self.old.log self.old.hands self.old.taken self.old.budget self.old.halted) }
    {
        let held = self.hands.held(worker);
        give_back(&mut self.nodes, self.log.state(), held);
        self.hands.release(worker);
        self.halted = true;
    }

    /// The node in a worker's hand.
    pub(crate) fn held(&self, worker: u32) -> Option<u32>
        requires { worker < 16 }
        ensures { result ≡ hand self.now.hands worker }
    {
        self.hands.held(worker)
    }

    /// The disk, handed back. It takes no memory.
    pub(crate) fn into_disk(self) -> D
        ensures { result ≡ self.log.disk }
    {
        let Session {
            log,
            hands: _,
            nodes: _,
            taken: _,
            budget: _,
            halted: _,
        } = self;
        log.into_disk()
    }

    /// A session of a log of posts and their open nodes, before any step.
    pub(crate) fn over(log: PostLog<D>, nodes: OpenNodes, budget: u64) -> Session<D>
        requires open { log.shut ≡ None }
        requires new { log.history ≡ log.opening }
        requires nodes { ListsFree log.book empty_hands nodes.entries }
        ensures log { result.log ≡ log }
        ensures hands { result.hands ≡ empty_hands }
        ensures steps { (result.taken ≡ 0) × (result.budget ≡ budget) × (result.halted ≡ false) }
    {
        let _made = log.made();
        let hands = Hands::empty();
        let _held = hands.held(0);
        Session {
            log,
            hands,
            nodes,
            taken: 0,
            budget,
            halted: false,
        }
    }
}
