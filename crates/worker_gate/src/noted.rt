//! A board with the passes of its workers.
ghost use Rattle.std.specs.Prelude.{◌≡◌, ◌+◌, ◌<◌, ◌≤◌, ◌^◌, [], None, Some, true, false, IfErr, IfOk, OnErr, OnOk, length, vec_len};
ghost use Rattle.std.specs.Vec.{vec_capacity};
ghost use Rattle.search_core.specs.Board.{book_at, yields, Commits, TakeMakes};
ghost use Rattle.search_core.specs.Core.{hand};
ghost use Rattle.search_core.specs.Kept.{cuts_in};
ghost use Rattle.search_core.specs.Steps.{Fits};
ghost use Rattle.best_cell.specs.Told.{Follows};
ghost use Rattle.board_lock.specs.Best.{best_of};
ghost use Rattle.board_lock.specs.Roots.{root_at};
ghost use Rattle.turn_lock.specs.Passes.{AddsAtMostOne};
ghost use Rattle.worker_gate.specs.Passing.{FollowOn};
ghost use Rattle.worker_gate.specs.Runs.{news_of};
ghost use Rattle.worker_gate.specs.Workers.{IsNews, LeavesStep};

use crate::turns::{Left, Rest, Work, commit_in, next_work, work_of};
use board_lock::{Begun, Held};
use break_rules::NoMemory;
use search_core::{Board, Kept, StepPosts, Taken};
use std::alloc::Global;
use std::sync::ledger::Share;
use turn_lock::Pass;

/// A board with its ledger, and the passes that were made on it since it was opened, where these are kept: one for each commit that appended posts.
pub(crate) struct Noted<B: Board, L: Begun> {
    /// The board with its ledger.
    pub(crate) held: Held<B, L>,
    /// The passes, in order.
    pub(crate) passes: Vec<Pass>,
    /// Whether they are kept.
    pub(crate) keeps: bool,
    ghost follow: { keeps ≡ true → ∥ FollowOn (B.seen held.board).history (length (B.seen held.opened.value).history) passes.items (length (B.seen held.board).history) ∥₁ },
}

impl<B: Board, L: Begun> Noted<B, L> {
    /// A board whose passes aren't kept.
    pub(crate) fn unkept(alloc: Global, held: Held<B, L>) -> Noted<B, L>
        ensures held { result.held ≡ held }
        ensures keeps { result.keeps ≡ false }
    {
        Noted {
            held,
            passes: Vec::new(alloc),
            keeps: false,
        }
    }

    /// A board as it was opened, whose passes are kept from now on.
    pub(crate) fn kept(alloc: Global, held: Held<B, L>) -> Noted<B, L>
        requires opened { held.opened.value ≡ held.board }
        ensures held { result.held ≡ held }
        ensures passes { result.passes.items ≡ [] }
        ensures keeps { result.keeps ≡ true }
    {
        Noted {
            held,
            passes: Vec::new(alloc),
            keeps: true,
        }
    }

    /// Takes room for one more pass.
    fn make_room(&mut self) -> Result<(), NoMemory>
        ensures held { self.new.held ≡ self.old.held }
        ensures passes { self.new.passes.items ≡ self.old.passes.items }
        ensures keeps { self.new.keeps ≡ self.old.keeps }
        ensures room { OnOk result (self.new.keeps ≡ true → vec_len self.new.passes < vec_capacity self.new.passes) }
    {
        if self.keeps {
            self.passes.reserve(1)?;
        }
        Ok(())
    }

    /// A worker whose hand is empty takes a node, if one is to be had.
    pub(crate) fn take(&mut self, worker: u32) -> Taken
        requires worker { worker < self.old.held.workers }
        requires empty { hand (B.seen self.old.held.board).hands worker ≡ None }
        ensures makes { TakeMakes result worker (B.seen self.old.held.board) (B.seen self.new.held.board) }
        ensures root { root_at self.new.held.opened self.new.held.workers ≡ root_at self.old.held.opened self.old.held.workers }
        ensures passes { self.new.passes.items ≡ self.old.passes.items }
        ensures keeps { self.new.keeps ≡ self.old.keeps }
    {
        self.held.take(worker)
    }

    /// A worker lets go of the node in its hand, if there is one, without a commit. The board gives no more nodes then.
    pub(crate) fn yield_node(&mut self, worker: u32)
        requires { worker < 16 }
        ensures makes { B.seen self.new.held.board ≡ yields worker (B.seen self.old.held.board) }
        ensures root { root_at self.new.held.opened self.new.held.workers ≡ root_at self.old.held.opened self.old.held.workers }
        ensures passes { self.new.passes.items ≡ self.old.passes.items }
        ensures keeps { self.new.keeps ≡ self.old.keeps }
    {
        self.held.yield_node(worker);
    }

    /// The worker's node with its cuts. Without memory for these the worker lets go of it.
    pub(crate) fn work_of(
        &mut self,
        worker: u32,
        node: u32,
        floor: u64,
        best: u64,
        taken: bool,
    ) -> Result<Work, Rest>
        requires worker { worker < 16 }
        requires holds { hand (B.seen self.old.held.board).hands worker ≡ Some node }
        ensures root { root_at self.new.held.opened self.new.held.workers ≡ root_at self.old.held.opened self.old.held.workers }
        ensures node { IfOk result (λ work. work.node ≡ node) }
        ensures cuts { IfOk result (λ work. work.ask.cuts ≡ cuts_in (book_at (B.seen self.old.held.board)).nodes node) }
        ensures few { IfOk result (λ work. length work.ask.cuts ≤ 2 ^ 24) }
        ensures same { OnOk result (B.seen self.new.held.board ≡ B.seen self.old.held.board) }
        ensures let_go { OnErr result (B.seen self.new.held.board ≡ yields worker (B.seen self.old.held.board)) }
        ensures end { IfErr result (λ rest. rest ≡ Rest.End) }
        ensures keeps { self.new.keeps ≡ self.old.keeps }
    {
        work_of(&mut self.held, worker, node, floor, best, taken)
    }

    /// The node that the worker's hand holds, or else one that it takes, unless it is asked to stop.
    fn find_work(&mut self, worker: u32, asked: bool) -> Result<Work, Rest>
        requires worker { worker < self.old.held.workers }
        ensures root { root_at self.new.held.opened self.new.held.workers ≡ root_at self.old.held.opened self.old.held.workers }
        ensures few { IfOk result (λ work. length work.ask.cuts ≤ 2 ^ 24) }
        ensures asked { IfErr result (λ rest. rest ≡ Rest.Asked → asked ≡ true) }
        ensures best { best_of (B.seen self.new.held.board) ≡ best_of (B.seen self.old.held.board) }
        ensures passes { self.new.passes.items ≡ self.old.passes.items }
        ensures keeps { self.new.keeps ≡ self.old.keeps }
    {
        next_work(&mut self.held, worker, asked)
    }

    /// The same, where there is room for a pass. Without room the worker gives up.
    pub(crate) fn next_work(&mut self, worker: u32, asked: bool) -> Result<Work, Rest>
        requires worker { worker < self.old.held.workers }
        ensures root { root_at self.new.held.opened self.new.held.workers ≡ root_at self.old.held.opened self.old.held.workers }
        ensures few { IfOk result (λ work. length work.ask.cuts ≤ 2 ^ 24) }
        ensures asked { IfErr result (λ rest. rest ≡ Rest.Asked → asked ≡ true) }
        ensures best { best_of (B.seen self.new.held.board) ≡ best_of (B.seen self.old.held.board) }
        ensures passes { self.new.passes.items ≡ self.old.passes.items }
        ensures keeps { self.new.keeps ≡ self.old.keeps }
    {
        if self.make_room().is_err() {
            self.yield_node(worker);
            return Err(Rest::End);
        }
        self.find_work(worker, asked)
    }

    /// Commits the worker's step, or tells how it goes on. Where posts are appended, and passes are kept, they make a pass, for which there is room.
    fn commit_noted(
        &mut self,
        worker: u32,
        step: StepPosts,
        share: &mut Share<L>,
    ) -> Result<Kept, Left>
        requires worker { worker < 16 }
        requires fits { Fits (B.seen self.old.held.opened.value).instance step }
        requires part { 0 < share.old.parts }
        requires room { self.old.keeps ≡ true → vec_len self.old.passes < vec_capacity self.old.passes }
        ensures root { root_at self.new.held.opened self.new.held.workers ≡ root_at self.old.held.opened self.old.held.workers }
        ensures counted { OnOk result (share.new.amount ≡ share.old.amount + 1) }
        ensures uncounted { OnErr result (share.new.amount ≡ share.old.amount) }
        ensures within { OnOk result (share.new.amount ≤ (B.seen self.old.held.opened.value).budget) }
        ensures parts { share.new.parts ≡ share.old.parts }
        ensures kept { IfOk result (Commits worker step (B.seen self.old.held.board) (B.seen self.new.held.board)) }
        ensures left { IfErr result (LeavesStep worker step (B.seen self.old.held.board) (B.seen self.new.held.board)) }
        ensures news { IfOk result (λ kept. ∥ IsNews self.old.held.workers (B.seen self.old.held.opened.value) worker (news_of step.node kept) ∥₁) }
        ensures best { Follows (best_of (B.seen self.old.held.board)) (best_of (B.seen self.new.held.board)) }
        ensures passes { AddsAtMostOne worker self.old.passes.items self.new.passes.items }
        ensures keeps { self.new.keeps ≡ self.old.keeps }
    {
        let from = self.held.board.posts();
        let kept = commit_in(&mut self.held, worker, step, share);
        if !self.keeps {
            return kept;
        }
        let to = self.held.board.posts();
        if to <= from {
            return kept;
        }
        self.passes.push_reserved(Pass {
            seat: worker,
            from,
            to,
        });
        kept
    }

    /// The same, where there is room for a pass. Without room for it, or memory for the step, the worker lets go of its node.
    pub(crate) fn commit(
        &mut self,
        worker: u32,
        step: StepPosts,
        share: &mut Share<L>,
    ) -> Result<Kept, Left>
        requires worker { worker < 16 }
        requires fits { Fits (B.seen self.old.held.opened.value).instance step }
        requires part { 0 < share.old.parts }
        ensures root { root_at self.new.held.opened self.new.held.workers ≡ root_at self.old.held.opened self.old.held.workers }
        ensures counted { OnOk result (share.new.amount ≡ share.old.amount + 1) }
        ensures uncounted { OnErr result (share.new.amount ≡ share.old.amount) }
        ensures within { OnOk result (share.new.amount ≤ (B.seen self.old.held.opened.value).budget) }
        ensures parts { share.new.parts ≡ share.old.parts }
        ensures kept { IfOk result (Commits worker step (B.seen self.old.held.board) (B.seen self.new.held.board)) }
        ensures left { IfErr result (LeavesStep worker step (B.seen self.old.held.board) (B.seen self.new.held.board)) }
        ensures news { IfOk result (λ kept. ∥ IsNews self.old.held.workers (B.seen self.old.held.opened.value) worker (news_of step.node kept) ∥₁) }
        ensures best { Follows (best_of (B.seen self.old.held.board)) (best_of (B.seen self.new.held.board)) }
        ensures passes { AddsAtMostOne worker self.old.passes.items self.new.passes.items }
        ensures keeps { self.new.keeps ≡ self.old.keeps }
    {
        if self.make_room().is_err() {
            self.yield_node(worker);
            return Err(Left::End);
        }
        self.commit_noted(worker, step, share)
    }
}
