//! What the caller does with the board alone, once all workers have ended.
ghost use Rattle.std.specs.Prelude.{◌≡◌, ◌≢◌, ◌+◌, ◌<◌, ◌≤◌, ◌^◌, ℕ, true, None, Some, IfOk, OnErr, OnOk, length, slice_index_or, slice_set};
ghost use Rattle.search_core.specs.Board.{book_at, BoardView, HoldsStep};
ghost use Rattle.search_core.specs.Core.{empty_hands, hand};
ghost use Rattle.search_core.specs.Kept.{cuts_in};
ghost use Rattle.search_core.specs.Steps.{Fits};
ghost use Rattle.board_lock.specs.Roots.{root_at};
ghost use Rattle.worker_gate.specs.Runs.{news_of};
ghost use Rattle.worker_gate.specs.Workers.{IsNews, IsToldLast, KnowsBoard, WorkersEnd};

use crate::noted::Noted;
use crate::seat::Place;
use crate::turns::{Left, Rest, Work};
use crate::worker::{closed_again, decide};
use crate::{Gate, RunEnd};
use advice::{Adviser, Stop};
use board_lock::Begun;
use dual_bound::Buffers;
use search_core::{Board, Kept, Shutting, StepPosts, Taken};
use shift_instance::Instance;
use std::alloc::Global;
use std::sync::ledger::Share;

/// How a run ends on a board that is shut.
fn end_of(shut: Shutting) -> RunEnd
    ensures disk { shut ≡ Shutting.DiskFault → result ≡ RunEnd.DiskFault }
    ensures full { (end limit : ℕ) → shut ≡ Shutting.Full end limit → result ≡ RunEnd.Full end limit }
    ensures unasked { result ≢ RunEnd.Stopped }
{
    match shut {
        Shutting::DiskFault => RunEnd::DiskFault,
        Shutting::Full { end, limit } => RunEnd::Full { end, limit },
    }
}

/// Commits a step for the node in a hand. Where by its price alone it would leave the node open, it is committed once more, closed by
/// the split or the settled plan that its cuts have. Unless the board is shut, the hand is empty afterwards.
fn commit_alone<B: Board, L: Begun>(
    alloc: Global,
    instance: &Instance,
    noted: &mut Noted<B, L>,
    worker: u32,
    step: StepPosts,
    share: &mut Share<L>,
) -> Result<Kept, Rest>
    requires worker { worker < 16 }
    requires instance { (B.seen noted.old.held.opened.value).instance ≡ instance.now }
    requires holds { HoldsStep worker step (B.seen noted.old.held.board) }
    requires fits { Fits instance.now step }
    requires part { 0 < share.old.parts }
    ensures keeps { noted.new.keeps ≡ noted.old.keeps }
    ensures root { root_at noted.new.held.opened noted.new.held.workers ≡ root_at noted.old.held.opened noted.old.held.workers }
    ensures emptied { (B.seen noted.new.held.board).shut ≡ None → (B.seen noted.new.held.board).hands ≡ slice_set (B.seen noted.old.held.board).hands worker None }
    ensures taken { (B.seen noted.new.held.board).taken ≡ (B.seen noted.old.held.board).taken }
    ensures counted { OnOk result (share.new.amount ≡ share.old.amount + 1) }
    ensures uncounted { OnErr result (share.new.amount ≡ share.old.amount) }
    ensures within { OnOk result (share.new.amount ≤ (B.seen noted.old.held.opened.value).budget) }
    ensures parts { share.new.parts ≡ share.old.parts }
    ensures news { IfOk result (λ kept. ∥ IsNews noted.old.held.workers (B.seen noted.old.held.opened.value) worker (news_of step.node kept) ∥₁) }
{
    let step = match noted.commit(worker, step, share) {
        Ok(kept) => return Ok(kept),
        Err(Left::NotClosing(step)) => step,
        Err(Left::End) => return Err(Rest::End),
        // the worker holds the step's node, and the prices are for its cuts
        Err(Left::Again) => unreachable!(),
    };
    let Ok(step) = closed_again(alloc, instance, step) else {
        noted.yield_node(worker);
        return Err(Rest::End);
    };
    match noted.commit(worker, step, share) {
        Ok(kept) => Ok(kept),
        Err(Left::End) => Err(Rest::End),
        Err(Left::Again) => unreachable!(),
        // the step isn't closed by its price
        Err(Left::NotClosing(_)) => unreachable!(),
    }
}

/// Finishes the node in a hand with that hand's seat. Unless the board is shut, the hand is empty afterwards.
fn finish<B: Board, L: Begun>(
    alloc: Global,
    instance: &Instance,
    buffers: &mut Buffers,
    noted: &mut Noted<B, L>,
    place: &mut Place<B, L>,
    work: Work,
)
    requires knows { KnowsBoard B.seen instance.now place.old.number (root_at noted.old.held.opened noted.old.held.workers) }
    requires buffers { buffers.old ≡ instance.now }
    requires running { (B.seen noted.old.held.board).shut ≡ None }
    requires holds { hand (B.seen noted.old.held.board).hands place.old.number ≡ Some work.node }
    requires cuts { work.ask.cuts ≡ cuts_in (book_at (B.seen noted.old.held.board)).nodes work.node }
    requires few { length work.ask.cuts ≤ 2 ^ 24 }
    ensures keeps { noted.new.keeps ≡ noted.old.keeps }
    ensures root { root_at noted.new.held.opened noted.new.held.workers ≡ root_at noted.old.held.opened noted.old.held.workers }
    ensures buffers { buffers.new ≡ buffers.old }
    ensures emptied { (B.seen noted.new.held.board).shut ≡ None → (B.seen noted.new.held.board).hands ≡ slice_set (B.seen noted.old.held.board).hands place.old.number None }
    ensures taken { (B.seen noted.new.held.board).taken ≡ (B.seen noted.old.held.board).taken }
    ensures number { place.new.number ≡ place.old.number }
    ensures told { told place.old.seat.adviser < 2 ^ 63 + place.old.seat.told
        → told place.new.seat.adviser + place.old.seat.told ≡ told place.old.seat.adviser + place.new.seat.told }
    ensures last { IsToldLast noted.old.held.workers (B.seen noted.old.held.opened.value) place.old.number place.old.seat.told place.new.seat.told (last place.old.seat.adviser) (last place.new.seat.adviser) }
{
    let Place {
        chair: _,
        seat,
        share,
        number,
        reader: _,
        steps: _,
        asked: _,
    } = place;
    let Work {
        node,
        ask,
        taken: _,
    } = work;
    let Ok(step) = decide(alloc, instance, buffers, seat, node, ask) else {
        noted.yield_node(*number);
        return;
    };
    let Ok(kept) = commit_alone(alloc, instance, noted, *number, step, share) else {
        return;
    };
    seat.tell(node, kept);
}

/// Finishes the node in a hand, or lets go of it where there is no memory for its cuts. Unless the board is shut, the hand is empty
/// afterwards.
fn finish_node<B: Board, L: Begun>(
    alloc: Global,
    instance: &Instance,
    buffers: &mut Buffers,
    noted: &mut Noted<B, L>,
    place: &mut Place<B, L>,
    node: u32,
    floor: u64,
    best: u64,
)
    requires knows { KnowsBoard B.seen instance.now place.old.number (root_at noted.old.held.opened noted.old.held.workers) }
    requires buffers { buffers.old ≡ instance.now }
    requires running { (B.seen noted.old.held.board).shut ≡ None }
    requires holds { hand (B.seen noted.old.held.board).hands place.old.number ≡ Some node }
    ensures keeps { noted.new.keeps ≡ noted.old.keeps }
    ensures root { root_at noted.new.held.opened noted.new.held.workers ≡ root_at noted.old.held.opened noted.old.held.workers }
    ensures buffers { buffers.new ≡ buffers.old }
    ensures emptied { (B.seen noted.new.held.board).shut ≡ None → (B.seen noted.new.held.board).hands ≡ slice_set (B.seen noted.old.held.board).hands place.old.number None }
    ensures taken { (B.seen noted.new.held.board).taken ≡ (B.seen noted.old.held.board).taken }
    ensures number { place.new.number ≡ place.old.number }
    ensures told { told place.old.seat.adviser < 2 ^ 63 + place.old.seat.told
        → told place.new.seat.adviser + place.old.seat.told ≡ told place.old.seat.adviser + place.new.seat.told }
    ensures last { IsToldLast noted.old.held.workers (B.seen noted.old.held.opened.value) place.old.number place.old.seat.told place.new.seat.told (last place.old.seat.adviser) (last place.new.seat.adviser) }
{
    if let Ok(work) = noted.work_of(place.number, node, floor, best, false) {
        finish(alloc, instance, buffers, noted, place, work);
    }
}

/// Empties a hand, unless the board is shut: its node is finished with its seat, or let go of where a worker gave up.
fn empty_hand<B: Board, L: Begun>(
    alloc: Global,
    instance: &Instance,
    buffers: &mut Buffers,
    noted: &mut Noted<B, L>,
    place: &mut Place<B, L>,
)
    requires knows { KnowsBoard B.seen instance.now place.old.number (root_at noted.old.held.opened noted.old.held.workers) }
    requires buffers { buffers.old ≡ instance.now }
    ensures keeps { noted.new.keeps ≡ noted.old.keeps }
    ensures root { root_at noted.new.held.opened noted.new.held.workers ≡ root_at noted.old.held.opened noted.old.held.workers }
    ensures buffers { buffers.new ≡ buffers.old }
    ensures emptied { (B.seen noted.new.held.board).shut ≡ None → (B.seen noted.new.held.board).hands ≡ slice_set (B.seen noted.old.held.board).hands place.old.number None }
    ensures running { (B.seen noted.new.held.board).shut ≡ None → (B.seen noted.old.held.board).shut ≡ None }
    ensures number { place.new.number ≡ place.old.number }
    ensures told { told place.old.seat.adviser < 2 ^ 63 + place.old.seat.told
        → told place.new.seat.adviser + place.old.seat.told ≡ told place.old.seat.adviser + place.new.seat.told }
    ensures last { IsToldLast noted.old.held.workers (B.seen noted.old.held.opened.value) place.old.number place.old.seat.told place.new.seat.told (last place.old.seat.adviser) (last place.new.seat.adviser) }
{
    let number = place.number;
    if noted.held.shut.is_some() {
        return;
    }
    let Some(node) = noted.held.board.held(number) else {
        return;
    };
    if noted.held.halted {
        noted.yield_node(number);
        return;
    }
    let best = noted.held.board.best_cost();
    finish_node(alloc, instance, buffers, noted, place, node, 0, best);
}

/// Empties each hand, unless the board is shut. The places have the numbers of the hands.
pub(crate) fn empty_all<B: Board, L: Begun>(
    alloc: Global,
    instance: &Instance,
    buffers: &mut Buffers,
    noted: &mut Noted<B, L>,
    bench: &mut [Place<B, L>],
)
    requires numbers { (i : ℕ) (d : _) → i < length bench.old → (slice_index_or bench.old i d).number ≡ i }
    requires all { length bench.old ≡ noted.old.held.workers }
    requires knows { (i : ℕ) → i < noted.old.held.workers → KnowsBoard B.seen instance.now i (root_at noted.old.held.opened noted.old.held.workers) }
    requires buffers { buffers.old ≡ instance.now }
    ensures keeps { noted.new.keeps ≡ noted.old.keeps }
    ensures root { root_at noted.new.held.opened noted.new.held.workers ≡ root_at noted.old.held.opened noted.old.held.workers }
    ensures buffers { buffers.new ≡ buffers.old }
    ensures empty { (B.seen noted.new.held.board).shut ≡ None → (B.seen noted.new.held.board).hands ≡ empty_hands }
    ensures len { length bench.new ≡ length bench.old }
    ensures numbers { (i : ℕ) (d : _) → i < length bench.old → (slice_index_or bench.new i d).number ≡ i }
    ensures told { (i : ℕ) (d : _) → i < length bench.old → told (slice_index_or bench.old i d).seat.adviser < 2 ^ 63 + (slice_index_or bench.old i d).seat.told
        → told (slice_index_or bench.new i d).seat.adviser + (slice_index_or bench.old i d).seat.told ≡ told (slice_index_or bench.old i d).seat.adviser + (slice_index_or bench.new i d).seat.told }
    ensures last { (i : ℕ) (d : _) → i < length bench.old
        → IsToldLast noted.old.held.workers (B.seen noted.old.held.opened.value) i (slice_index_or bench.old i d).seat.told (slice_index_or bench.new i d).seat.told (last (slice_index_or bench.old i d).seat.adviser) (last (slice_index_or bench.new i d).seat.adviser) }
{
    for place in bench.iter_mut() {
        empty_hand(alloc, instance, buffers, noted, place);
    }
}

/// Goes on with the first seat, as its worker did, until nothing is taken any more, and tells how the run ends. Where a worker saw
/// that the run is asked to stop, nothing is taken. Unless the board is shut, all hands are empty before and afterwards.
pub(crate) fn go_on<B: Board, L: Begun, G: Gate, S: Stop>(
    alloc: Global,
    instance: &Instance,
    buffers: &mut Buffers,
    noted: &mut Noted<B, L>,
    gate: &G,
    stop: &S,
    asked: bool,
    place: &mut Place<B, L>,
) -> RunEnd
    requires knows { KnowsBoard B.seen instance.now place.old.number (root_at noted.old.held.opened noted.old.held.workers) }
    requires buffers { buffers.old ≡ instance.now }
    requires first { place.old.number ≡ 0 }
    requires empty { (B.seen noted.old.held.board).shut ≡ None → (B.seen noted.old.held.board).hands ≡ empty_hands }
    requires asked { asked ≡ true → S.can_ask stop.now ≡ true }
    ensures keeps { noted.new.keeps ≡ noted.old.keeps }
    ensures root { root_at noted.new.held.opened noted.new.held.workers ≡ root_at noted.old.held.opened noted.old.held.workers }
    ensures buffers { buffers.new ≡ buffers.old }
    ensures end { (before : BoardView) → WorkersEnd before (B.seen noted.new.held.board) result }
    ensures stopped { result ≡ RunEnd.Stopped → S.can_ask stop.now ≡ true }
    ensures told { told place.old.seat.adviser < 2 ^ 63 + place.old.seat.told
        → told place.new.seat.adviser + place.old.seat.told ≡ told place.old.seat.adviser + place.new.seat.told }
    ensures last { IsToldLast noted.old.held.workers (B.seen noted.old.held.opened.value) 0 place.old.seat.told place.new.seat.told (last place.old.seat.adviser) (last place.new.seat.adviser) }
{
    loop {
        if let Some(shut) = noted.held.shut {
            return end_of(shut);
        }
        if (asked || stop.is_asked()) && noted.held.board.gives() {
            return RunEnd::Stopped;
        }
        match noted.take(0) {
            Taken::Node { node, floor, best } => {
                place.steps = place.steps.saturating_add(1);
                gate.enter(0, place.steps);
                finish_node(alloc, instance, buffers, noted, place, node, floor, best);
            }
            Taken::Finished => return RunEnd::Finished,
            Taken::Spent => return RunEnd::Spent,
            Taken::Halted => return RunEnd::NoMemory,
            // nothing shut the board
            Taken::Closed => unreachable!(),
            // no hand holds a node
            Taken::Idle => unreachable!(),
        }
    }
}
