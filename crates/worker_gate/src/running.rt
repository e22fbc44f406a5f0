//! The run of workers over a board, for a ledger of its commits.
ghost use Rattle.std.specs.Prelude.{◌≡◌, ◌+◌, ◌<◌, ◌≤◌, ◌^◌, ℕ, All, IfOk, None, Some, false, true, length, slice_index_or, sum_by, vec_len};
ghost use Rattle.best_cell.specs.Told.{last_of};
ghost use Rattle.search_core.specs.Board.{BoardView};
ghost use Rattle.search_core.specs.Core.{empty_hands};
ghost use Rattle.board_lock.specs.Best.{best_of};
ghost use Rattle.board_lock.specs.Roots.{root_at};
ghost use Rattle.board_lock.specs.Turns.{AreTurns};
ghost use Rattle.worker_gate.specs.Workers.{IsToldLast, WorkersEnd};

use crate::bench::work_bench;
use crate::last::{empty_all, go_on};
use crate::noted::Noted;
use crate::seat::Place;
use crate::seating::{seat_all, unseat_all};
use crate::{Gate, RunEnd, Seat};
use advice::{Adviser, Stop};
use best_cell::{Reader, Teller, pair};
use board_lock::{Begun, BestOf, Desk, Held, Lock};
use break_rules::NoMemory;
use dual_bound::Buffers;
use search_core::Board;
use shift_instance::Instance;
use std::alloc::Global;
use std::sync::Wait;
use std::sync::ledger::Blank;
use std::thread::Threads;

/// Whether a worker saw that the run is asked to stop.
fn saw_stop<B: Board, L: Begun, S: Stop>(bench: &[Place<B, L>], _stop: &S) -> bool
    requires asked { (i : ℕ) (d : _) → i < length bench.now → (slice_index_or bench.now i d).asked ≡ true → S.can_ask _stop.now ≡ true }
    ensures { result ≡ true → S.can_ask _stop.now ≡ true }
{
    for place in bench {
        if place.asked {
            return true;
        }
    }
    false
}

/// Once all workers have ended: empties each hand, goes on with the first seat unless a worker saw that the run is asked to stop, and
/// tells how the run ends.
pub(crate) fn finish_all<B: Board, L: Begun, G: Gate, S: Stop>(
    alloc: Global,
    instance: &Instance,
    noted: &mut Noted<B, L>,
    gate: &G,
    stop: &S,
    bench: &mut Vec<Place<B, L>>,
) -> RunEnd
    requires some { 0 < vec_len bench.old }
    requires numbers { (i : ℕ) (d : _) → i < vec_len bench.old → (slice_index_or bench.old.items i d).number ≡ i }
    requires all { vec_len bench.old ≡ noted.old.held.workers }
    requires instance { (B.seen noted.old.held.opened.value).instance ≡ instance.now }
    requires budget { (B.seen noted.old.held.opened.value).budget < 2 ^ 63 }
    requires asked { (i : ℕ) (d : _) → i < vec_len bench.old → (slice_index_or bench.old.items i d).asked ≡ true → S.can_ask stop.now ≡ true }
    ensures keeps { noted.new.keeps ≡ noted.old.keeps }
    ensures root { root_at noted.new.held.opened noted.new.held.workers ≡ root_at noted.old.held.opened noted.old.held.workers }
    ensures end { (before : BoardView) → WorkersEnd before (B.seen noted.new.held.board) result }
    ensures stopped { result ≡ RunEnd.Stopped → S.can_ask stop.now ≡ true }
    ensures len { length bench.new.items ≡ length bench.old.items }
    ensures told { (i : ℕ) (d : _) → i < vec_len bench.old → told (slice_index_or bench.old.items i d).seat.adviser < 2 ^ 63 + (slice_index_or bench.old.items i d).seat.told
        → told (slice_index_or bench.new.items i d).seat.adviser + (slice_index_or bench.old.items i d).seat.told ≡ told (slice_index_or bench.old.items i d).seat.adviser + (slice_index_or bench.new.items i d).seat.told }
    ensures last { (i : ℕ) (d : _) → i < vec_len bench.old
        → IsToldLast noted.old.held.workers (B.seen noted.old.held.opened.value) i (slice_index_or bench.old.items i d).seat.told (slice_index_or bench.new.items i d).seat.told (last (slice_index_or bench.old.items i d).seat.adviser) (last (slice_index_or bench.new.items i d).seat.adviser) }
{
    let asked = saw_stop(bench.as_slice(), stop);
    let mut buffers = Buffers::new(alloc, instance);
    empty_all(alloc, instance, &mut buffers, noted, bench.as_mut_slice());
    go_on(
        alloc,
        instance,
        &mut buffers,
        noted,
        gate,
        stop,
        asked,
        &mut bench[0],
    )
}

/// So many readers of a cell.
fn readers_of<L: Begun>(
    alloc: Global,
    first: Reader<BestOf<L>>,
    count: usize,
) -> Result<Vec<Reader<BestOf<L>>>, NoMemory>
    ensures { IfOk result (λ readers. vec_len readers ≡ count) }
{
    let mut first = first;
    let mut readers = Vec::with_capacity(alloc, count)?;
    while readers.len() < count {
        readers.push_reserved(first.split()?);
    }
    Ok(readers)
}

/// A teller that has told what the best rota costs on a board as it was opened, and so many readers.
pub(crate) fn tellings<B: Board, L: Begun, R: Wait>(
    rt: &R,
    alloc: Global,
    board: &B,
    count: usize,
) -> Result<(Teller<BestOf<L>>, Vec<Reader<BestOf<L>>>), NoMemory>
    requires { L.begun_at ≡ Some (B.seen board.now) }
    ensures teller { IfOk result (λ made. last_of made.0 ≡ best_of (B.seen board.now)) }
    ensures readers { IfOk result (λ made. vec_len made.1 ≡ count) }
{
    let (teller, first) = pair::<BestOf<L>, R>(rt, alloc, board.posts(), board.best_cost())?;
    let readers = readers_of(alloc, first, count)?;
    Ok((teller, readers))
}

/// What `run_workers` does, for the ledger that the blank stands for.
pub(crate) fn run_in<
    B: Board + Send,
    L: Begun + Send + Sync,
    G: Gate + Sync,
    S: Stop + Sync,
    R: Threads + Wait + Sync,
>(
    rt: &R,
    alloc: Global,
    instance: &Instance,
    board: B,
    mut seats: Vec<Seat>,
    gate: &G,
    stop: &S,
    blank: Blank,
) -> (B, Vec<Seat>, RunEnd)
    requires ledger { (blank.name ≡ L.name) × (blank.parts ≡ L.parts) × (blank.parts ≡ vec_len seats + 1) }
    requires begun { (L.begun_at ≡ Some (B.seen board)) × (L.begun_by ≡ vec_len seats) }
    requires instance { (B.seen board).instance ≡ instance.now }
    requires fresh { (B.seen board).taken ≡ 0 }
    requires running { (B.seen board).shut ≡ None }
    requires going { (B.seen board).halted ≡ false }
    requires empty { (B.seen board).hands ≡ empty_hands }
    requires budget { (B.seen board).budget < 2 ^ 63 }
    requires some { 0 < vec_len seats }
    requires sixteen { vec_len seats ≤ 16 }
    requires new { All (λ s. (s.told ≡ 0) × (s.share ≡ 0)) seats.items }
    ensures turns { ∥ AreTurns (vec_len seats) (B.seen board) (B.seen result.0) (sum_by (λ s. s.share) result.1.items) ∥₁ }
    ensures end { WorkersEnd (B.seen board) (B.seen result.0) result.2 }
    ensures stopped { result.2 ≡ RunEnd.Stopped → S.can_ask stop.now ≡ true }
    ensures seats { vec_len result.1 ≡ vec_len seats }
    ensures each { All (λ s. s.told ≡ s.share) result.1.items }
    ensures told { (i : ℕ) (d : _) → i < vec_len seats → told (slice_index_or seats.items i d).adviser < 2 ^ 63
        → told (slice_index_or result.1.items i d).adviser ≡ told (slice_index_or seats.items i d).adviser + (slice_index_or result.1.items i d).told }
    ensures last { (i : ℕ) (d : _) → i < vec_len seats
        → IsToldLast (vec_len seats) (B.seen board) i 0 (slice_index_or result.1.items i d).told (last (slice_index_or seats.items i d).adviser) (last (slice_index_or result.1.items i d).adviser) }
{
    let Ok(mut bench) = Vec::<Place<B, L>>::with_capacity(alloc, seats.len()) else {
        return (board, seats, RunEnd::NoMemory);
    };
    let Ok((teller, mut readers)) = tellings(rt, alloc, &board, seats.len()) else {
        return (board, seats, RunEnd::NoMemory);
    };
    let (commits, mut all) = blank.open::<L>();
    let held = Held::new(board, seats.len() as u32, commits);
    let (lock, mut first) = match Lock::new(alloc, Desk { held, teller }) {
        Ok(made) => made,
        Err(desk) => {
            let Desk { held, teller: _ } = desk;
            let board = held.into_board(&mut all);
            return (board, seats, RunEnd::NoMemory);
        }
    };
    seat_all(
        &lock,
        &mut first,
        &mut all,
        &mut seats,
        &mut readers,
        &mut bench,
    );
    work_bench(rt, alloc, instance, &lock, gate, stop, &mut bench);
    let Desk { held, teller: _ } = lock.enter(rt, &mut first);
    lock.retire(first);
    let mut noted = Noted::unkept(alloc, held);
    let end = finish_all(alloc, instance, &mut noted, gate, stop, &mut bench);
    let Noted {
        held,
        passes: _,
        keeps: _,
    } = noted;
    unseat_all(&mut bench, &mut seats, &mut all);
    let board = held.into_board(&mut all);
    (board, seats, end)
}
