//! The workers at their places, each in a thread.
ghost use Rattle.std.specs.Prelude.{◌≡◌, ◌<◌, ◌+◌, ◌^◌, ℕ, All, false, true, length, slice_index_or, vec_len};
ghost use Rattle.board_lock.specs.declared.roots.BoardRoot.{BoardRoot};
ghost use Rattle.worker_gate.specs.Turned.{HasBadge};
ghost use Rattle.worker_gate.specs.Workers.{IsToldLast, KnowsBoard};

use crate::gate::Gate;
use crate::seat::Place;
use crate::turns::BoardLock;
use crate::worker::work;
use advice::{Adviser, Stop};
use board_lock::Begun;
use search_core::Board;
use shift_instance::Instance;
use std::alloc::Global;
use std::sync::Wait;
use std::thread;
use std::thread::Threads;

/// The worker at each place works until there is nothing more to do, or it sees that it is asked to stop.
fn work_all<
    B: Board + Send,
    L: Begun + Send + Sync,
    G: Gate + Sync,
    S: Stop + Sync,
    R: Threads + Wait + Sync,
>(
    rt: &R,
    alloc: Global,
    instance: &Instance,
    lock: &BoardLock<B, L>,
    gate: &G,
    stop: &S,
    bench: &mut [Place<B, L>],
)
    requires some { 0 < length bench.old }
    requires rest { (root : BoardRoot B) × All (λ p. HasBadge lock.now root p.chair × KnowsBoard B.seen instance.now p.number root) bench.old }
    ensures numbers { (i : ℕ) (d : _) → i < length bench.old → (slice_index_or bench.new i d).number ≡ (slice_index_or bench.old i d).number }
    ensures told { (i : ℕ) (d : _) → i < length bench.old → told (slice_index_or bench.old i d).seat.adviser < 2 ^ 63 + (slice_index_or bench.old i d).seat.told
        → told (slice_index_or bench.new i d).seat.adviser + (slice_index_or bench.old i d).seat.told ≡ told (slice_index_or bench.old i d).seat.adviser + (slice_index_or bench.new i d).seat.told }
    ensures last { (root : BoardRoot B) → All (λ p. HasBadge lock.now root p.chair) bench.old → (i : ℕ) (d : _) → i < length bench.old
        → IsToldLast root.workers (B.seen root.opened.value) (slice_index_or bench.old i d).number (slice_index_or bench.old i d).seat.told (slice_index_or bench.new i d).seat.told (last (slice_index_or bench.old i d).seat.adviser) (last (slice_index_or bench.new i d).seat.adviser) }
    ensures asked { (i : ℕ) (d : _) → i < length bench.old → (slice_index_or bench.new i d).asked ≡ true → (slice_index_or bench.old i d).asked ≡ false → S.can_ask stop.now ≡ true }
{
    let threads = bench.len();
    thread::for_each_mut(
        rt,
        bench,
        threads,
        &|_, place: &mut Place<B, L>|
            requires { (root : BoardRoot B) × HasBadge lock.now root place.now.chair × KnowsBoard B.seen instance.now place.now.number root }
            ensures number { place.exit.now.number ≡ place.entry.now.number }
            ensures told { told place.entry.now.seat.adviser < 2 ^ 63 + place.entry.now.seat.told
                → told place.exit.now.seat.adviser + place.entry.now.seat.told ≡ told place.entry.now.seat.adviser + place.exit.now.seat.told }
            ensures last { (root : BoardRoot B) → HasBadge lock.entry.now root place.entry.now.chair
                → IsToldLast root.workers (B.seen root.opened.value) place.entry.now.number place.entry.now.seat.told place.exit.now.seat.told (last place.entry.now.seat.adviser) (last place.exit.now.seat.adviser) }
            ensures asked { place.exit.now.asked ≡ true → place.entry.now.asked ≡ false → S.can_ask stop.entry.now ≡ true }
        { work(rt, alloc, instance, lock, gate, stop, place) },
    );
}

/// The same for a bench that owns its places.
pub(crate) fn work_bench<
    B: Board + Send,
    L: Begun + Send + Sync,
    G: Gate + Sync,
    S: Stop + Sync,
    R: Threads + Wait + Sync,
>(
    rt: &R,
    alloc: Global,
    instance: &Instance,
    lock: &BoardLock<B, L>,
    gate: &G,
    stop: &S,
    bench: &mut Vec<Place<B, L>>,
)
    requires some { 0 < vec_len bench.old }
    requires rest { (root : BoardRoot B) × All (λ p. HasBadge lock.now root p.chair × KnowsBoard B.seen instance.now p.number root) bench.old.items }
    ensures len { length bench.new.items ≡ length bench.old.items }
    ensures numbers { (i : ℕ) (d : _) → i < vec_len bench.old → (slice_index_or bench.new.items i d).number ≡ (slice_index_or bench.old.items i d).number }
    ensures told { (i : ℕ) (d : _) → i < vec_len bench.old → told (slice_index_or bench.old.items i d).seat.adviser < 2 ^ 63 + (slice_index_or bench.old.items i d).seat.told
        → told (slice_index_or bench.new.items i d).seat.adviser + (slice_index_or bench.old.items i d).seat.told ≡ told (slice_index_or bench.old.items i d).seat.adviser + (slice_index_or bench.new.items i d).seat.told }
    ensures last { (root : BoardRoot B) → All (λ p. HasBadge lock.now root p.chair) bench.old.items → (i : ℕ) (d : _) → i < vec_len bench.old
        → IsToldLast root.workers (B.seen root.opened.value) (slice_index_or bench.old.items i d).number (slice_index_or bench.old.items i d).seat.told (slice_index_or bench.new.items i d).seat.told (last (slice_index_or bench.old.items i d).seat.adviser) (last (slice_index_or bench.new.items i d).seat.adviser) }
    ensures asked { (i : ℕ) (d : _) → i < vec_len bench.old → (slice_index_or bench.new.items i d).asked ≡ true → (slice_index_or bench.old.items i d).asked ≡ false → S.can_ask stop.now ≡ true }
{
    work_all(rt, alloc, instance, lock, gate, stop, bench.as_mut_slice());
}
