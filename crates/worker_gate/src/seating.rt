//! Seats are put onto a bench before a run, and taken from it afterwards.
ghost use Rattle.std.specs.Prelude.{◌≡◌, ◌≤◌, ◌<◌, ◌+◌, [], ℕ, All, false, map, slice_index_or, sum_by, vec_len};
ghost use Rattle.std.specs.Vec.{vec_capacity};
ghost use Rattle.board_lock.specs.Passes.{root_of, IsOutside};
ghost use Rattle.worker_gate.specs.Turned.{HasBadge};

use crate::chair::Chair;
use crate::seat::{Place, Seat};
use crate::turns::{BoardLock, BoardPass};
use best_cell::Reader;
use board_lock::{Begun, BestOf};
use search_core::Board;
use std::sync::ledger::Share;

/// A place for a seat, with a seat at the lock, a share of the ledger, and a reader.
fn seat_one<B: Board, L: Begun>(
    lock: &BoardLock<B, L>,
    first: &mut BoardPass<B, L>,
    all: &mut Share<L>,
    seat: Seat,
    number: u32,
    reader: Reader<BestOf<L>>,
) -> Place<B, L>
    requires first { IsOutside lock.now first.old }
    requires number { number < 16 }
    requires new { (seat.told ≡ 0) × (seat.share ≡ 0) }
    requires parts { 1 < all.old.parts }
    requires none { all.old.amount ≡ 0 }
    ensures first { IsOutside lock.now first.new }
    ensures root { root_of first.new ≡ root_of first.old }
    ensures parts { all.new.parts + 1 ≡ all.old.parts }
    ensures none { all.new.amount ≡ 0 }
    ensures seat { result.seat ≡ seat }
    ensures number { result.number ≡ number }
    ensures unasked { result.asked ≡ false }
    ensures rests { HasBadge lock.now (root_of first.old) result.chair }
{
    let pass = lock.another(first);
    let share = all.split_off(1, 0);
    Place {
        chair: Chair::Badge(pass.into_badge()),
        seat,
        share,
        number,
        reader,
        steps: 0,
        asked: false,
    }
}

/// A place for each seat, in their order, with a reader for each.
pub(crate) fn seat_all<B: Board, L: Begun>(
    lock: &BoardLock<B, L>,
    first: &mut BoardPass<B, L>,
    all: &mut Share<L>,
    seats: &mut Vec<Seat>,
    readers: &mut Vec<Reader<BestOf<L>>>,
    bench: &mut Vec<Place<B, L>>,
)
    requires first { IsOutside lock.now first.old }
    requires sixteen { vec_len seats.old ≤ 16 }
    requires new { All (λ s. (s.told ≡ 0) × (s.share ≡ 0)) seats.old.items }
    requires readers { vec_len readers.old ≡ vec_len seats.old }
    requires empty { bench.old.items ≡ [] }
    requires room { vec_len seats.old ≤ vec_capacity bench.old }
    requires parts { vec_len seats.old < all.old.parts }
    requires none { all.old.amount ≡ 0 }
    ensures first { IsOutside lock.now first.new }
    ensures root { root_of first.new ≡ root_of first.old }
    ensures parts { all.new.parts + vec_len seats.old ≡ all.old.parts }
    ensures none { all.new.amount ≡ 0 }
    ensures bench { map (λ p. p.seat) bench.new.items ≡ seats.old.items }
    ensures numbers { (i : ℕ) (d : _) → i < vec_len seats.old → (slice_index_or bench.new.items i d).number ≡ i }
    ensures unasked { All (λ p. p.asked ≡ false) bench.new.items }
    ensures rest { All (λ p. HasBadge lock.now (root_of first.old) p.chair) bench.new.items }
    ensures seats { seats.new.items ≡ [] }
    ensures kept { vec_capacity seats.new ≡ vec_capacity seats.old }
{
    while !seats.is_empty() {
        let seat = seats.remove(0);
        let number = bench.len() as u32;
        let Some(reader) = readers.pop() else {
            unreachable!()
        };
        let place = seat_one(lock, first, all, seat, number, reader);
        bench.push_reserved(place);
    }
}

/// The seats come back in their order, and their shares are put together.
pub(crate) fn unseat_all<B: Board, L: Begun>(
    bench: &mut Vec<Place<B, L>>,
    seats: &mut Vec<Seat>,
    all: &mut Share<L>,
)
    requires empty { seats.old.items ≡ [] }
    requires room { vec_len bench.old ≤ vec_capacity seats.old }
    ensures seats { seats.new.items ≡ map (λ p. p.seat) bench.old.items }
    ensures each { All (λ s. s.told ≡ s.share) seats.new.items }
    ensures parts { all.new.parts ≡ all.old.parts + vec_len bench.old }
    ensures amount { all.new.amount ≡ all.old.amount + sum_by (λ s. s.share) seats.new.items }
{
    while !bench.is_empty() {
        let Place {
            chair: _,
            seat,
            share,
            number: _,
            reader: _,
            steps: _,
            asked: _,
        } = bench.remove(0);
        all.merge(share);
        seats.push_reserved(seat);
    }
}
