//! Advisers take seats for a run, and come back from them.

ghost use Rattle.std.specs.Prelude.{◌≡◌, ◌≤◌, [], All, map, vec_len};
ghost use Rattle.std.specs.Vec.{vec_capacity};

use advice::Adviser;
use worker_gate::Seat;

/// Seats for these advisers, in their order.
pub(crate) fn seats_of(advisers: &mut Vec<Box<dyn Adviser + Send>>, seats: &mut Vec<Seat>)
    requires empty { seats.old.items ≡ [] }
    requires room { vec_len advisers.old ≤ vec_capacity seats.old }
    ensures seats { map (λ s. s.adviser) seats.new.items ≡ advisers.old.items }
    ensures new { All (λ s. (s.told ≡ 0) × (s.share ≡ 0)) seats.new.items }
    ensures len { vec_len seats.new ≡ vec_len advisers.old }
    ensures left { advisers.new.items ≡ [] }
    ensures kept { vec_capacity advisers.new ≡ vec_capacity advisers.old }
{
    while !advisers.is_empty() {
        let adviser = advisers.remove(0);
        seats.push_reserved(Seat {
            adviser,
            told: 0,
            share: 0,
        });
    }
}

/// The advisers of seats, in their order.
pub(crate) fn advisers_of(mut seats: Vec<Seat>, advisers: &mut Vec<Box<dyn Adviser + Send>>)
    requires empty { advisers.old.items ≡ [] }
    requires room { vec_len seats ≤ vec_capacity advisers.old }
    ensures { advisers.new.items ≡ map (λ s. s.adviser) seats.items }
{
    while !seats.is_empty() {
        let Seat {
            adviser,
            told: _,
            share: _,
        } = seats.remove(0);
        advisers.push_reserved(adviser);
    }
}
