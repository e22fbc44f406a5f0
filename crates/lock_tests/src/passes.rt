//! Seats of a lock, which make passes on a value that counts, each in a thread of its own.
ghost use Rattle.std.specs.Prelude.{◌≡◌, ◌≤◌, ◌<◌, ◌+◌, [], Some};
ghost use Rattle.turn_lock.specs.Seats.{new_seats};

use std::alloc::Global;
use std::sync::Wait;
use std::test::Fail;
use std::thread::{Threads, join};
use turn_lock::{Pass, Passed, Turn, TurnLock, TurnSeat, Unmade};

/// A value that counts, and keeps the passes that were made on it.
#[derive(Drop)]
struct Counted {
    count: u64,
    passes: Vec<Pass>,
}

impl Passed for Counted {
    type Root = ();

    ghost root = { λ _. tt };

    ghost passes = { λ counted. counted.passes.items };
}

/// A value that has counted nothing.
fn uncounted(alloc: Global) -> Counted
    ensures { result.passes.items ≡ [] }
{
    Counted {
        count: 0,
        passes: Vec::new(alloc),
    }
}

/// How many passes on a value have that number.
fn passes_of(counted: &Counted, number: u32) -> usize {
    counted
        .passes
        .iter()
        .filter(|pass| pass.seat == number)
        .count()
}

/// Counts once, and makes a pass of it.
fn count_once<R: Wait>(rt: &R, lock: &TurnLock<Counted>, seat: TurnSeat<()>) -> TurnSeat<()>
    requires lock { seat.lock ≡ lock.now.name }
    requires turns { 0 < seat.left }
    ensures lock { result.lock ≡ seat.lock }
    ensures left { result.left + 1 ≡ seat.left }
{
    let number = seat.number();
    let Turn {
        mut value,
        seat: inside,
    } = lock.enter(rt, seat);
    let from = value.count;
    let to = from.saturating_add(1);
    value.count = to;
    let pass = Pass {
        seat: number,
        from,
        to,
    };
    match value.passes.push(pass) {
        Ok(()) => lock.leave(Turn {
            value,
            seat: inside,
        }),
        Err(_) => lock.leave(Turn {
            value,
            seat: inside,
        }),
    }
}

/// Counts a hundred times.
fn count<R: Wait>(rt: &R, lock: &TurnLock<Counted>, mut seat: TurnSeat<()>) -> TurnSeat<()>
    requires lock { seat.lock ≡ lock.now.name }
    requires turns { 100 ≤ seat.left }
    ensures { result.lock ≡ seat.lock }
{
    for _ in 0..100u32 {
        seat = count_once(rt, lock, seat);
    }
    seat
}

/// Two seats count, each in a thread of its own.
fn count_by_two<R: Threads + Wait + Sync>(
    rt: &R,
    lock: TurnLock<Counted>,
    mut seats: Vec<TurnSeat<()>>,
) -> Counted
    requires two { lock.seats ≡ 2 }
    requires seats { seats.items ≡ new_seats lock.name (Some tt) 0 2 }
{
    let Some(b) = seats.pop() else { unreachable!() };
    let Some(a) = seats.pop() else { unreachable!() };
    let shared = &lock;
    let Ok((a, b)) = shared.meet(a, b) else {
        unreachable!()
    };
    let (a, b) = join(
        rt,
        || -> TurnSeat<()>
            requires { (a.lock ≡ shared.now.name) × (100 ≤ a.left) }
            ensures { result.lock ≡ shared.entry.now.name }
        { count(rt, shared, a) },
        || -> TurnSeat<()>
            requires { (b.lock ≡ shared.now.name) × (100 ≤ b.left) }
            ensures { result.lock ≡ shared.entry.now.name }
        { count(rt, shared, b) },
    );
    seats.push_reserved(a);
    seats.push_reserved(b);
    lock.close(seats)
}

#[test]
fn each_pass_has_the_number_of_its_seat(rt: HostRuntime) -> Result<(), Fail> {
    match TurnLock::new(rt.alloc(), uncounted(rt.alloc()), 2) {
        Ok((lock, seats)) => {
            let counted = count_by_two(&rt, lock, seats);
            assert_eq!(rt; counted.count, 200);
            assert_eq!(rt; counted.passes.len(), 200);
            assert_eq!(rt;
                (passes_of(&counted, 0), passes_of(&counted, 1)),
                (100, 100)
            );
            Ok(())
        }
        Err(Unmade { value: _ }) => Err("memory ran out")?,
    }
}

/// Ends a lock whose seats are as it was made.
fn ended(lock: TurnLock<Counted>, made: Vec<TurnSeat<()>>, seats: u32) -> Counted
    requires count { lock.seats ≡ seats }
    requires seats { made.items ≡ new_seats lock.name (Some tt) 0 seats }
{
    let _ = seats;
    lock.close(made)
}

/// A lock is made with so many seats and ended again: whether they had the numbers from 0 on, and 2^56 turns left.
fn seats_are_numbered(alloc: Global, seats: u32) -> bool
    requires some_seats { 0 < seats }
    requires sixteen { seats ≤ 16 }
{
    match TurnLock::new(alloc, uncounted(alloc), seats) {
        Ok((lock, made)) => {
            let mut numbers = 0u32;
            let mut all = true;
            for seat in made.iter() {
                all = all && seat.number() == numbers && seat.left() == 1 << 56;
                numbers = numbers.saturating_add(1);
            }
            let counted = ended(lock, made, seats);
            all && numbers == seats && counted.passes.is_empty()
        }
        Err(Unmade { value: _ }) => false,
    }
}

#[test]
fn seats_have_the_numbers_from_0_on(rt: HostRuntime) -> Result<(), Fail> {
    assert!(rt; seats_are_numbered(rt.alloc(), 1));
    assert!(rt; seats_are_numbered(rt.alloc(), 2));
    assert!(rt; seats_are_numbered(rt.alloc(), 16));
    Ok(())
}
