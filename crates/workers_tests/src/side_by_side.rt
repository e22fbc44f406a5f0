//! Two workers that work at the same time: a gate holds each until the other has entered it.
ghost use Rattle.std.specs.Prelude.{◌≡◌, All, IfOk, vec_len};

use crate::seats::{add_seat, morning, parted, run_two};
use advisers::Greedy;
use std::alloc::Global;
use std::sync::Wait;
use std::sync::atomic::{AtomicU64, Ordering};
use std::test::Fail;
use std::thread::{Threads, yield_now};
use worker_gate::{Gate, RunEnd, Seat};

/// How often a worker that is held looks whether the other has entered.
const TURNS: u32 = 20_000_000;

/// A gate that holds each worker that enters it for the first time until two have entered, or for all its turns.
#[derive(Drop)]
pub struct Meeting {
    entered: AtomicU64,
    missed: AtomicU64,
}

impl Meeting {
    /// A gate that nobody has entered.
    pub fn new() -> Meeting {
        Meeting {
            entered: AtomicU64::new(0),
            missed: AtomicU64::new(0),
        }
    }

    /// How many entered it first, and how many missed the other there.
    pub fn told(&self) -> (u64, u64) {
        let entered = self.entered.load(Ordering::SeqCst);
        let missed = self.missed.load(Ordering::SeqCst);
        (entered, missed)
    }
}

impl Gate for Meeting {
    fn enter(&self, _worker: u32, step: u64) {
        if step > 1 {
            return;
        }
        self.entered.fetch_add(1, Ordering::SeqCst);
        for _ in 0..TURNS {
            if self.entered.load(Ordering::SeqCst) > 1 {
                return;
            }
            yield_now();
        }
        self.missed.fetch_add(1, Ordering::SeqCst);
    }
}

/// Two seats with greedy advice.
pub fn two_seats(alloc: Global) -> Result<Vec<Seat>, Fail>
    ensures new { IfOk result (λ seats. All (λ s. (s.told ≡ 0) × (s.share ≡ 0)) seats.items) }
    ensures two { IfOk result (λ seats. vec_len seats ≡ 2) }
{
    let mut seats = Vec::new(alloc);
    add_seat(&mut seats, Box::new(alloc, Greedy::new(alloc))?)?;
    add_seat(&mut seats, Box::new(alloc, Greedy::new(alloc))?)?;
    Ok(seats)
}

/// How a run ends of two workers who go on from the first step, how many entered the gate, and how many missed each other there.
fn meet<R: Threads + Wait + Sync>(rt: &R, alloc: Global) -> Result<(RunEnd, u64, u64), Fail> {
    let instance = morning(alloc, "2")?;
    let bytes = parted(rt, alloc, &instance, Box::new(alloc, Greedy::new(alloc))?)?;
    let gate = Meeting::new();
    let end = run_two(rt, alloc, &instance, bytes, two_seats(alloc)?, &gate)?;
    let (entered, missed) = gate.told();
    Ok((end, entered, missed))
}

// A run of workers one after another uses up the turns of the first.
#[test]
fn two_workers_meet_at_the_gate(rt: HostRuntime) -> Result<(), Fail> {
    let (end, entered, missed) = meet(&rt, rt.alloc())?;
    assert!(rt; end == RunEnd::Finished);
    assert!(rt; entered == 2 && missed == 0);
    Ok(())
}
