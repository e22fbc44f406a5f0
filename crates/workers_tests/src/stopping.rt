//! Runs that are asked to stop.
ghost use Rattle.std.specs.Prelude.{◌≡◌, length, true};
ghost use Rattle.instance_json.specs.Canonical.{canonical_text};

use crate::seats::{LIMIT, add_seat, morning, seat_with};
use advice::{Never, Stop};
use advisers::Greedy;
use plan_base::MemDisk;
use search_book::Book;
use shift_instance::Instance;
use std::alloc::Global;
use std::sync::Wait;
use std::sync::atomic::{AtomicU64, Ordering};
use std::test::Fail;
use std::thread::Threads;
use worker_gate::{Open, RunEnd, run_seat, run_workers};

/// A stop that asks once workers have looked at it `patience` times.
#[derive(Drop)]
struct Countdown {
    looks: AtomicU64,
    patience: u64,
}

impl Countdown {
    fn new(patience: u64) -> Countdown {
        Countdown {
            looks: AtomicU64::new(0),
            patience,
        }
    }
}

impl Stop for Countdown {
    ghost can_ask = { λ stop. true };

    fn is_asked(&self) -> bool {
        self.patience <= self.looks.fetch_add(1, Ordering::SeqCst)
    }
}

/// How a run of one worker ends over a journal of these bytes, the steps that it took, and the bytes afterwards.
fn run_one<S: Stop, R: Threads + Sync>(
    rt: &R,
    alloc: Global,
    instance: &Instance,
    bytes: Vec<u8>,
    stop: &S,
) -> Result<(RunEnd, u64, Vec<u8>), Fail>
    requires { length (canonical_text instance.now) ≡ 372 }
{
    let mut seat = seat_with(Box::new(alloc, Greedy::new(alloc))?);
    let disk = MemDisk::new(alloc, bytes, Vec::new(alloc));
    match Book::open(rt, alloc, instance, disk, 100, LIMIT, 1) {
        Ok(mut book) => {
            let end = run_seat(alloc, instance, &mut book, &mut seat, &Open, stop);
            let after = Vec::from_slice(alloc, book.into_disk().bytes())?;
            Ok((end, seat.share, after))
        }
        Err(_) => Err("it isn't opened")?,
    }
}

/// How a run of two workers ends over a new journal, and the steps that they took.
fn run_two<R: Threads + Wait + Sync>(
    rt: &R,
    alloc: Global,
    stop: &Countdown,
) -> Result<(RunEnd, u64), Fail> {
    let instance = morning(alloc, "2")?;
    let mut seats = Vec::new(alloc);
    add_seat(&mut seats, Box::new(alloc, Greedy::new(alloc))?)?;
    add_seat(&mut seats, Box::new(alloc, Greedy::new(alloc))?)?;
    let disk = MemDisk::new(alloc, Vec::new(alloc), Vec::new(alloc));
    match Book::open(rt, alloc, &instance, disk, 100, LIMIT, 2) {
        Ok(book) => {
            let (book, _seats, end) = run_workers(rt, alloc, &instance, book, seats, &Open, stop);
            Ok((end, book.taken()))
        }
        Err(_) => Err("it isn't opened")?,
    }
}

#[test]
fn one_worker_takes_nothing_once_it_is_asked(rt: HostRuntime) -> Result<(), Fail> {
    let alloc = rt.alloc();
    let instance = morning(alloc, "2")?;
    let none = Vec::new(alloc);
    let (end, steps, bytes) = run_one(&rt, alloc, &instance, none, &Countdown::new(0))?;
    assert!(rt; end == RunEnd::Stopped && steps == 0);
    let (end, steps, _) = run_one(&rt, alloc, &instance, bytes, &Countdown::new(1))?;
    assert!(rt; end == RunEnd::Stopped && steps == 1);
    Ok(())
}

// Nothing is left to be stopped.
#[test]
fn a_finished_search_that_is_asked_ends_finished(rt: HostRuntime) -> Result<(), Fail> {
    let alloc = rt.alloc();
    let instance = morning(alloc, "2")?;
    let (end, _, bytes) = run_one(&rt, alloc, &instance, Vec::new(alloc), &Never)?;
    assert!(rt; end == RunEnd::Finished);
    let (end, steps, _) = run_one(&rt, alloc, &instance, bytes, &Countdown::new(0))?;
    assert!(rt; end == RunEnd::Finished && steps == 0);
    Ok(())
}

#[test]
fn two_workers_take_nothing_once_they_are_asked(rt: HostRuntime) -> Result<(), Fail> {
    let (end, taken) = run_two(&rt, rt.alloc(), &Countdown::new(0))?;
    assert!(rt; end == RunEnd::Stopped && taken == 0);
    Ok(())
}

// The first look doesn't find it asked, and every later one does.
#[test]
fn two_workers_finish_what_they_took(rt: HostRuntime) -> Result<(), Fail> {
    let (end, taken) = run_two(&rt, rt.alloc(), &Countdown::new(1))?;
    assert!(rt; end == RunEnd::Stopped && taken == 1);
    Ok(())
}
