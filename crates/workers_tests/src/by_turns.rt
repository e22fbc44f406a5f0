//! Runs whose workers take turns in the order of tickets, and the passes that come back of them.
ghost use Rattle.std.specs.Prelude.{◌≡◌, ◌≤◌, All, length, vec_len};
ghost use Rattle.instance_json.specs.Canonical.{canonical_text};

use crate::seats::{LIMIT, morning, parted, quiet_morning};
use crate::side_by_side::{Meeting, two_seats};
use advice::Never;
use advisers::Greedy;
use plan_base::MemDisk;
use search_book::Book;
use shift_instance::Instance;
use std::alloc::Global;
use std::sync::Wait;
use std::test::Fail;
use std::thread::Threads;
use turn_lock::Pass;
use worker_gate::{Gate, Open, RunEnd, Seat, run_turns};

/// How a run of two workers by turns ends who go on from these bytes of a journal and take at most so many nodes, with its passes, and how many posts
/// the book has then.
fn run_two<G: Gate + Sync, R: Threads + Wait + Sync>(
    rt: &R,
    alloc: Global,
    instance: &Instance,
    bytes: Vec<u8>,
    steps: u64,
    seats: Vec<Seat>,
    gate: &G,
) -> Result<(RunEnd, Vec<Pass>, u64), Fail>
    requires canonical { length (canonical_text instance.now) ≡ 372 }
    requires steps { steps ≤ 100 }
    requires two { vec_len seats ≡ 2 }
    requires new { All (λ s. (s.told ≡ 0) × (s.share ≡ 0)) seats.items }
{
    let disk = MemDisk::new(alloc, bytes, Vec::new(alloc));
    match Book::open(rt, alloc, instance, disk, steps, LIMIT, 2) {
        Ok(book) => {
            let (book, _seats, passes, end) = run_turns(
                rt, alloc, instance, book, seats, gate, &Never,
            );
            Ok((end, passes, book.history().len() as u64))
        }
        Err(_) => Err("it isn't opened")?,
    }
}

/// Whether passes of two workers follow one another from so many posts to so many.
fn follow(passes: &[Pass], from: u64, to: u64) -> bool {
    let mut at = from;
    let mut all = true;
    for pass in passes {
        all = all && pass.seat < 2 && pass.from == at && pass.from < pass.to;
        at = pass.to;
    }
    all && at == to
}

/// How a run of two workers by turns ends who go on from the first step, how many entered the gate, how many missed each other there, and whether the
/// passes follow one another from the posts of that step on.
fn meet<R: Threads + Wait + Sync>(
    rt: &R,
    alloc: Global,
) -> Result<(RunEnd, (u64, u64), bool), Fail> {
    let instance = morning(alloc, "2")?;
    let bytes = parted(rt, alloc, &instance, Box::new(alloc, Greedy::new(alloc))?)?;
    let gate = Meeting::new();
    let (end, passes, posts) = run_two(rt, alloc, &instance, bytes, 100, two_seats(alloc)?, &gate)?;
    // the first step posted a plan, its prices and a split
    let whole = passes.len() == 2 && follow(passes.as_slice(), 3, posts);
    Ok((end, gate.told(), whole))
}

#[test]
fn two_workers_meet_at_the_gate_by_turns(rt: HostRuntime) -> Result<(), Fail> {
    let (end, told, whole) = meet(&rt, rt.alloc())?;
    assert!(rt; end == RunEnd::Finished);
    assert!(rt; told == (2, 0));
    assert!(rt; whole);
    Ok(())
}

/// How a run of two workers by turns ends who begin without a post and take at most so many nodes, whether it made a pass, and how many posts there
/// are.
fn from_nothing<R: Threads + Wait + Sync>(
    rt: &R,
    alloc: Global,
    instance: &Instance,
    steps: u64,
) -> Result<(RunEnd, bool, u64), Fail>
    requires canonical { length (canonical_text instance.now) ≡ 372 }
    requires steps { steps ≤ 100 }
{
    let bytes = Vec::new(alloc);
    let (end, passes, posts) = run_two(
        rt,
        alloc,
        instance,
        bytes,
        steps,
        two_seats(alloc)?,
        &Open,
    )?;
    Ok((end, !passes.is_empty(), posts))
}

#[test]
fn no_step_makes_no_pass(rt: HostRuntime) -> Result<(), Fail> {
    let instance = morning(rt.alloc(), "2")?;
    let (end, passed, posts) = from_nothing(&rt, rt.alloc(), &instance, 0)?;
    assert!(rt; end == RunEnd::Spent);
    assert!(rt; !passed && posts == 0);
    Ok(())
}

#[test]
fn nothing_to_do_makes_no_pass(rt: HostRuntime) -> Result<(), Fail> {
    let instance = quiet_morning(rt.alloc())?;
    let (end, passed, posts) = from_nothing(&rt, rt.alloc(), &instance, 100)?;
    assert!(rt; end == RunEnd::Finished);
    assert!(rt; !passed && posts == 0);
    Ok(())
}

/// Whether the passes of a run from the first post on follow one another to the last.
fn whole_run<R: Threads + Wait + Sync>(rt: &R, alloc: Global) -> Result<(RunEnd, bool), Fail> {
    let instance = morning(alloc, "2")?;
    let bytes = Vec::new(alloc);
    let (end, passes, posts) = run_two(rt, alloc, &instance, bytes, 100, two_seats(alloc)?, &Open)?;
    Ok((end, posts > 3 && follow(passes.as_slice(), 0, posts)))
}

#[test]
fn passes_follow_from_the_first_post_to_the_last(rt: HostRuntime) -> Result<(), Fail> {
    let (end, whole) = whole_run(&rt, rt.alloc())?;
    assert!(rt; end == RunEnd::Finished);
    assert!(rt; whole);
    Ok(())
}
