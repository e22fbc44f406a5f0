//! Runs of four workers on a disk of which a call fails, and what the disk opens to after a crash at that call.
ghost use Rattle.std.specs.Prelude.{◌≡◌, All, IfOk, vec_len};

use crate::seats::{LIMIT, add_seat, morning};
use advice::Never;
use advisers::Greedy;
use plan_base::{Disk, MemDisk};
use search_book::Book;
use std::alloc::Global;
use std::process::Abort;
use std::sync::Wait;
use std::test::Fail;
use std::thread::Threads;
use worker_gate::{Open, RunEnd, Seat, run_workers};

/// What came of a run.
#[derive(Drop)]
struct Ran {
    end: RunEnd,
    /// How many posts were acknowledged.
    posts: u64,
    disk: MemDisk,
}

/// Four seats with greedy advice.
fn greedy_seats(alloc: Global) -> Result<Vec<Seat>, Fail>
    ensures new { IfOk result (λ seats. All (λ s. (s.told ≡ 0) × (s.share ≡ 0)) seats.items) }
    ensures four { IfOk result (λ seats. vec_len seats ≡ 4) }
{
    let mut seats = Vec::new(alloc);
    add_seat(&mut seats, Box::new(alloc, Greedy::new(alloc))?)?;
    add_seat(&mut seats, Box::new(alloc, Greedy::new(alloc))?)?;
    add_seat(&mut seats, Box::new(alloc, Greedy::new(alloc))?)?;
    add_seat(&mut seats, Box::new(alloc, Greedy::new(alloc))?)?;
    Ok(seats)
}

/// What comes of a run of four workers on a disk, of the morning with at most two duties; nothing where the disk isn't opened.
fn run_four<R: Threads + Wait + Sync>(
    rt: &R,
    alloc: Global,
    disk: MemDisk,
    steps: u32,
) -> Result<Option<Ran>, Fail>
    requires { ⟦<MemDisk as Disk>⟧.calls disk ≡ 0 }
{
    let instance = morning(alloc, "2")?;
    let seats = greedy_seats(alloc)?;
    match Book::open(rt, alloc, &instance, disk, u64::from(steps), LIMIT, 4) {
        Ok(book) => {
            let (book, _, end) = run_workers(rt, alloc, &instance, book, seats, &Open, &Never);
            Ok(Some(Ran {
                end,
                posts: book.posts(),
                disk: book.into_disk(),
            }))
        }
        Err(_) => Ok(None),
    }
}

/// The posts that were acknowledged in a run on a new journal on a disk whose call of this number fails; nothing where that was
/// a call of the opening.
fn stopped<R: Abort + Threads + Wait + Sync>(
    rt: &R,
    alloc: Global,
    call: u64,
) -> Result<Option<u64>, Fail> {
    let disk = MemDisk::new(alloc, Vec::new(alloc), vec![in alloc; call; 1]?);
    let Some(run) = run_four(rt, alloc, disk, 100)? else {
        return Ok(None);
    };
    assert!(rt; run.end == RunEnd::DiskFault);
    let lost = run.disk.image(Some(255))?;
    match run_four(rt, alloc, lost, 0)? {
        Some(opened) => assert!(rt; run.posts <= opened.posts),
        None => Err("it isn't opened")?,
    }
    Ok(Some(run.posts))
}

// An opening makes four calls, and each of three steps makes four more. After a crash the journal opens with no fewer posts than
// were acknowledged.
#[test]
fn each_call_of_the_disk_fails(rt: HostRuntime) -> Result<(), Fail> {
    for call in 1u64..17 {
        let told = stopped(&rt, rt.alloc(), call)?;
        assert!(rt; told.is_some() == (4 < call));
    }
    Ok(())
}
