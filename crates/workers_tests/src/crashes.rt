//! A run of two steps on a disk of which a call fails, and what the disk opens to after a crash at that call.
ghost use Rattle.std.specs.Prelude.{◌≡◌, length};
ghost use Rattle.instance_json.specs.Canonical.{canonical_text};

use crate::seats::{LIMIT, morning, seat_with};
use advice::Never;
use advisers::Greedy;
use plan_base::{Disk, MemDisk};
use search_book::{Book, OpenFault};
use shift_instance::Instance;
use std::alloc::Global;
use std::process::Abort;
use std::test::Fail;
use std::thread::Threads;
use worker_gate::{Open, run_seat};

/// How many posts there are where a call of the disk failed: in the book that was being worked on, and in the book that its
/// file opens to after a crash. Nothing stands where there is no book.
#[derive(Clone, Copy, PartialEq, Eq, Drop)]
struct Found {
    told: Option<u64>,
    /// All bytes are in the file that were written.
    written: Option<u64>,
    /// Another byte stands in place of each that was written since the last sync.
    lost: Option<u64>,
}

/// The disk of a run of two steps whose call of this number failed, and how many posts the book had at its end.
fn stopped<R: Threads + Sync>(
    rt: &R,
    alloc: Global,
    instance: &Instance,
    call: u64,
) -> Result<(MemDisk, Option<u64>), Fail>
    requires { length (canonical_text instance.now) ≡ 372 }
{
    let mut seat = seat_with(Box::new(alloc, Greedy::new(alloc))?);
    let disk = MemDisk::new(alloc, Vec::new(alloc), vec![in alloc; call; 1]?);
    match Book::open(rt, alloc, instance, disk, 2, LIMIT, 1) {
        Ok(mut book) => {
            run_seat(alloc, instance, &mut book, &mut seat, &Open, &Never);
            let posts = book.posts();
            Ok((book.into_disk(), Some(posts)))
        }
        Err(unopened) => Ok((unopened.disk, None)),
    }
}

/// How many posts the book has that a disk opens to; nothing where the disk holds no journal.
fn posts_on<R: Threads + Sync>(
    rt: &R,
    alloc: Global,
    instance: &Instance,
    disk: MemDisk,
) -> Result<Option<u64>, Fail>
    requires size { length (canonical_text instance.now) ≡ 372 }
    requires calls { ⟦<MemDisk as Disk>⟧.calls disk ≡ 0 }
{
    match Book::open(rt, alloc, instance, disk, 0, LIMIT, 4) {
        Ok(book) => Ok(Some(book.posts())),
        Err(unopened) if matches!(unopened.fault, OpenFault::NotAJournal) => Ok(None),
        Err(_) => Err("it isn't opened")?,
    }
}

/// What there is after a crash at a call that failed, which was the last one, where that other byte is 255.
fn found_after<R: Abort + Threads + Sync>(rt: &R, alloc: Global, call: u64) -> Result<Found, Fail> {
    let instance = morning(alloc, "2")?;
    let (disk, told) = stopped(rt, alloc, &instance, call)?;
    assert!(rt; disk.calls() == call);
    let written = posts_on(rt, alloc, &instance, disk.image(None)?)?;
    let lost = posts_on(rt, alloc, &instance, disk.image(Some(255))?)?;
    Ok(Found {
        told,
        written,
        lost,
    })
}

/// Whether this is what there is after a crash at each of two calls.
fn is_found<R: Abort + Threads + Sync>(
    rt: &R,
    alloc: Global,
    calls: [u64; 2],
    found: Found,
) -> Result<bool, Fail> {
    let first = found_after(rt, alloc, calls[0])?;
    let second = found_after(rt, alloc, calls[1])?;
    Ok(first == found && second == found)
}

// An opening writes the new journal by its third call, and its fourth syncs that.
#[test]
fn an_opening_leaves_a_whole_journal_or_none(rt: HostRuntime) -> Result<(), Fail> {
    let unwritten = Found {
        told: None,
        written: Some(0),
        lost: Some(0),
    };
    let unsure = Found {
        lost: None,
        ..unwritten
    };
    assert!(rt; is_found(&rt, rt.alloc(), [1, 2], unwritten)?);
    assert!(rt; is_found(&rt, rt.alloc(), [3, 4], unsure)?);
    Ok(())
}

/// What there is where a step of a book of so many posts stopped: before its gate was opened, and then.
fn within(posts: u64, after: u64) -> (Found, Found) {
    let closed = Found {
        told: Some(posts),
        written: Some(posts),
        lost: Some(posts),
    };
    let opened = Found {
        written: Some(after),
        ..closed
    };
    (closed, opened)
}

// The first step has a plan, prices and a split, and the second has prices. A step writes its record and syncs it, and then
// opens the gate before it and syncs that.
#[test]
fn a_step_is_there_whole_or_not_at_all(rt: HostRuntime) -> Result<(), Fail> {
    let (closed, opened) = within(0, 3);
    assert!(rt; is_found(&rt, rt.alloc(), [5, 6], closed)?);
    assert!(rt; is_found(&rt, rt.alloc(), [7, 8], opened)?);
    let (closed, opened) = within(3, 4);
    assert!(rt; is_found(&rt, rt.alloc(), [9, 10], closed)?);
    assert!(rt; is_found(&rt, rt.alloc(), [11, 12], opened)?);
    Ok(())
}
