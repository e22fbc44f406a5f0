//! A step for whose record a journal has no room.
use crate::seats::{morning, seat_with};
use advice::Never;
use advisers::Greedy;
use plan_base::MemDisk;
use search_book::Book;
use std::alloc::Global;
use std::process::Abort;
use std::test::Fail;
use std::thread::Threads;
use worker_gate::{Open, RunEnd, run_seat};

/// How a run of one step ends on a new journal of at most `limit` bytes, the node that the worker then holds, and how many bytes there are.
fn ended<R: Abort + Threads + Sync>(
    rt: &R,
    alloc: Global,
    limit: u32,
) -> Result<(RunEnd, Option<u32>, usize), Fail> {
    assert!(rt; 385 <= limit && limit < 1000);
    let instance = morning(alloc, "1")?;
    let mut seat = seat_with(Box::new(alloc, Greedy::new(alloc))?);
    let disk = MemDisk::new(alloc, Vec::new(alloc), Vec::new(alloc));
    match Book::open(rt, alloc, &instance, disk, 1, limit, 1) {
        Ok(mut book) => {
            let end = run_seat(alloc, &instance, &mut book, &mut seat, &Open, &Never);
            let held = book.held(0);
            Ok((end, held, book.into_disk().bytes().len()))
        }
        Err(_) => Err("it isn't opened")?,
    }
}

// The step has a plan and prices, of 21 and 137 bytes, and their record has 7 more: with the first post alone the journal would end at
// 413 bytes, and with both at 550.
#[test]
fn a_record_is_there_whole_or_not_at_all(rt: HostRuntime) -> Result<(), Fail> {
    let alloc = rt.alloc();
    for limit in [412u32, 500, 549] {
        let full = RunEnd::Full { end: 550, limit };
        assert!(rt; ended(&rt, alloc, limit)? == (full, Some(0), 385));
    }
    assert!(rt; ended(&rt, alloc, 550)? == (RunEnd::Finished, None, 550));
    Ok(())
}
