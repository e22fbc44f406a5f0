//! Runs of three steps of which each call of the disk fails in turn, and what a crash then leaves.

ghost use Rattle.std.specs.Prelude.{◌≡◌, ◌<◌, ◌^◌};

use crate::runs_of_morning::{Ran, greedy_inputs, new_disk, run};
use plan_base::{Disk, MemDisk};
use std::alloc::{AllocError, Global};
use std::str;
use std::sync::Wait;
use std::test::Fail;
use std::thread::Threads;

/// How many proof lines a report has of the first records of the search, from none to all three: they have 3 posts, 1 and 1, and
/// the first of all is a plan.
const PROOFS: [&str; 4] = ["\nproof 0\n", "\nproof 2\n", "\nproof 3\n", "\nproof 4\n"];

/// A run of so many steps of the morning with room for two.
fn run_for<R: Threads + Wait + Sync>(
    rt: &R,
    alloc: Global,
    steps: &str,
    disk: MemDisk,
) -> Result<Ran, AllocError>
    requires { ⟦<MemDisk as Disk>⟧.calls disk < 2 ^ 62 }
{
    let inputs = greedy_inputs(alloc, "2", Some(steps))?;
    Ok(run(rt, alloc, inputs, disk))
}

/// How many records of the search a report is of.
fn records_in(report: &[u8]) -> Option<u64> {
    let report = str::from_utf8(report).ok()?;
    let mut records = 0u64;
    for proof in PROOFS {
        if report.contains(proof) {
            return Some(records);
        }
        records = records.saturating_add(1);
    }
    None
}

/// How many records the book has that an image of a disk opens to, its unsynced bytes being these; none where it isn't opened.
fn records_on<R: Threads + Wait + Sync>(
    rt: &R,
    alloc: Global,
    disk: &MemDisk,
    fill: Option<u8>,
) -> Result<Option<u64>, AllocError> {
    let image = disk.image(fill)?;
    let ran = run_for(rt, alloc, "0", image)?;
    Ok(records_in(ran.sink.bytes()))
}

/// Whether each image of a disk has the first records, so many at least and so many at most.
fn are_within<R: Threads + Wait + Sync>(
    rt: &R,
    alloc: Global,
    disk: &MemDisk,
    least: u64,
    most: u64,
) -> Result<bool, AllocError> {
    for fill in [None, Some(0), Some(1), Some(255u8)] {
        match records_on(rt, alloc, disk, fill)? {
            Some(records) if least <= records && records <= most => {}
            _ => return Ok(false),
        }
    }
    Ok(true)
}

/// Whether each image of a disk has at most so many bytes.
fn are_short(alloc: Global, disk: &MemDisk, most: usize) -> Result<bool, AllocError> {
    for fill in [None, Some(0), Some(1), Some(255u8)] {
        if most < disk.image(fill)?.bytes().len() {
            return Ok(false);
        }
    }
    Ok(true)
}

/// Whether the disk of a run whose call of this number failed has what it may have. An opening takes four calls, and a record four
/// more: the new record may be there from the third of them on.
fn is_left_whole<R: Threads + Wait + Sync>(
    rt: &R,
    alloc: Global,
    call: u64,
    disk: &MemDisk,
) -> Result<bool, AllocError> {
    if call < 5 {
        return are_short(alloc, disk, 385);
    }
    let least = (call - 5) / 4;
    let begun = (call - 5) % 4 / 2;
    are_within(rt, alloc, disk, least, least.saturating_add(begun))
}

/// Whether the image of a disk that has all bytes which were written is searched to its end in three steps.
fn is_searched<R: Threads + Wait + Sync>(
    rt: &R,
    alloc: Global,
    disk: &MemDisk,
) -> Result<bool, AllocError> {
    let image = disk.image(None)?;
    let ran = run_for(rt, alloc, "3", image)?;
    let begins = b"shift-report 1\nstatus optimal\ncost 3\nbound 3\n".as_slice();
    Ok(ran.number == 0 && ran.sink.bytes().starts_with(begins))
}

#[test]
fn each_call_of_three_steps_fails(rt: HostRuntime) -> Result<(), Fail> {
    let alloc = rt.alloc();
    for call in 1u64..17 {
        let disk = new_disk(alloc, &[call])?;
        let ran = run_for(&rt, alloc, "3", disk)?;
        assert_eq!(rt; (ran.number, ran.opened), (7, 4 < call));
        assert!(rt; ran.sink.bytes().is_empty());
        assert!(rt; is_left_whole(&rt, alloc, call, &ran.disk)?);
        assert!(rt; call < 5 || is_searched(&rt, alloc, &ran.disk)?);
    }
    Ok(())
}

#[test]
fn a_search_of_three_steps_makes_sixteen_calls(rt: HostRuntime) -> Result<(), Fail> {
    let alloc = rt.alloc();
    let ran = run_for(&rt, alloc, "3", new_disk(alloc, &[17])?)?;
    assert_eq!(rt; (ran.number, ran.disk.calls()), (0, 16));
    assert_eq!(rt; records_in(ran.sink.bytes()), Some(3));
    Ok(())
}
