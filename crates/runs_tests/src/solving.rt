//! Runs of one step by one worker over sources, sinks and disks in memory, of which a call fails. Whole programs are tried by the
//! cases beside the crates.

use crate::runs_of_morning::{
    Inputs, MORNING_REPORT, Ran, document, greedy_inputs, new_disk, run, sink,
};
use plan_base::MemDisk;
use std::alloc::{AllocError, Global};
use std::sync::Wait;
use std::test::Fail;
use std::thread::Threads;

/// A run on a new disk, of which the call with this number fails.
fn run_over<R: Threads + Wait + Sync>(
    rt: &R,
    alloc: Global,
    bad_call: u64,
) -> Result<Ran, AllocError> {
    let inputs = greedy_inputs(alloc, "1", None)?;
    let disk = new_disk(alloc, &[bad_call])?;
    Ok(run(rt, alloc, inputs, disk))
}

/// A run on a new disk whose source or sink fails at calls with these numbers, and at none where they are 0.
fn run_from<R: Threads + Wait + Sync>(
    rt: &R,
    alloc: Global,
    bad_read: u64,
    bad_write: u64,
) -> Result<Ran, AllocError> {
    let given = greedy_inputs(alloc, "1", None)?;
    let inputs = Inputs {
        words: given.words,
        source: document(alloc, "1", bad_read)?,
        sink: sink(alloc, bad_write)?,
        advisers: given.advisers,
    };
    let disk = new_disk(alloc, &[])?;
    Ok(run(rt, alloc, inputs, disk))
}

/// Whether a run on a new disk, of which this call fails, writes nothing, ends as a disk fault, and opened its book if that is said.
fn fails_at<R: Threads + Wait + Sync>(
    rt: &R,
    alloc: Global,
    call: u64,
    opened: bool,
) -> Result<bool, AllocError> {
    let ran = run_over(rt, alloc, call)?;
    Ok((ran.number, ran.opened) == (7, opened) && ran.sink.bytes().is_empty())
}

#[test]
fn a_failing_disk_prints_nothing(rt: HostRuntime) -> Result<(), Fail> {
    // four calls open the journal, and the record of the step takes four more
    for call in 1..9 {
        assert!(rt; fails_at(&rt, rt.alloc(), call, 4 < call)?);
    }
    Ok(())
}

/// Whether the image of a disk, its unsynced bytes being these, opens again and is searched to the end.
fn is_gone_on_with<R: Threads + Wait + Sync>(
    rt: &R,
    alloc: Global,
    disk: &MemDisk,
    fill: Option<u8>,
) -> Result<bool, AllocError> {
    let inputs = greedy_inputs(alloc, "1", None)?;
    let image = disk.image(fill)?;
    let ran = run(rt, alloc, inputs, image);
    Ok(ran.number == 0 && ran.sink.bytes() == MORNING_REPORT.as_bytes())
}

/// Whether each image of a disk is gone on with.
fn are_gone_on_with<R: Threads + Wait + Sync>(
    rt: &R,
    alloc: Global,
    disk: &MemDisk,
) -> Result<bool, AllocError> {
    for fill in [None, Some(0), Some(1), Some(255u8)] {
        if !is_gone_on_with(rt, alloc, disk, fill)? {
            return Ok(false);
        }
    }
    Ok(true)
}

/// Whether that is so of the disk of a run whose call with this number failed.
fn are_left_whole<R: Threads + Wait + Sync>(
    rt: &R,
    alloc: Global,
    call: u64,
) -> Result<bool, AllocError> {
    let torn = run_over(rt, alloc, call)?;
    are_gone_on_with(rt, alloc, &torn.disk)
}

#[test]
fn each_image_of_the_record_is_gone_on_with(rt: HostRuntime) -> Result<(), Fail> {
    for call in 5..9 {
        assert!(rt; are_left_whole(&rt, rt.alloc(), call)?);
    }
    Ok(())
}

/// Whether a run whose read of this number fails ends as a read fault, with nothing written and the disk not called.
fn is_unread<R: Threads + Wait + Sync>(
    rt: &R,
    alloc: Global,
    read: u64,
) -> Result<bool, AllocError> {
    let ran = run_from(rt, alloc, read, 0)?;
    Ok(ran.number == 5 && ran.disk.calls() == 0 && ran.sink.bytes().is_empty())
}

#[test]
fn each_failing_read_touches_no_disk(rt: HostRuntime) -> Result<(), Fail> {
    // three reads give the document, and the fourth its end
    for read in 1..5 {
        assert!(rt; is_unread(&rt, rt.alloc(), read)?);
    }
    assert!(rt; !is_unread(&rt, rt.alloc(), 5)?);
    Ok(())
}

/// Whether a run whose write of this number fails ends as a write fault, with the bytes of the writes before it written and the
/// journal whole.
fn is_unwritten<R: Threads + Wait + Sync>(
    rt: &R,
    alloc: Global,
    write: u64,
) -> Result<bool, AllocError> {
    let ran = run_from(rt, alloc, 0, write)?;
    let written = ran.sink.bytes();
    let whole = ran.disk.bytes().len() == 550;
    let writes = (written.len() as u64).div_ceil(20);
    let begins = MORNING_REPORT.as_bytes().starts_with(written);
    Ok(ran.number == 6 && whole && writes.saturating_add(1) == write && begins)
}

#[test]
fn each_failing_write_leaves_the_beginning(rt: HostRuntime) -> Result<(), Fail> {
    let writes = (MORNING_REPORT.len() as u64).div_ceil(20);
    for write in 1..writes.saturating_add(1) {
        assert!(rt; is_unwritten(&rt, rt.alloc(), write)?);
    }
    let ran = run_from(&rt, rt.alloc(), 0, writes.saturating_add(1))?;
    assert_eq!(rt; ran.number, 0);
    assert_eq!(rt; ran.sink.bytes(), MORNING_REPORT.as_bytes());
    Ok(())
}

/// A run on the disk of an earlier one.
fn run_again<R: Threads + Wait + Sync>(rt: &R, alloc: Global, ran: Ran) -> Result<Ran, AllocError> {
    if 1_000 < ran.disk.calls() {
        return Ok(ran);
    }
    let inputs = greedy_inputs(alloc, "1", None)?;
    Ok(run(rt, alloc, inputs, ran.disk))
}

#[test]
fn a_disk_that_fails_again_and_again_is_gone_on_with(rt: HostRuntime) -> Result<(), Fail> {
    let alloc = rt.alloc();
    // the third call of a record, and then the second call and the first of an opening
    let disk = new_disk(alloc, &[7, 9, 10])?;
    let first = run(&rt, alloc, greedy_inputs(alloc, "1", None)?, disk);
    assert_eq!(rt; (first.number, first.opened), (7, true));
    let second = run_again(&rt, alloc, first)?;
    assert_eq!(rt; (second.number, second.opened), (7, false));
    let third = run_again(&rt, alloc, second)?;
    assert_eq!(rt; (third.number, third.opened), (7, false));
    let last = run_again(&rt, alloc, third)?;
    assert_eq!(rt; last.sink.bytes(), MORNING_REPORT.as_bytes());
    Ok(())
}
