//! Runs of `graft_run` over sources and sinks in memory. Whole programs are tried by the cases beside the crates.

use crate::texts::{REPORT, source};
use fixtures::MORNING_OF_TWO;
use graft_runs::{GraftStatus, graft_top};
use plan_base::MemSink;
use std::alloc::{AllocError, Global};
use std::test::Fail;

/// The report after a search below node 2.
const GROWN: &[u8] =
    b"shift-report 1\nstatus stopped\ncost 3\nbound 0\nrows 1\nrow 0 0 1 -\nproof 2\nsplit 0 0 0 - 1\npriced 2 1 0,0,0,0,0,0,0,0,-1,-1,-1,-1,0,0,0,0,0,0,0,0,0,0,0,0 0\nend\n";

/// What fails in a run: the reads of the document and of the report, and the writes, by their numbers from 1 on; 0 for none.
#[derive(Clone, Copy)]
struct Faults {
    document: u64,
    report: u64,
    write: u64,
}

/// How a search below node 2 of the report ends, and what the sink then holds. A read gives at most 100 bytes, and a write takes at most 5.
fn run(alloc: Global, faults: Faults) -> Result<(GraftStatus, Vec<u8>), AllocError> {
    let words = vec![in alloc;
        String::from_str(alloc, "below")?,
        String::from_str(alloc, "I")?,
        String::from_str(alloc, "R")?,
        String::from_str(alloc, "2")?,
        String::from_str(alloc, "10")?,
    ]?;
    let mut instance = source(alloc, MORNING_OF_TWO, 100, faults.document)?;
    let mut bundle = source(alloc, REPORT, 100, faults.report)?;
    let mut sink = MemSink::new(alloc, vec![in alloc; faults.write]?, 5);
    let status = graft_top(
        alloc,
        words.as_slice(),
        &mut instance,
        &mut bundle,
        &mut sink,
    );
    Ok((status, Vec::from_slice(alloc, sink.bytes())?))
}

/// Whether a run in which a read of the document fails, or one of the report, ends as a read fault with nothing written.
fn is_unread(alloc: Global, document: u64, report: u64) -> Result<bool, AllocError> {
    let faults = Faults {
        document,
        report,
        write: 0,
    };
    let (status, written) = run(alloc, faults)?;
    Ok(matches!(status, GraftStatus::ReadFault) && written.is_empty())
}

#[test]
fn a_failing_read_writes_nothing(rt: HostRuntime) -> Result<(), Fail> {
    let alloc = rt.alloc();
    // the document is read by three reads that give bytes and one that gives the end, the report by one and one
    assert!(rt; is_unread(alloc, 4, 0)?);
    assert!(rt; is_unread(alloc, 0, 2)?);
    Ok(())
}

#[test]
fn a_failing_write_leaves_the_beginning(rt: HostRuntime) -> Result<(), Fail> {
    let faults = Faults {
        document: 0,
        report: 0,
        write: 3,
    };
    let (status, written) = run(rt.alloc(), faults)?;
    assert!(rt; matches!(status, GraftStatus::WriteFault));
    assert_eq!(rt; written.as_slice(), &GROWN[..10]);
    Ok(())
}

#[test]
fn a_report_is_grown(rt: HostRuntime) -> Result<(), Fail> {
    let faults = Faults {
        document: 0,
        report: 0,
        write: 0,
    };
    let (status, written) = run(rt.alloc(), faults)?;
    assert!(rt; matches!(status, GraftStatus::Written));
    assert_eq!(rt; written.as_slice(), GROWN);
    Ok(())
}
