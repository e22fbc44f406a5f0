//! Runs of the checker over sources and sinks in memory. Whole programs are tried by the cases beside the crates.

ghost use Rattle.std.specs.Prelude.{◌<◌};

use check_runs::{CheckStatus, check_run};
use fixtures::MORNING;
use plan_base::{MemSink, MemSource};
use std::alloc::{AllocError, Global};
use std::test::Fail;

/// The least plan of the morning, and a bound proved by a split at no employee and one, where both sides are settled.
const REPORT: &str =
    "shift-report 1\nstatus optimal\ncost 3\nbound 3\nrows 1\nrow 0 0 1 -\nproof 3\nsplit 0 0 0 - 0\nsettled 1\nsettled 2\nend\n";

/// A source of a text that moves at most so many bytes in a read, of which the one with this number fails, and none where it is 0.
fn source(alloc: Global, text: &str, most: usize, fails: u64) -> Result<MemSource, AllocError>
    requires { 0 < most }
{
    let bytes = Vec::from_slice(alloc, text.as_bytes())?;
    Ok(MemSource::new(alloc, bytes, vec![in alloc; fails]?, most))
}

/// What fails in a run: the reads of the document and of the report, and the writes, by their numbers from 1 on; 0 for none.
#[derive(Clone, Copy)]
struct Faults {
    document: u64,
    report: u64,
    write: u64,
}

/// How a check of the report ends, and what the sink then holds. A read gives at most 100 bytes, and a write takes at most 5.
fn run(alloc: Global, faults: Faults) -> Result<(CheckStatus, Vec<u8>), AllocError> {
    let words = vec![in alloc;
        String::from_str(alloc, "check")?,
        String::from_str(alloc, "I")?,
        String::from_str(alloc, "R")?,
    ]?;
    let mut instance = source(alloc, MORNING, 100, faults.document)?;
    let mut bundle = source(alloc, REPORT, 100, faults.report)?;
    let mut sink = MemSink::new(alloc, vec![in alloc; faults.write]?, 5);
    let status = check_run(
        alloc,
        words.as_slice(),
        &mut instance,
        &mut bundle,
        &mut sink,
    );
    Ok((status, Vec::from_slice(alloc, sink.bytes())?))
}

/// Whether a run in which a read of the document fails, or one of the report, ends as a read fault with nothing written.
fn is_unread(alloc: Global, document: u64, report: u64) -> Result<bool, AllocError> {
    let faults = Faults {
        document,
        report,
        write: 0,
    };
    let (status, written) = run(alloc, faults)?;
    Ok(matches!(status, CheckStatus::ReadFault) && written.is_empty())
}

#[test]
fn a_failing_read_writes_nothing(rt: HostRuntime) -> Result<(), Fail> {
    let alloc = rt.alloc();
    // the document is read by three reads that give bytes and one that gives the end, the report by two and one
    assert!(rt; is_unread(alloc, 1, 0)?);
    assert!(rt; is_unread(alloc, 4, 0)?);
    assert!(rt; !is_unread(alloc, 5, 0)?);
    assert!(rt; is_unread(alloc, 0, 1)?);
    assert!(rt; is_unread(alloc, 0, 3)?);
    assert!(rt; !is_unread(alloc, 0, 4)?);
    Ok(())
}

#[test]
fn a_failing_write_leaves_the_beginning(rt: HostRuntime) -> Result<(), Fail> {
    let faults = Faults {
        document: 0,
        report: 0,
        write: 3,
    };
    let (status, written) = run(rt.alloc(), faults)?;
    assert!(rt; matches!(status, CheckStatus::WriteFault));
    assert_eq!(rt; written.as_slice(), b"accepted c".as_slice());
    Ok(())
}
