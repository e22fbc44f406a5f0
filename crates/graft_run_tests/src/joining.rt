//! Runs of `graft_run join` over sources and sinks in memory.

use crate::texts::source;
use fixtures::MORNING_OF_TWO;
use join_runs::{JoinStatus, join_top};
use plan_base::MemSink;
use std::alloc::{AllocError, Global};

/// The report after a search below node 1.
pub(crate) const FIRST: &str =
    "shift-report 1\nstatus stopped\ncost 3\nbound 0\nrows 1\nrow 0 0 1 -\nproof 2\nsplit 0 0 0 - 1\npriced 1 1 0,0,0,0,0,0,0,0,2,2,2,2,0,0,0,0,0,0,0,0,0,0,0,0 0\nend\n";

/// The report after a search below node 2 that split it by two duties.
pub(crate) const SECOND: &str =
    "shift-report 1\nstatus stopped\ncost 3\nbound 0\nrows 1\nrow 0 0 1 -\nproof 4\nsplit 0 0 0 - 1\npriced 2 1 0,0,0,0,0,0,0,0,-1,-1,-1,-1,0,0,0,0,0,0,0,0,0,0,0,0 0\nsplit 2 0 0 - 2\nsettled 3\nend\n";

/// The words that join so many parts.
fn words(alloc: Global, parts: usize) -> Result<Vec<String>, AllocError> {
    let mut words = vec![in alloc;
        String::from_str(alloc, "join")?,
        String::from_str(alloc, "I")?,
        String::from_str(alloc, "R")?,
    ]?;
    for _ in 0..parts {
        words.push(String::from_str(alloc, "P")?)?;
    }
    Ok(words)
}

/// How a run ends in which the read of this number of the last part fails, and the write of that number, none where they are 0; and what
/// the sink then holds. A read gives at most 100 bytes, and a write takes at most 5.
pub(crate) fn run(
    alloc: Global,
    report: &str,
    parts: &[&str],
    fails: u64,
    write: u64,
) -> Result<(JoinStatus, String), AllocError> {
    let words = words(alloc, parts.len())?;
    let mut sources = Vec::new(alloc);
    for part in parts {
        sources.push(source(alloc, part, 100, fails)?)?;
    }
    let mut instance = source(alloc, MORNING_OF_TWO, 100, 0)?;
    let mut bundle = source(alloc, report, 100, 0)?;
    let mut sink = MemSink::new(alloc, vec![in alloc; write]?, 5);
    let status = join_top(
        alloc,
        words.as_slice(),
        &mut instance,
        &mut bundle,
        sources.as_mut_slice(),
        &mut sink,
    );
    Ok((status, String::from_utf8_lossy(alloc, sink.bytes())?))
}
