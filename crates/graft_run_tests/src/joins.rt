//! Parts that are joined.

use crate::joining::{FIRST, SECOND, run};
use crate::texts::REPORT;
use join_runs::JoinStatus;
use std::test::Fail;

/// Both parts, in their order: nodes 3 and 4 of the second are so in the joined report.
const BOTH: &str =
    "shift-report 1\nstatus optimal\ncost 3\nbound 3\nrows 1\nrow 0 0 1 -\nproof 5\nsplit 0 0 0 - 1\npriced 1 1 0,0,0,0,0,0,0,0,2,2,2,2,0,0,0,0,0,0,0,0,0,0,0,0 0\npriced 2 1 0,0,0,0,0,0,0,0,-1,-1,-1,-1,0,0,0,0,0,0,0,0,0,0,0,0 0\nsplit 2 0 0 - 2\nsettled 3\nend\n";

#[test]
fn two_parts_are_joined(rt: HostRuntime) -> Result<(), Fail> {
    let (status, text) = run(rt.alloc(), REPORT, &[FIRST, SECOND], 0, 0)?;
    assert_eq!(rt; status.number(), 0);
    assert_eq!(rt; text.as_str(), BOTH);
    Ok(())
}

/// A part below node 1 that splits it, so that its split is the second one.
const SPLIT: &str =
    "shift-report 1\nstatus stopped\ncost 3\nbound 0\nrows 1\nrow 0 0 1 -\nproof 3\nsplit 0 0 0 - 1\nsplit 1 0 0 - 0\nsettled 4\nend\n";

/// It and the other part: what were nodes 3 and 4 of the other are nodes 5 and 6.
const OTHERS: &str =
    "shift-report 1\nstatus stopped\ncost 3\nbound 0\nrows 1\nrow 0 0 1 -\nproof 6\nsplit 0 0 0 - 1\nsplit 1 0 0 - 0\nsettled 4\npriced 2 1 0,0,0,0,0,0,0,0,-1,-1,-1,-1,0,0,0,0,0,0,0,0,0,0,0,0 0\nsplit 2 0 0 - 2\nsettled 5\nend\n";

#[test]
fn nodes_get_other_numbers(rt: HostRuntime) -> Result<(), Fail> {
    let (_, text) = run(rt.alloc(), REPORT, &[SPLIT, SECOND], 0, 0)?;
    assert_eq!(rt; text.as_str(), OTHERS);
    Ok(())
}

#[test]
fn one_part_is_joined_as_it_is(rt: HostRuntime) -> Result<(), Fail> {
    let (_, text) = run(rt.alloc(), REPORT, &[FIRST], 0, 0)?;
    assert_eq!(rt; text.as_str(), FIRST);
    Ok(())
}

#[test]
fn a_failing_read_of_a_part_writes_nothing(rt: HostRuntime) -> Result<(), Fail> {
    let (status, text) = run(rt.alloc(), REPORT, &[FIRST, SECOND], 2, 0)?;
    assert!(rt; matches!(status, JoinStatus::ReadFault));
    assert_eq!(rt; text.as_str(), "");
    Ok(())
}

#[test]
fn a_failing_write_leaves_the_beginning(rt: HostRuntime) -> Result<(), Fail> {
    let (status, text) = run(rt.alloc(), REPORT, &[FIRST], 0, 3)?;
    assert!(rt; matches!(status, JoinStatus::WriteFault));
    assert_eq!(rt; text.as_str(), "shift-repo");
    Ok(())
}
