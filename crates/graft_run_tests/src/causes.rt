//! Parts that are refused, each by its own cause.

use crate::joining::{FIRST, SECOND, run};
use crate::texts::REPORT;
use std::alloc::Global;
use std::test::Fail;

/// Whether a run of these parts ends with status 1 and this line.
fn says(alloc: Global, report: &str, parts: &[&str], line: &str) -> Result<bool, Fail> {
    let (status, text) = run(alloc, report, parts, 0, 0)?;
    Ok(status.number() == 1 && text.as_str() == line)
}

/// A text in which a word stands in place of another.
fn bent(alloc: Global, text: &str, old: &str, new: &str) -> Result<String, Fail> {
    Ok(text.replace(alloc, old, new)?)
}

#[test]
fn half_a_part_is_refused(rt: HostRuntime) -> Result<(), Fail> {
    let half = bent(rt.alloc(), FIRST, " 0\nend\n", "")?;
    assert!(rt;
        says(
            rt.alloc(),
            REPORT,
            &[SECOND, half.as_str()],
            "join refused 2 1 9\n"
        )?
    );
    assert!(rt; says(rt.alloc(), REPORT, &[""], "join refused 1 1 1\n")?);
    Ok(())
}

#[test]
fn a_part_that_claims_too_much_is_refused(rt: HostRuntime) -> Result<(), Fail> {
    let much = bent(rt.alloc(), FIRST, "bound 0", "bound 1")?;
    assert!(rt;
        says(
            rt.alloc(),
            REPORT,
            &[much.as_str()],
            "join refused 1 2 4 1 0\n"
        )?
    );
    let worse = bent(rt.alloc(), FIRST, "priced 1 1", "priced 1 20000")?;
    assert!(rt;
        says(
            rt.alloc(),
            REPORT,
            &[worse.as_str()],
            "join refused 1 2 2 2\n"
        )?
    );
    let cheap = bent(rt.alloc(), FIRST, "cost 3", "cost 2")?;
    assert!(rt;
        says(
            rt.alloc(),
            REPORT,
            &[cheap.as_str()],
            "join refused 1 2 6 2 3\n"
        )?
    );
    Ok(())
}

#[test]
fn a_part_of_another_report_is_refused(rt: HostRuntime) -> Result<(), Fail> {
    let other = bent(rt.alloc(), FIRST, "split 0 0 0 - 1", "split 0 0 0 - 0")?;
    assert!(rt;
        says(
            rt.alloc(),
            REPORT,
            &[other.as_str()],
            "join refused 1 3 1\n"
        )?
    );
    assert!(rt; says(rt.alloc(), FIRST, &[REPORT], "join refused 1 3 2\n")?);
    Ok(())
}

#[test]
fn a_part_that_goes_on_nowhere_is_refused(rt: HostRuntime) -> Result<(), Fail> {
    assert!(rt; says(rt.alloc(), REPORT, &[FIRST, REPORT], "join refused 2 4\n")?);
    let better = bent(rt.alloc(), REPORT, "cost 3", "cost 8")?;
    let whole = bent(
        rt.alloc(),
        better.as_str(),
        "rows 1\nrow 0 0 1 -\n",
        "rows 0\n",
    )?;
    assert!(rt; says(rt.alloc(), whole.as_str(), &[REPORT], "join refused 1 4\n")?);
    Ok(())
}

/// A part whose line behind the report's is of a node below one of the report's.
const BELOW: &str =
    "shift-report 1\nstatus stopped\ncost 3\nbound 0\nrows 1\nrow 0 0 1 -\nproof 3\nsplit 0 0 0 - 1\nsplit 2 0 0 - 2\npriced 1 1 0,0,0,0,0,0,0,0,2,2,2,2,0,0,0,0,0,0,0,0,0,0,0,0 0\nend\n";

#[test]
fn a_part_of_two_nodes_is_refused(rt: HostRuntime) -> Result<(), Fail> {
    assert!(rt; says(rt.alloc(), REPORT, &[FIRST, BELOW], "join refused 2 6 3\n")?);
    Ok(())
}

#[test]
fn a_part_with_another_plan_is_refused(rt: HostRuntime) -> Result<(), Fail> {
    let dear = bent(rt.alloc(), FIRST, "cost 3", "cost 8")?;
    let dearer = bent(
        rt.alloc(),
        dear.as_str(),
        "rows 1\nrow 0 0 1 -\n",
        "rows 0\n",
    )?;
    assert!(rt; says(rt.alloc(), REPORT, &[dearer.as_str()], "join refused 1 7\n")?);
    let whole = bent(rt.alloc(), REPORT, "cost 3", "cost 8")?;
    let none = bent(
        rt.alloc(),
        whole.as_str(),
        "rows 1\nrow 0 0 1 -\n",
        "rows 0\n",
    )?;
    // the plan of one duty doesn't meet the cut of node 2
    assert!(rt;
        says(
            rt.alloc(),
            none.as_str(),
            &[FIRST, SECOND],
            "join refused 2 7\n"
        )?
    );
    Ok(())
}

#[test]
fn two_parts_of_a_node_are_refused(rt: HostRuntime) -> Result<(), Fail> {
    assert!(rt;
        says(
            rt.alloc(),
            REPORT,
            &[FIRST, SECOND, FIRST],
            "join refused 3 8 1\n"
        )?
    );
    Ok(())
}

#[test]
fn a_report_that_is_refused_is_told(rt: HostRuntime) -> Result<(), Fail> {
    let much = bent(rt.alloc(), REPORT, "bound 0", "bound 1")?;
    assert!(rt;
        says(
            rt.alloc(),
            much.as_str(),
            &[FIRST],
            "graft refused 1 4 1 0\n"
        )?
    );
    Ok(())
}
