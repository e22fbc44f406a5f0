//! What became of the duties of a plan, worked out by hand.

use crate::rows_of_days::{OLD, SWAPPED, plan_of};
use fixtures::instance_of;
use plan_comparison::{DayChanges, changes};
use std::alloc::Global;
use std::test::Fail;

/// What became of two early and three late duties on the first day and one on the second, where two late and one early duty stand on the
/// first and one early on the second.
fn changes_of_week(alloc: Global) -> Result<Vec<DayChanges>, Fail> {
    let old = instance_of(alloc, OLD)?;
    let new = instance_of(alloc, SWAPPED)?;
    let before = plan_of(
        alloc,
        &old,
        &[(0, 0, None, 2), (1, 1, None, 1), (2, 0, None, 3)],
    )?;
    let after = plan_of(
        alloc,
        &new,
        &[(0, 0, None, 2), (2, 0, None, 1), (2, 1, None, 1)],
    )?;
    Ok(changes(alloc, &old, &new, before.rows(), after.rows())?)
}

#[test]
fn duties_are_kept_gone_and_new(rt: HostRuntime) -> Result<(), Fail> {
    let first = DayChanges {
        kept: 3,
        gone: 2,
        new: 0,
    };
    let second = DayChanges {
        kept: 0,
        gone: 1,
        new: 1,
    };
    let found = changes_of_week(rt.alloc())?;
    assert_eq!(rt; found.as_slice(), [first, second].as_slice());
    Ok(())
}
