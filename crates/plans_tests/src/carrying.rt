//! Rows that are carried to another instance, worked out by hand.

use crate::rows_of_days::{
    HALVED, LONGER, OLD, PAUSED, RENAMED, SHORTER, SWAPPED, Spelled, plan_of, spelled,
};
use carried_rows::{Obstacle, carried_rows, obstacle_of};
use fixtures::instance_of;
use std::alloc::Global;
use std::test::Fail;

/// A plan of the old days: two early at 8 and three late duties on the first, one early at 9 on the second.
const PLAN: &[Spelled] = &[(0, 0, None, 2), (1, 1, None, 1), (2, 0, None, 3)];

/// The rows of that plan that are carried to another instance.
fn carried_to(alloc: Global, document: &str) -> Result<Vec<(u16, u8, u16)>, Fail> {
    let old = instance_of(alloc, OLD)?;
    let new = instance_of(alloc, document)?;
    let plan = plan_of(alloc, &old, PLAN)?;
    let carried = carried_rows(alloc, &old, &new, plan.rows())?;
    Ok(spelled(alloc, &carried)?)
}

/// What keeps each row of that plan from being carried to another instance.
fn obstacles_to(alloc: Global, document: &str) -> Result<Vec<Option<Obstacle>>, Fail> {
    let old = instance_of(alloc, OLD)?;
    let new = instance_of(alloc, document)?;
    let plan = plan_of(alloc, &old, PLAN)?;
    let mut list = Vec::new(alloc);
    for row in plan.rows().as_slice() {
        if usize::from(row.shift) < old.shifts().len() {
            list.push(obstacle_of(&old, &new, row))?;
        }
    }
    Ok(list)
}

#[test]
fn all_rows_are_carried_to_the_same_instance(rt: HostRuntime) -> Result<(), Fail> {
    let alloc = rt.alloc();
    let found = carried_to(alloc, OLD)?;
    assert_eq!(rt;
        found.as_slice(),
        [(0, 0, 2), (1, 1, 1), (2, 0, 3)].as_slice()
    );
    Ok(())
}

// The early shift at 9 isn't there any more, and one late duty is above `max_heads`.
#[test]
fn rows_follow_their_types(rt: HostRuntime) -> Result<(), Fail> {
    let alloc = rt.alloc();
    let found = carried_to(alloc, SWAPPED)?;
    assert_eq!(rt; found.as_slice(), [(0, 0, 2), (2, 0, 2)].as_slice());
    let found = obstacles_to(alloc, SWAPPED)?;
    assert_eq!(rt;
        found.as_slice(),
        [None, Some(Obstacle::Start), None].as_slice()
    );
    Ok(())
}

#[test]
fn no_row_is_carried_where_names_or_slots_differ(rt: HostRuntime) -> Result<(), Fail> {
    let alloc = rt.alloc();
    assert!(rt; carried_to(alloc, RENAMED)?.is_empty());
    assert!(rt; carried_to(alloc, HALVED)?.is_empty());
    let found = obstacles_to(alloc, RENAMED)?;
    let name = Some(Obstacle::Name);
    assert_eq!(rt; found.as_slice(), [name, name, name].as_slice());
    let found = obstacles_to(alloc, HALVED)?;
    let slots = Some(Obstacle::Slots);
    assert_eq!(rt; found.as_slice(), [slots, slots, slots].as_slice());
    Ok(())
}

#[test]
fn rows_are_left_for_their_length_their_day_and_their_breaks(rt: HostRuntime) -> Result<(), Fail> {
    let alloc = rt.alloc();
    let found = obstacles_to(alloc, LONGER)?;
    assert_eq!(rt;
        found.as_slice(),
        [None, None, Some(Obstacle::Length)].as_slice()
    );
    let found = obstacles_to(alloc, SHORTER)?;
    assert_eq!(rt;
        found.as_slice(),
        [None, Some(Obstacle::Day), None].as_slice()
    );
    let found = obstacles_to(alloc, PAUSED)?;
    let breaks = Some(Obstacle::Breaks);
    assert_eq!(rt; found.as_slice(), [breaks, breaks, None].as_slice());
    Ok(())
}
