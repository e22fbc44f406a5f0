//! Plans that keep duties of another plan, worked out by hand.

use crate::rows_of_days::{Spelled, TWINS, plan_of, rows_of};
use fixtures::{NIGHT, instance_of};
use kept_duties::{least_changed, with_more_kept};
use plan_comparison::kept_duties;
use rota_cost::cost_rows;
use shift_tables::ShiftTables;
use std::alloc::Global;
use std::test::Fail;

/// How many of some wanted duties a plan has, and what it costs, before and after it was made to keep more of them where each may cost
/// `change` more.
fn kept_of(
    alloc: Global,
    document: &str,
    plan: &[Spelled],
    wanted: &[Spelled],
    change: u32,
) -> Result<((u128, u64), (u128, u64)), Fail> {
    let instance = instance_of(alloc, document)?;
    let tables = ShiftTables::new(alloc, &instance)?;
    let wanted = rows_of(alloc, wanted)?;
    let plan = plan_of(alloc, &instance, plan)?;
    let before = (kept_duties(&wanted, plan.rows()), plan.cost());
    let rows = with_more_kept(alloc, &instance, &tables, plan.into_rows(), &wanted, change)?;
    let plan = cost_rows(&instance, rows).ok().ok_or("not legal")?;
    let after = (kept_duties(&wanted, plan.rows()), plan.cost());
    Ok((before, after))
}

// In each hour of a break one employee less works than is needed: three breaks cost 2 each, wherever they are, and the shift 3.
#[test]
fn duties_come_back_where_they_cost_no_more(rt: HostRuntime) -> Result<(), Fail> {
    let plan = [(0, 0, Some(2), 3)];
    let wanted = [(0, 0, Some(3), 1), (0, 0, Some(4), 1)];
    assert_eq!(rt;
        kept_of(rt.alloc(), NIGHT, &plan, &wanted, 0)?,
        ((0, 9), (2, 9))
    );
    Ok(())
}

// A second shift costs 3 more, so the other one comes back on both days at once, or not at all.
#[test]
fn days_come_back_together(rt: HostRuntime) -> Result<(), Fail> {
    let plan = [(0, 0, None, 1), (0, 1, None, 1)];
    let wanted = [(1, 0, None, 1), (1, 1, None, 1)];
    assert_eq!(rt;
        kept_of(rt.alloc(), TWINS, &plan, &wanted, 0)?,
        ((0, 3), (2, 3))
    );
    Ok(())
}

// The second shift costs 3 more for the one duty that comes back: so it does where a duty counts 3, and doesn't where it counts 2.
#[test]
fn a_duty_comes_back_for_what_it_counts(rt: HostRuntime) -> Result<(), Fail> {
    let plan = [(0, 0, None, 1), (0, 1, None, 1)];
    let wanted = [(1, 0, None, 1)];
    assert_eq!(rt;
        kept_of(rt.alloc(), TWINS, &plan, &wanted, 2)?,
        ((0, 3), (0, 3))
    );
    assert_eq!(rt;
        kept_of(rt.alloc(), TWINS, &plan, &wanted, 3)?,
        ((0, 3), (1, 6))
    );
    Ok(())
}

/// What a plan costs of a plan and another one, by the choice of the one that weighs less where each wanted duty counts `change`.
fn cost_of_chosen(
    alloc: Global,
    plan: &[Spelled],
    other: &[Spelled],
    wanted: &[Spelled],
    change: u32,
) -> Result<u64, Fail> {
    let instance = instance_of(alloc, TWINS)?;
    let rows = plan_of(alloc, &instance, plan)?.into_rows();
    let other = rows_of(alloc, other)?;
    let wanted = rows_of(alloc, wanted)?;
    let chosen = least_changed(alloc, &instance, rows, other, &wanted, change)?;
    let chosen = cost_rows(&instance, chosen).ok().ok_or("not legal")?;
    Ok(chosen.cost())
}

// Nobody costs 16, one shift on both days 3. Rows of two duties where one may be are no plan, so they count for nothing.
#[test]
fn the_cheaper_of_two_plans_is_chosen(rt: HostRuntime) -> Result<(), Fail> {
    let alloc = rt.alloc();
    let full = [(0, 0, None, 1), (0, 1, None, 1)];
    let crowded = [(0, 0, None, 2), (0, 1, None, 2)];
    assert_eq!(rt; cost_of_chosen(alloc, &[], &full, &[], 0)?, 3);
    assert_eq!(rt; cost_of_chosen(alloc, &full, &[], &[], 0)?, 3);
    assert_eq!(rt; cost_of_chosen(alloc, &[], &crowded, &[], 0)?, 16);
    Ok(())
}
