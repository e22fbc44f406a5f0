//! Duties that give way to wanted ones.

use break_rules::NoMemory;
use shift_tables::{Pauses, ShiftTables};
use std::alloc::Global;
use working_plan::{Placed, Plan};

/// How often a duty is wanted.
fn times_wanted(wanted: &[Placed], placed: &Placed) -> usize {
    let mut times = 0usize;
    for one in wanted {
        if *one == *placed {
            times = times.saturating_add(1);
        }
    }
    times
}

/// How often some breaks stand in a list.
fn times_listed(list: &[Pauses], pauses: &Pauses) -> usize {
    let mut times = 0usize;
    for one in list {
        if *one == *pauses {
            times = times.saturating_add(1);
        }
    }
    times
}

/// How often a plan has a duty.
fn times_in(plan: &Plan, tables: &ShiftTables, placed: &Placed) -> usize {
    let list = plan.duties(tables, placed.shift, placed.day);
    times_listed(list, &placed.pauses)
}

/// Puts a duty in where there is room and the plan costs no more than `cost` then, and says whether it did.
fn has_fitted(
    plan: &mut Plan,
    tables: &ShiftTables,
    placed: &Placed,
    cost: f64,
) -> Result<bool, NoMemory> {
    if !plan.has_room(tables, placed.shift, placed.day) {
        return Ok(false);
    }
    plan.put(tables, placed)?;
    if plan.cost <= cost {
        return Ok(true);
    }
    plan.take(tables, placed);
    Ok(false)
}

/// Puts a wanted duty in place of another where the plan costs no more than `cost` then, and says whether it did.
fn has_traded(
    plan: &mut Plan,
    tables: &ShiftTables,
    other: &Placed,
    placed: &Placed,
    cost: f64,
) -> Result<bool, NoMemory> {
    plan.take(tables, other);
    if has_fitted(plan, tables, placed, cost)? {
        return Ok(true);
    }
    plan.put(tables, other)?;
    Ok(false)
}

/// Puts a wanted duty in, or in place of one on its day that isn't wanted, where the plan is dearer by at most `change` then.
fn restore_duty(
    alloc: Global,
    plan: &mut Plan,
    tables: &ShiftTables,
    wanted: &[Placed],
    placed: &Placed,
    change: f64,
) -> Result<(), NoMemory> {
    let cost = plan.cost + change;
    if has_fitted(plan, tables, placed, cost)? {
        return Ok(());
    }
    let mut others = Vec::new(alloc);
    plan.list_into(tables, &mut others)?;
    for other in &others {
        let is_spare = other.day == placed.day
            && times_wanted(wanted, other) < times_in(plan, tables, other);
        if is_spare && has_traded(plan, tables, other, placed, cost)? {
            return Ok(());
        }
    }
    Ok(())
}

/// Has wanted duties that a plan lacks come back one by one, each alone or in place of another on its day, where the plan is dearer by at most
/// `change` then.
pub(crate) fn restore_duties(
    alloc: Global,
    plan: &mut Plan,
    tables: &ShiftTables,
    wanted: &[Placed],
    change: f64,
) -> Result<(), NoMemory> {
    for placed in wanted {
        if times_in(plan, tables, placed) < times_wanted(wanted, placed) {
            restore_duty(alloc, plan, tables, wanted, placed, change)?;
        }
    }
    Ok(())
}
