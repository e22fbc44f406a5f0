//! A plan that keeps more duties of another one.
ghost use Rattle.std.specs.Prelude.{◌≡◌, ◌+◌, ◌*◌, ◌-◌, ◌≤◌, IfOk, IsTrue};
ghost use Rattle.shift_instance.specs.Rota.{are_legal_rows, cost, rota_of};
ghost use Rattle.plan_comparison.specs.Changes.{kept_duties};

use crate::days::{Sides, gains_of, restore_days};
use crate::placing::{placed_of, plan_of, rows_of};
use crate::trades::restore_duties;
use break_rules::NoMemory;
use plan_comparison::kept_duties;
use rota_cost::{cost_rows, recount};
use shift_instance::{Instance, Rows};
use shift_tables::ShiftTables;
use std::alloc::Global;

/// The rows of a plan after whole days, and then single duties, came back from the wanted rows where that makes it dearer by at most `change`
/// for each. Nothing is claimed of them.
fn restored(
    alloc: Global,
    tables: &ShiftTables,
    rows: &Rows,
    wanted: &Rows,
    change: u32,
) -> Result<Rows, NoMemory> {
    let Some(own) = placed_of(alloc, rows)? else {
        return Ok(rows.clone()?);
    };
    let Some(other) = placed_of(alloc, wanted)? else {
        return Ok(rows.clone()?);
    };
    let gains = gains_of(alloc, rows, wanted)?;
    let mut plan = plan_of(alloc, tables, own.as_slice())?;
    let sides = Sides {
        own: own.as_slice(),
        wanted: other.as_slice(),
        gains: gains.as_slice(),
        change: f64::from(change),
    };
    restore_days(&mut plan, tables, &sides)?;
    restore_duties(
        alloc,
        &mut plan,
        tables,
        other.as_slice(),
        f64::from(change),
    )?;
    rows_of(alloc, tables, &plan)
}

/// How much dearer a plan may be that has so many of the wanted duties in place of fewer.
fn most_paid(cost: u64, change: u32, kept: u128, more: u128) -> u128
    ensures { result ≤ cost + change * (more - kept) }
{
    let gain = more.saturating_sub(kept);
    u128::from(cost).saturating_add(u128::from(change).saturating_mul(gain))
}

/// Other rows where they are a plan that has no fewer of the wanted duties than a legal plan and costs at most `change` more for each one more,
/// and else that plan.
fn kept_or(instance: &Instance, rows: Rows, other: Rows, wanted: &Rows, change: u32) -> Rows
    requires legal { IsTrue (are_legal_rows instance.now rows) }
    ensures legal { IsTrue (are_legal_rows instance.now result) }
    ensures cheap { cost instance.now (rota_of result) ≤ cost instance.now (rota_of rows) + change * (kept_duties wanted.now result - kept_duties wanted.now rows) }
    ensures kept { kept_duties wanted.now rows ≤ kept_duties wanted.now result }
{
    let cost = recount(instance, &rows);
    let Ok(plan) = cost_rows(instance, other) else {
        return rows;
    };
    let kept = kept_duties(wanted, &rows);
    let more = kept_duties(wanted, plan.rows());
    if more < kept || most_paid(cost, change, kept, more) < u128::from(plan.cost()) {
        return rows;
    }
    plan.into_rows()
}

/// A legal plan that has no fewer of the duties of the wanted rows than a given one, and costs at most `change` more for each that it has more.
/// Which of those plans it is, is left open: it is looked for with tables of the instance.
pub fn with_more_kept(
    alloc: Global,
    instance: &Instance,
    tables: &ShiftTables,
    rows: Rows,
    wanted: &Rows,
    change: u32,
) -> Result<Rows, NoMemory>
    requires legal { IsTrue (are_legal_rows instance.now rows) }
    ensures legal { IfOk result (λ new. IsTrue (are_legal_rows instance.now new)) }
    ensures cheap { IfOk result (λ new. cost instance.now (rota_of new) ≤ cost instance.now (rota_of rows) + change * (kept_duties wanted.now new - kept_duties wanted.now rows)) }
    ensures kept { IfOk result (λ new. kept_duties wanted.now rows ≤ kept_duties wanted.now new) }
{
    let other = restored(alloc, tables, &rows, wanted, change)?;
    Ok(kept_or(instance, rows, other, wanted, change))
}
