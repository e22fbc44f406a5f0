//! Which of two plans is written, where each keeps some duties of an older one.
ghost use Rattle.std.specs.Prelude.{◌≡◌, ◌+◌, ◌*◌, ◌≤◌, IfOk, IsTrue};
ghost use Rattle.shift_instance.specs.Rota.{are_legal_rows, cost, rota_of};
ghost use Rattle.plan_comparison.specs.Changes.{kept_duties};
ghost use Rattle.kept_duties.specs.Weighing.{WeighsNoMore};

use crate::keeping::with_more_kept;
use break_rules::NoMemory;
use plan_comparison::kept_duties;
use rota_cost::{cost_rows, recount};
use shift_instance::{Instance, Rows};
use shift_tables::ShiftTables;
use std::alloc::Global;

/// What a legal plan costs with `change` for each wanted duty that another one keeps.
fn weighed(instance: &Instance, rows: &Rows, other: &Rows, wanted: &Rows, change: u32) -> u128
    requires legal { IsTrue (are_legal_rows instance.now rows.now) }
    ensures { result ≡ cost instance.now (rota_of rows.now) + change * kept_duties wanted.now other.now }
{
    u128::from(recount(instance, rows)) + u128::from(change) * kept_duties(wanted, other)
}

/// Of two legal plans the one that weighs less, and the first where both weigh the same.
fn lighter(instance: &Instance, one: Rows, other: Rows, wanted: &Rows, change: u32) -> Rows
    requires legal { IsTrue (are_legal_rows instance.now one) }
    requires other { IsTrue (are_legal_rows instance.now other) }
    ensures legal { IsTrue (are_legal_rows instance.now result) }
    ensures one { WeighsNoMore instance.now wanted.now change result one }
    ensures other { WeighsNoMore instance.now wanted.now change result other }
{
    let here = weighed(instance, &one, &other, wanted, change);
    let there = weighed(instance, &other, &one, wanted, change);
    if there < here {
        return other;
    }
    one
}

/// Of a legal plan and another one, each first with more of the wanted duties (`with_more_kept`), the plan that costs least when `change` is
/// taken off for each wanted duty that it keeps. Rows that are no legal plan count for nothing as the other one.
pub fn least_changed(
    alloc: Global,
    instance: &Instance,
    rows: Rows,
    other: Rows,
    wanted: &Rows,
    change: u32,
) -> Result<Rows, NoMemory>
    requires legal { IsTrue (are_legal_rows instance.now rows) }
    ensures legal { IfOk result (λ new. IsTrue (are_legal_rows instance.now new)) }
    ensures rows { IfOk result (λ new. WeighsNoMore instance.now wanted.now change new rows) }
    ensures other { IfOk result (λ new. IsTrue (are_legal_rows instance.now other) → WeighsNoMore instance.now wanted.now change new other) }
{
    let tables = ShiftTables::new(alloc, instance)?;
    let one = with_more_kept(alloc, instance, &tables, rows, wanted, change)?;
    let Ok(plan) = cost_rows(instance, other) else {
        return Ok(one);
    };
    let other = with_more_kept(alloc, instance, &tables, plan.into_rows(), wanted, change)?;
    Ok(lighter(instance, one, other, wanted, change))
}
