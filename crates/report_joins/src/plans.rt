//! The plans of a report and its parts.
ghost use Rattle.std.specs.Prelude.{◌≡◌, ◌↔◌, IfOk, IsTrue};
ghost use Rattle.report_joins.specs.Joined.{cheaper_plan, IsPlanBelow};

use break_rules::NoMemory;
use head_splits::{Cuts, meets};
use shift_instance::{Instance, Row, Rows};

/// Whether both are the same row.
fn is_same_row(row: &Row, other: &Row) -> bool
    ensures { IsTrue result ↔ (row.now ≡ other.now) }
{
    row.shift == other.shift
        && row.day == other.day
        && row.count == other.count
        && row.breaks.is_same(&other.breaks)
}

/// Whether both are the same rows in the same order.
fn are_same_rows(rows: &[Row], others: &[Row]) -> bool
    ensures { IsTrue result ↔ (rows.now ≡ others.now) }
{
    if rows.len() != others.len() {
        return false;
    }
    let mut at = 0;
    while at < rows.len() {
        if !is_same_row(&rows[at], &others[at]) {
            return false;
        }
        at += 1;
    }
    true
}

/// Whether a part may have a plan: it is the report's plan, or it is cheaper and meets the cuts of the part's node. Where the report has no
/// plan, the part has none.
pub(crate) fn is_plan_below(
    instance: &Instance,
    cuts: &Cuts,
    plan: &Option<(u64, Rows)>,
    own: &Option<(u64, Rows)>,
) -> bool
    ensures { IsTrue result ↔ IsPlanBelow cuts.now plan.now own.now }
{
    match (plan, own) {
        (None, None) => true,
        (Some((cost, rows)), Some((own_cost, own_rows))) => {
            if own_cost < cost {
                meets(instance, own_rows, cuts)
            } else {
                own_cost == cost && are_same_rows(rows.as_slice(), own_rows.as_slice())
            }
        }
        _ => false,
    }
}

/// A plan once more.
pub(crate) fn copy_of_plan(plan: &Option<(u64, Rows)>) -> Result<Option<(u64, Rows)>, NoMemory>
    ensures { IfOk result (λ copy. copy ≡ plan.now) }
{
    match plan {
        None => Ok(None),
        Some((cost, rows)) => Ok(Some((*cost, rows.clone()?))),
    }
}

/// The cheaper of two plans, and the first where both cost the same; none where the first is none.
pub(crate) fn cheaper_plan(
    plan: Option<(u64, Rows)>,
    own: &Option<(u64, Rows)>,
) -> Result<Option<(u64, Rows)>, NoMemory>
    ensures { IfOk result (λ cheaper. cheaper ≡ cheaper_plan plan own.now) }
{
    let Some((cost, rows)) = plan else {
        return Ok(None);
    };
    match own {
        Some((own_cost, own_rows)) if *own_cost < cost => Ok(Some((*own_cost, own_rows.clone()?))),
        _ => Ok(Some((cost, rows))),
    }
}
