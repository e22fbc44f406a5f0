//! A plan with other breaks.

ghost use Rattle.std.specs.Prelude.{◌≡◌, ◌⊎◌, ◌≤◌, ◌^◌, IfOk, IfSome, IsTrue, MatchOption, None, Some, true};
ghost use Rattle.shift_instance.specs.Rota.{are_legal_rows};
ghost use Rattle.planning_breaks.specs.Anew.{cert_after, AreEnough, BoundsBreaks, CostsItsFloor, IsFound, IsRebroken};

use advice::{Adviser, Stop};
use break_plans::{Anew, planned_anew};
use break_rules::NoMemory;
use planning_runs::{JudgedPlan, with_rows};
use shift_instance::Rows;
use std::alloc::Global;

/// What came of planning the breaks of a plan anew.
#[derive(Drop)]
pub struct Rebroken {
    /// The plan: with cheaper breaks where some were found, and else as it was.
    pub plan: JudgedPlan,
    /// The rows before.
    pub before: Rows,
    /// What they cost.
    pub cost_before: u64,
    /// What every legal rota with as many duties of each shift on each day costs at least.
    pub floor: u64,
}

/// The rows of a plan with what they cost, once more; none where its report has none.
fn rows_in(plan: &JudgedPlan) -> Result<Option<(u64, Rows)>, NoMemory>
    ensures rows { IfOk result (λ found. found ≡ plan.now.cert.plan) }
{
    match &plan.cert.plan {
        Some((cost, rows)) => Ok(Some((*cost, rows.clone()?))),
        None => Ok(None),
    }
}

/// A plan with cheaper rows, where there are some, and else as it is.
fn with_cheaper(
    alloc: Global,
    plan: JudgedPlan,
    cheaper: Option<Rows>,
) -> Result<JudgedPlan, NoMemory>
    requires legal { IfSome cheaper (λ rows. IsTrue (are_legal_rows plan.instance rows)) }
    ensures instance { IfOk result (λ new. new.instance ≡ plan.instance) }
    ensures cert { IfOk result (λ new. new.cert ≡ cert_after plan.instance plan.cert cheaper) }
{
    match cheaper {
        Some(rows) => with_rows(alloc, plan, rows),
        None => Ok(plan),
    }
}

/// A plan whose breaks are planned anew by an adviser, in at most so many steps, until none can be cheaper or the stop asks; `None` exactly where
/// its report has no rows. `NoMemory` is the only refusal.
pub fn with_breaks<A: Adviser, S: Stop>(
    alloc: Global,
    plan: JudgedPlan,
    steps: u64,
    adviser: &mut A,
    stop: &S,
) -> Result<Option<Rebroken>, NoMemory>
    requires steps { steps ≤ 10 ^ 9 }
    ensures rebroken { IfOk result (λ found. MatchOption found (plan.cert.plan ≡ None) (IsRebroken plan)) }
    ensures found { IfOk result (λ found. IfSome found (IsFound plan steps (S.can_ask stop.now))) }
    ensures floor { IfOk result (λ found. IfSome found (BoundsBreaks plan)) }
    // So many steps find the cheapest breaks, whatever is advised.
    ensures enough { AreEnough plan steps → IfOk result (λ found. IfSome found (λ r. CostsItsFloor r ⊎ (S.can_ask stop.now ≡ true))) }
{
    let Some((cost_before, before)) = rows_in(&plan)? else {
        return Ok(None);
    };
    let anew = planned_anew(alloc, &plan.instance, &before, steps, adviser, stop)?;
    let Anew { cheaper, floor, .. } = anew;
    let bound = plan.cert.bound;
    let plan = with_cheaper(alloc, plan, cheaper)?;
    Ok(Some(Rebroken {
        plan,
        before,
        cost_before,
        floor: floor.max(bound),
    }))
}
