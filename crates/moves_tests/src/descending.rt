//! Plans that no move makes cheaper, worked out by hand.
ghost use Rattle.std.specs.Prelude.{◌≡◌};

use crate::drafts_of_days::{DAY, early};
use break_rules::NoMemory;
use descents::{Descent, descend, descended};
use fixtures::{NIGHT, instance_of};
use local_moves::Draft;
use rota_cost::cost_rows;
use shift_instance::{Instance, Rows};
use std::alloc::Global;
use std::test::Fail;

/// What legal rows cost.
fn cost_of(instance: &Instance, rows: Rows) -> Result<u64, Fail> {
    Ok(cost_rows(instance, rows).ok().ok_or("refused")?.cost())
}

/// Makes a draft its copy again after a descent.
fn descend_and_assign(instance: &Instance, draft: &mut Draft) -> Result<(), NoMemory>
    requires { draft.old.instance ≡ instance.now }
{
    let copy = draft.copied(instance)?;
    descend(instance, draft, 5)?;
    draft.assign_from(instance, &copy)
}

/// What the draft of two duties costs once it was made its copy again after a descent.
fn cost_assigned(alloc: Global, instance: &Instance) -> Result<u64, Fail> {
    let mut draft = early(alloc, instance)?;
    descend_and_assign(instance, &mut draft)?;
    Ok(draft.cost())
}

/// What the rows of that draft cost after a descent.
fn cost_descended(alloc: Global, instance: &Instance) -> Result<u64, Fail> {
    let draft = early(alloc, instance)?;
    let rows = descended(alloc, instance, draft.into_rows(), 5)?;
    cost_of(instance, rows)
}

/// Both of these costs.
fn costs(alloc: Global, instance: &Instance) -> Result<(u64, u64), Fail> {
    let assigned = cost_assigned(alloc, instance)?;
    Ok((assigned, cost_descended(alloc, instance)?))
}

// One move leads from both breaks in the first hours to the plan in which each lies where one employee is enough.
#[test]
fn descent_ends_where_no_move_is_left(rt: HostRuntime) -> Result<(), Fail> {
    let alloc = rt.alloc();
    let instance = instance_of(alloc, DAY)?;
    assert_eq!(rt; costs(alloc, &instance)?, (6, 3));
    Ok(())
}

/// What the plan that an adviser gives for a day costs.
fn cost_by(alloc: Global, adviser: &mut Descent, day: &str) -> Result<u64, Fail> {
    let instance = instance_of(alloc, day)?;
    let rows = adviser.plan(&instance)?;
    cost_of(&instance, rows)
}

/// The adviser of the day.
fn adviser_of_day(alloc: Global) -> Result<Descent, Fail> {
    let instance = instance_of(alloc, DAY)?;
    let adviser = Descent::of(alloc, &instance, 5)?;
    Ok(adviser)
}

// No plan of the day is cheaper than 3.
#[test]
fn an_adviser_descends_in_its_instance(rt: HostRuntime) -> Result<(), Fail> {
    let alloc = rt.alloc();
    let mut made = adviser_of_day(alloc)?;
    let mut first = Descent::of_first(alloc, 5);
    assert_eq!(rt; cost_by(alloc, &mut made, DAY)?, 3);
    assert_eq!(rt; cost_by(alloc, &mut first, DAY)?, 3);
    Ok(())
}

// In the eight hours the three duties cost the shift and a shortage for each break.
#[test]
fn an_adviser_of_every_instance_descends_in_each(rt: HostRuntime) -> Result<(), Fail> {
    let alloc = rt.alloc();
    let mut each = Descent::new(alloc, 5);
    assert_eq!(rt; cost_by(alloc, &mut each, DAY)?, 3);
    assert_eq!(rt; cost_by(alloc, &mut each, NIGHT)?, 9);
    Ok(())
}
