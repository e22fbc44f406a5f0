//! A node whose two cuts leave one plan: two duties with the break from 10 on.
use crate::priced_day::{day, two_cuts};
use break_rules::NoMemory;
use dual_bound::{Fixing, settle};
use head_splits::{Cuts, Settle, settled};
use shift_instance::Instance;
use std::alloc::Global;
use std::test::Fail;

/// What the plan of a node costs, and `None` where the node is open.
fn plan_cost(alloc: Global, instance: &Instance, cuts: Cuts) -> Result<Option<u64>, NoMemory> {
    match settle(alloc, instance, cuts)? {
        Fixing::Done(node) => Ok(Some(node.floor())),
        Fixing::Open { .. } => Ok(None),
    }
}

// The shift costs 3, a second employee in three hours 3 and nobody from 10 on 2.
#[test]
fn a_settled_node(rt: HostRuntime) -> Result<(), Fail> {
    let instance = day(rt.alloc())?;
    let cuts = two_cuts(rt.alloc())?;
    assert_eq!(rt; plan_cost(rt.alloc(), &instance, cuts)?, Some(8));
    Ok(())
}

/// How many rows the plan has that cuts leave, and `None` where they leave none or more.
fn plan_rows(alloc: Global, instance: &Instance, cuts: &Cuts) -> Result<Option<usize>, NoMemory> {
    match settled(alloc, instance, cuts)? {
        Settle::Plan(rows) => Ok(Some(rows.len())),
        _ => Ok(None),
    }
}

#[test]
fn settled_cuts(rt: HostRuntime) -> Result<(), Fail> {
    let instance = day(rt.alloc())?;
    let cuts = two_cuts(rt.alloc())?;
    assert_eq!(rt; plan_rows(rt.alloc(), &instance, &cuts)?, Some(1));
    Ok(())
}
