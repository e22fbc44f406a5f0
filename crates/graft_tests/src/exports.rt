//! Cuts of the nodes of a report, and cuts that pin how many duties of each shift its rows have on each day.
ghost use Rattle.std.specs.Prelude.{◌≡◌};

use crate::split_morning::report;
use certificate::Cert;
use fixtures::morning_of;
use head_splits::{Cuts, Side};
use report_grafts::{export, pins};
use rota_cost::legal_rows;
use shift_instance::Instance;
use std::alloc::Global;
use std::test::Fail;

/// The sides and numbers of cuts.
fn numbers(alloc: Global, cuts: &Cuts) -> Result<Vec<(Side, u16)>, Fail> {
    let mut numbers = Vec::new(alloc);
    for cut in cuts.as_slice() {
        numbers.push((cut.side, cut.m))?;
    }
    Ok(numbers)
}

/// The sides and numbers of the cuts of a node.
fn exported(
    alloc: Global,
    instance: &Instance,
    whole: &Cert,
    node: u32,
) -> Result<Vec<(Side, u16)>, Fail> {
    match export(alloc, instance, whole, node) {
        Ok(cuts) => numbers(alloc, &cuts),
        Err(_) => Err("it isn't exported".into()),
    }
}

#[test]
fn the_second_part_of_a_split_is_exported(rt: HostRuntime) -> Result<(), Fail> {
    let alloc = rt.alloc();
    let cuts = exported(alloc, &morning_of(alloc, "2")?, &report(alloc)?, 2)?;
    assert!(rt; cuts.as_slice() == [(Side::AtLeast, 2)].as_slice());
    Ok(())
}

/// The sides and numbers of the cuts that pin the rows of a report, which are legal.
fn pinned(alloc: Global, instance: &Instance, whole: &Cert) -> Result<Vec<(Side, u16)>, Fail> {
    match &whole.plan {
        Some((_, rows)) if legal_rows(instance, rows).is_ok() => {
            numbers(alloc, &pins(alloc, instance, rows)?)
        }
        _ => Err("there are no legal rows".into()),
    }
}

// the report's plan has one duty
#[test]
fn heads_are_pinned(rt: HostRuntime) -> Result<(), Fail> {
    let alloc = rt.alloc();
    let cuts = pinned(alloc, &morning_of(alloc, "2")?, &report(alloc)?)?;
    assert!(rt; cuts.as_slice() == [(Side::AtMost, 1), (Side::AtLeast, 1)].as_slice());
    Ok(())
}
