//! Walks over legal break lists, along the graph of a shift and by layers.

ghost use Rattle.std.specs.Prelude.{◌<◌, length};
ghost use Rattle.break_rules.specs.Ranges.{IsRule};
ghost use Rattle.shift_instance.specs.Problem.{shift_list};

use crate::instances::day_instance;
use crate::small_rules::{eighth, judge, short};
use break_layers::LayerValues;
use break_rules::{NoMemory, Rule, Spot};
use list_walks::{ListWalks, WalkWay};
use shift_instance::Instance;
use std::alloc::Global;
use std::process::Abort;
use std::test::Fail;

/// Stops the test where some list goes on behind the spot of a short break, or that spot is not the one behind it.
fn judge_end(
    rt: &impl Abort,
    alloc: Global,
    values: &LayerValues<'_>,
    start: u16,
    spot: Spot,
) -> Result<(), NoMemory> {
    assert!(rt; (spot.offset, spot.used) == (start.wrapping_add(1), 1));
    assert!(rt; values.ways(alloc, spot)?.is_empty());
    Ok(())
}

/// Stops the test where the ways on from the start don't lead to four short breaks, from offset 2 on, and end there.
fn judge_ways(rt: &impl Abort, alloc: Global, values: &LayerValues<'_>) -> Result<(), NoMemory> {
    let ways = values.ways(alloc, Spot::opening())?;
    assert_eq!(rt; ways.len(), 4);
    for (start, way) in (2u16..6).zip(ways.as_slice()) {
        assert!(rt; way.stop == short(start));
        judge_end(rt, alloc, values, start, way.spot)?;
    }
    Ok(())
}

/// The same in a shift of 8 slots by a rule.
fn judge_layers(rt: &impl Abort, alloc: Global, rule: &Rule) -> Result<(), NoMemory>
    requires { IsRule rule.now }
{
    let values = LayerValues::unpriced(alloc, rule, 8)?;
    assert_eq!(rt; values.value_at(Spot::opening()), Some(0));
    judge_ways(rt, alloc, &values)
}

/// One break of one slot has its place at offsets 2 to 5 of a shift of 8 slots, and no list goes on behind it.
#[test]
fn layers_lead_to_each_break(rt: HostRuntime) -> Result<(), Fail> {
    let alloc = rt.alloc();
    let rule = eighth(alloc)?;
    judge(&rt, &rule);
    judge_layers(&rt, alloc, &rule)?;
    Ok(())
}

/// Stops the test where a list is legal in a shift of 7 slots by a rule.
fn judge_no_list(rt: &impl Abort, alloc: Global, rule: &Rule) -> Result<(), NoMemory>
    requires { IsRule rule.now }
{
    let values = LayerValues::unpriced(alloc, rule, 7)?;
    assert!(rt; values.value_at(Spot::opening()).is_none());
    assert!(rt; values.ways(alloc, Spot::opening())?.is_empty());
    Ok(())
}

/// No list is legal in a shift of 7 slots by the same rule.
#[test]
fn layers_of_no_list_lead_nowhere(rt: HostRuntime) -> Result<(), Fail> {
    let alloc = rt.alloc();
    let rule = eighth(alloc)?;
    judge(&rt, &rule);
    judge_no_list(&rt, alloc, &rule)?;
    Ok(())
}

/// The ways on from the start of a shift.
fn first_ways(alloc: Global, walks: &ListWalks<'_>) -> Result<Vec<WalkWay>, NoMemory> {
    match walks.opening() {
        Some(at) => walks.ways(alloc, at),
        None => Ok(Vec::new(alloc)),
    }
}

/// The ways on from the start of a shift of an instance.
fn ways_of_shift(alloc: Global, instance: &Instance, shift: u16) -> Result<Vec<WalkWay>, NoMemory>
    requires { shift < length (shift_list instance.now) }
{
    let walks = ListWalks::of_shift(alloc, instance, shift)?;
    first_ways(alloc, &walks)
}

/// Stops the test where these ways don't lead to four short breaks, from offset 2 on.
fn judge_breaks(rt: &impl Abort, ways: &[WalkWay]) {
    assert_eq!(rt; ways.len(), 4);
    for (start, way) in (2u16..6).zip(ways) {
        assert!(rt; way.stop == short(start) && way.at.spot.offset == start.wrapping_add(1));
    }
}

/// Stops the test where the first of two shifts has ways on from its start, or those of the second don't lead to such breaks.
fn judge_shifts(rt: &impl Abort, alloc: Global, instance: &Instance) -> Result<(), NoMemory> {
    assert!(rt; instance.shifts().len() == 2);
    assert!(rt; ways_of_shift(alloc, instance, 0)?.is_empty());
    judge_breaks(rt, ways_of_shift(alloc, instance, 1)?.as_slice());
    Ok(())
}

/// The shifts are one of 7 slots, for which the rule has no list, and one of 8 slots.
#[test]
fn graphs_lead_to_each_break(rt: HostRuntime) -> Result<(), Fail> {
    let alloc = rt.alloc();
    let instance = day_instance(alloc)?;
    judge_shifts(&rt, alloc, &instance)?;
    Ok(())
}
