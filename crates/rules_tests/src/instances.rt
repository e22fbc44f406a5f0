//! The graphs that instances keep.

ghost use Rattle.std.specs.Prelude.{◌<◌, length};
ghost use Rattle.shift_instance.specs.Problem.{shift_list};

use crate::small_rules::{eighth, short};
use break_rules::{Break, NoMemory, Rule};
use shift_instance::{Instance, Parts, TypeParts};
use std::alloc::Global;
use std::process::Abort;
use std::sync::Arc;
use std::test::Fail;

/// A type of shifts without breaks that start at slot 8 and have 4 slots.
fn type_of(alloc: Global, name: &str) -> Result<TypeParts, NoMemory> {
    Ok(TypeParts {
        name: String::from_str(alloc, name)?,
        start_min: 8,
        start_max: 8,
        len_min: 4,
        len_max: 4,
        rule: Rule::plain(alloc)?,
    })
}

/// A day of hours that needs one employee from 8 to 12, with these types.
fn morning(alloc: Global, types: Vec<TypeParts>) -> Result<Parts, NoMemory> {
    let mut need = vec![in alloc; 0u32; 24]?;
    need[8..12].fill(1);
    let need_max = need.clone()?;
    Ok(Parts {
        slot_minutes: 60,
        days: 1,
        need,
        need_max,
        max_heads: 1,
        excess: 1,
        shortage: 2,
        shift: 3,
        types,
    })
}

/// An instance of that day with these types.
fn morning_of(alloc: Global, types: Vec<TypeParts>) -> Result<Instance, Fail> {
    Ok(Instance::new(alloc, morning(alloc, types)?)?)
}

/// A shift of 8 slots from slot 8 on, with one break of a slot between work of 2 to 5 slots.
fn day_type(alloc: Global) -> Result<TypeParts, NoMemory> {
    let mut kind = type_of(alloc, "D")?;
    (kind.len_min, kind.len_max) = (7, 8);
    kind.rule = eighth(alloc)?;
    Ok(kind)
}

/// An instance of that day with the one type that has a break.
pub fn day_instance(alloc: Global) -> Result<Instance, Fail> {
    let types = vec![in alloc; day_type(alloc)?]?;
    morning_of(alloc, types)
}

/// How many nodes the graph of a shift has, where it is kept.
fn node_count(instance: &Instance, shift: u16) -> usize
    requires { shift < length (shift_list instance.now) }
{
    match instance.graph(shift) {
        Some(graph) => graph.node_count(),
        None => 100,
    }
}

/// A type of shifts without breaks, and one with a break.
fn plain_and_day(alloc: Global) -> Result<Vec<TypeParts>, NoMemory> {
    let mut types = Vec::new(alloc);
    types.push(type_of(alloc, "M")?)?;
    types.push(day_type(alloc)?)?;
    Ok(types)
}

// The shifts are one of 4 slots without breaks, one of 7 slots, for which the rule has no list, and one of 8 slots.
#[test]
fn graphs_are_kept(rt: HostRuntime) -> Result<(), Fail> {
    let alloc = rt.alloc();
    let instance = morning_of(alloc, plain_and_day(alloc)?)?;
    assert!(rt; instance.shifts().len() == 3);
    let first = node_count(&instance, 0);
    let second = node_count(&instance, 1);
    assert_eq!(rt; (first, second, node_count(&instance, 2)), (1, 0, 5));
    Ok(())
}

/// How many hold the graph of a shift: the instance for each type that has it, and whoever asks.
fn holders(instance: &Instance, shift: u16) -> Result<usize, NoMemory>
    requires { shift < length (shift_list instance.now) }
{
    match instance.shared_graph(shift)? {
        Some(graph) => Ok(Arc::strong_count(&graph)),
        None => Ok(0),
    }
}

/// A shift with a break as the day's, that starts a slot later.
fn late_type(alloc: Global) -> Result<TypeParts, NoMemory> {
    let mut late = day_type(alloc)?;
    late.name = String::from_str(alloc, "L")?;
    (late.start_min, late.start_max) = (9, 9);
    Ok(late)
}

/// Two types with one rule, and one without breaks.
fn day_late_and_plain(alloc: Global) -> Result<Vec<TypeParts>, NoMemory> {
    let mut types = Vec::new(alloc);
    types.push(day_type(alloc)?)?;
    types.push(late_type(alloc)?)?;
    types.push(type_of(alloc, "M")?)?;
    Ok(types)
}

/// How many hold the graphs of the first, the fourth and the last of five shifts.
fn holders_of_five(
    rt: &impl Abort,
    instance: &Instance,
) -> Result<(usize, usize, usize), NoMemory> {
    assert!(rt; instance.shifts().len() == 5);
    let day = holders(instance, 0)?;
    let late = holders(instance, 3)?;
    Ok((day, late, holders(instance, 4)?))
}

// The shifts are those of two types with one rule, of 7 and 8 slots each, and one of 4 slots without breaks.
#[test]
fn types_of_one_rule_share_graphs(rt: HostRuntime) -> Result<(), Fail> {
    let alloc = rt.alloc();
    let instance = morning_of(alloc, day_late_and_plain(alloc)?)?;
    assert_eq!(rt; holders_of_five(&rt, &instance)?, (3, 3, 2));
    Ok(())
}

/// Whether some legal list of the first of two shifts begins with no breaks, and of the second with none, with a short break,
/// and with one of two slots.
fn lives_of_two(
    rt: &impl Abort,
    alloc: Global,
    instance: &Instance,
) -> Result<[bool; 4], NoMemory> {
    assert!(rt; instance.shifts().len() == 2);
    let none = instance.is_live(alloc, 0, &[])?;
    let some = instance.is_live(alloc, 1, &[])?;
    let brief = instance.is_live(alloc, 1, &[short(3)])?;
    let long = instance.is_live(alloc, 1, &[Break { start: 3, len: 2 }])?;
    Ok([none, some, brief, long])
}

#[test]
fn live_breaks_are_told(rt: HostRuntime) -> Result<(), Fail> {
    let alloc = rt.alloc();
    let instance = day_instance(alloc)?;
    let lives = lives_of_two(&rt, alloc, &instance)?;
    assert_eq!(rt; lives, [false, true, true, false]);
    Ok(())
}
