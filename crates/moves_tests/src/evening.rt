//! Breaks of nights that are made even, worked out by hand.
use crate::drafts_of_days::BANDED_NIGHT;
use break_rules::NoMemory;
use descents::{even_out, unevenness};
use fixtures::{NIGHT, instance_of};
use greedy::greedy_plan;
use local_moves::Draft;
use shift_instance::{Instance, Rows};
use std::alloc::Global;
use std::test::Fail;

/// How many moves make the greedy plan of an instance even beside fixed rows, how uneven it is then, and what it costs.
fn evened(alloc: Global, instance: &Instance, fixed: &Rows) -> Result<(u16, u128, u64), NoMemory> {
    let mut draft = Draft::new(alloc, instance, greedy_plan(alloc, instance)?)?;
    let moves = even_out(instance, &mut draft, 9, fixed)?;
    Ok((moves, unevenness(instance, &draft), draft.cost()))
}

// In the greedy plan all three employees pause at once. Each move takes one of them out of that hour, at the same cost.
#[test]
fn breaks_are_made_even(rt: HostRuntime) -> Result<(), Fail> {
    let alloc = rt.alloc();
    let instance = instance_of(alloc, NIGHT)?;
    let none = Rows::new(Vec::new(alloc));
    assert_eq!(rt; evened(alloc, &instance, &none)?, (2, 3, 9));
    Ok(())
}

// The same plan, where its own rows are fixed: no duty is moved.
#[test]
fn fixed_rows_stay(rt: HostRuntime) -> Result<(), Fail> {
    let alloc = rt.alloc();
    let instance = instance_of(alloc, NIGHT)?;
    let fixed = greedy_plan(alloc, &instance)?;
    assert_eq!(rt; evened(alloc, &instance, &fixed)?, (0, 9, 9));
    Ok(())
}

/// What the greedy plan of an instance costs.
fn greedy_cost(alloc: Global, instance: &Instance) -> Result<u64, NoMemory> {
    let draft = Draft::new(alloc, instance, greedy_plan(alloc, instance)?)?;
    Ok(draft.cost())
}

// The third duty is free within the bands, and saves one of the two shortages in the hour in which the first two pause. One move then
// takes one of these out of that hour, and nobody is missed.
#[test]
fn breaks_are_made_even_within_bands(rt: HostRuntime) -> Result<(), Fail> {
    let alloc = rt.alloc();
    let instance = instance_of(alloc, BANDED_NIGHT)?;
    assert_eq!(rt; greedy_cost(alloc, &instance)?, 5);
    let none = Rows::new(Vec::new(alloc));
    assert_eq!(rt; evened(alloc, &instance, &none)?, (1, 0, 3));
    Ok(())
}
