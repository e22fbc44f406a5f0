//! Plans of a search on days whose best plan is plain to see.

use advice::Never;
use break_rules::NoMemory;
use fixtures::instance_of;
use plan_search::PlanSearch;
use rota_cost::Costed;
use shift_instance::{Instance, Rows};
use shift_tables::ShiftTables;
use std::alloc::Global;
use std::test::Fail;

/// Hour slots of one day. Two employees are needed from 8 to 16 o'clock, but one from 11 to 13. A shift begins from 6 to 10
/// o'clock, has 7 to 9 hours, with one break of an hour after 2 to 5 hours, and at most three duties. Excess costs 1, shortage 2 and a
/// shift 3. Two duties of 8 hours from 8 o'clock on, one with a break from 11 and one with a break from 12, are just what is needed:
/// the plan costs the one shift.
const DAY: &str =
    "{\"slot_minutes\":60,\"days\":1,\"need\":[0,0,0,0,0,0,0,0,2,2,2,1,1,2,2,2,0,0,0,0,0,0,0,0],\"max_heads\":3,\"weights\":{\"excess\":1,\"shortage\":2,\"shift\":3},\"types\":[{\"name\":\"M\",\"start_min\":6,\"start_max\":10,\"len_min\":7,\"len_max\":9,\"breaks\":{\"lead\":2,\"tail\":2,\"work_min\":2,\"work_max\":5,\"long_work\":5,\"long_rest\":1,\"size_min\":1,\"size_max\":1,\"totals\":[[7,1]],\"lunches\":[],\"resettle\":0}}]}";

/// The same with bands: two or three employees will do from 8 to 16 o'clock. Three duties of 8 hours from 8 o'clock on, whose breaks begin in
/// three different hours, are within every band: the plan costs the one shift. With two duties each break leaves one too few.
const BANDED: &str =
    "{\"slot_minutes\":60,\"days\":1,\"need\":[0,0,0,0,0,0,0,0,2,2,2,2,2,2,2,2,0,0,0,0,0,0,0,0],\"need_max\":[0,0,0,0,0,0,0,0,3,3,3,3,3,3,3,3,0,0,0,0,0,0,0,0],\"max_heads\":3,\"weights\":{\"excess\":1,\"shortage\":2,\"shift\":3},\"types\":[{\"name\":\"M\",\"start_min\":6,\"start_max\":10,\"len_min\":7,\"len_max\":9,\"breaks\":{\"lead\":2,\"tail\":2,\"work_min\":2,\"work_max\":5,\"long_work\":5,\"long_rest\":1,\"size_min\":1,\"size_max\":1,\"totals\":[[7,1]],\"lunches\":[],\"resettle\":0}}]}";

/// That day twice. The plan of the day on both days has still the one shift.
const TWO_DAYS: &str =
    "{\"slot_minutes\":60,\"days\":2,\"need\":[0,0,0,0,0,0,0,0,2,2,2,1,1,2,2,2,0,0,0,0,0,0,0,0,0,0,0,0,0,0,0,0,2,2,2,1,1,2,2,2,0,0,0,0,0,0,0,0],\"max_heads\":3,\"weights\":{\"excess\":1,\"shortage\":2,\"shift\":3},\"types\":[{\"name\":\"M\",\"start_min\":6,\"start_max\":10,\"len_min\":7,\"len_max\":9,\"breaks\":{\"lead\":2,\"tail\":2,\"work_min\":2,\"work_max\":5,\"long_work\":5,\"long_rest\":1,\"size_min\":1,\"size_max\":1,\"totals\":[[7,1]],\"lunches\":[],\"resettle\":0}}]}";

/// What a search came to: what its best plan costs by its own count and by the count of the judge, in how many rows, and the
/// work that it did.
#[derive(Clone, Copy)]
struct Outcome {
    told: f64,
    cost: u64,
    rows: usize,
    work: u64,
}

/// A search after some slices of work.
fn searched(
    alloc: Global,
    tables: &ShiftTables,
    seed: u64,
    slices: u32,
) -> Result<PlanSearch<Never>, NoMemory> {
    let mut search = PlanSearch::new(alloc, tables, seed, Never)?;
    for _ in 0..slices {
        search.run(tables, 20_000)?;
    }
    Ok(search)
}

/// The best plan of a search.
fn plan_of(search: &PlanSearch<Never>, instance: &Instance) -> Result<Costed, Fail> {
    Ok(search.best_plan(instance)?.ok_or("no plan")?)
}

/// What a search came to.
fn outcome_of(search: &PlanSearch<Never>, instance: &Instance) -> Result<Outcome, Fail> {
    let plan = plan_of(search, instance)?;
    Ok(Outcome {
        told: search.best_cost(),
        cost: plan.cost(),
        rows: plan.rows().as_slice().len(),
        work: search.work(),
    })
}

/// What a search with a seed comes to on a day in some slices of work.
fn reached(alloc: Global, day: &str, seed: u64, slices: u32) -> Result<Outcome, Fail> {
    let instance = instance_of(alloc, day)?;
    let tables = ShiftTables::new(alloc, &instance)?;
    let search = searched(alloc, &tables, seed, slices)?;
    outcome_of(&search, &instance)
}

/// The rows of the best plan that a search with a seed finds.
fn rows_found(
    alloc: Global,
    instance: &Instance,
    tables: &ShiftTables,
    seed: u64,
) -> Result<Rows, Fail> {
    let search = searched(alloc, tables, seed, 10)?;
    Ok(plan_of(&search, instance)?.into_rows())
}

/// A search that was offered a plan and did no work of its own.
fn offered(
    alloc: Global,
    instance: &Instance,
    tables: &ShiftTables,
    rows: &Rows,
) -> Result<Outcome, Fail> {
    let mut search = PlanSearch::new(alloc, tables, 2, Never)?;
    search.offer(tables, rows)?;
    outcome_of(&search, instance)
}

/// What a search on a day comes to that is offered what another one found.
fn outcome_offered(alloc: Global, day: &str) -> Result<Outcome, Fail> {
    let instance = instance_of(alloc, day)?;
    let tables = ShiftTables::new(alloc, &instance)?;
    let rows = rows_found(alloc, &instance, &tables, 1)?;
    offered(alloc, &instance, &tables, &rows)
}

#[test]
fn the_best_plan_is_found(rt: HostRuntime) -> Result<(), Fail> {
    let found = reached(rt.alloc(), DAY, 1, 10)?;
    assert_eq!(rt; found.cost, 3);
    assert!(rt; found.told == 3.0);
    assert_eq!(rt; found.rows, 2);
    Ok(())
}

// The second day has the duties of the first one, in two rows more.
#[test]
fn the_best_plan_of_two_days_is_found(rt: HostRuntime) -> Result<(), Fail> {
    let found = reached(rt.alloc(), TWO_DAYS, 1, 20)?;
    assert_eq!(rt; found.cost, 3);
    assert!(rt; found.told == 3.0);
    assert_eq!(rt; found.rows, 4);
    Ok(())
}

// Work goes on a little beyond each slice, and not for long.
#[test]
fn work_ends_soon_behind_the_slices(rt: HostRuntime) -> Result<(), Fail> {
    let found = reached(rt.alloc(), DAY, 3, 2)?;
    assert!(rt; 40_000 <= found.work);
    assert!(rt; found.work < 45_000);
    Ok(())
}

#[test]
fn the_best_plan_within_bands_is_found(rt: HostRuntime) -> Result<(), Fail> {
    let found = reached(rt.alloc(), BANDED, 1, 10)?;
    assert_eq!(rt; found.cost, 3);
    assert!(rt; found.told == 3.0);
    assert_eq!(rt; found.rows, 3);
    Ok(())
}

#[test]
fn an_offered_plan_within_bands_is_kept(rt: HostRuntime) -> Result<(), Fail> {
    let found = outcome_offered(rt.alloc(), BANDED)?;
    assert_eq!(rt; found.cost, 3);
    assert!(rt; found.told == 3.0);
    assert_eq!(rt; found.work, 0);
    Ok(())
}

#[test]
fn an_offered_plan_is_kept(rt: HostRuntime) -> Result<(), Fail> {
    let found = outcome_offered(rt.alloc(), DAY)?;
    assert_eq!(rt; found.cost, 3);
    assert!(rt; found.told == 3.0);
    assert_eq!(rt; found.work, 0);
    Ok(())
}
