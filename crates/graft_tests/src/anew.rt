//! A duty with one break that is planned anew.
use advice::Never;
use break_plans::{Anew, planned_anew};
use break_search::Rebreaking;
use fixtures::{instance_of, one_break};
use rota_cost::cost_rows;
use shift_instance::{Instance, Row, Rows};
use std::alloc::{AllocError, Global};
use std::test::Fail;
use thorough_search::Thorough;

/// A day of hours that needs one employee from 8 to 14 but at noon, with one shift of these hours and one break of an hour, and at most one
/// duty. Excess costs 1, shortage 2 and the shift 3. The duty costs 3 with its break at noon, and 6 with it at any other hour.
const NOON: &str =
    "{\"slot_minutes\":60,\"days\":1,\"need\":[0,0,0,0,0,0,0,0,1,1,1,1,0,1,1,1,0,0,0,0,0,0,0,0],\"max_heads\":1,\"weights\":{\"excess\":1,\"shortage\":2,\"shift\":3},\"types\":[{\"name\":\"M\",\"start_min\":8,\"start_max\":8,\"len_min\":8,\"len_max\":8,\"breaks\":{\"lead\":2,\"tail\":2,\"work_min\":2,\"work_max\":5,\"long_work\":5,\"long_rest\":1,\"size_min\":1,\"size_max\":1,\"totals\":[[8,1]],\"resettle\":0}}]}";

/// The rows of one duty with a break at that hour of its shift.
fn one_duty(alloc: Global, start: u16) -> Result<Rows, AllocError> {
    let breaks = one_break(alloc, start)?;
    let row = Row {
        shift: 0,
        day: 0,
        count: 1,
        breaks,
    };
    Ok(Rows::new(vec![in alloc; row]?))
}

/// What comes of planning a duty's break anew that stands at an hour of its shift, by so many steps.
fn planned(alloc: Global, instance: &Instance, start: u16, steps: u16) -> Result<Anew, Fail> {
    let rows = one_duty(alloc, start)?;
    let Ok(plan) = cost_rows(instance, rows) else {
        return Err(Fail::from("rows that aren't legal"));
    };
    let prices = Thorough::for_prices(alloc, Never);
    let mut adviser = Rebreaking::new(alloc, instance, plan.rows(), 1, prices, Never)?;
    let steps = u64::from(steps);
    Ok(planned_anew(alloc, instance, plan.rows(), steps, &mut adviser, &Never)?)
}

/// The hour of the only break of the cheaper rows, where there are such.
fn hour_of(anew: &Anew) -> Option<u16> {
    let row = anew.cheaper.as_ref()?.as_slice().first()?;
    let only = row.breaks.as_slice().first()?;
    Some(only.start)
}

/// The hour of the break that is found, what it costs, the floor, and the number of steps, of a duty's break at an hour of its shift.
fn numbers(alloc: Global, start: u16, steps: u16) -> Result<(Option<u16>, u64, u64, u64), Fail> {
    let instance = instance_of(alloc, NOON)?;
    let anew = planned(alloc, &instance, start, steps)?;
    Ok((hour_of(&anew), anew.cost, anew.floor, anew.steps))
}

// At noon the break costs nothing: nobody is wanted then. Prices show in the first step that no break costs less.
#[test]
fn a_break_moves_to_noon(rt: HostRuntime) -> Result<(), Fail> {
    assert!(rt; numbers(rt.alloc(), 2, 10)? == (Some(4), 3, 3, 1));
    Ok(())
}

// At noon the break stays.
#[test]
fn the_best_break_stays(rt: HostRuntime) -> Result<(), Fail> {
    assert!(rt; numbers(rt.alloc(), 4, 10)? == (None, 3, 3, 1));
    Ok(())
}

// Without a step nothing is known.
#[test]
fn no_step_finds_nothing(rt: HostRuntime) -> Result<(), Fail> {
    assert!(rt; numbers(rt.alloc(), 2, 0)? == (None, 6, 0, 0));
    Ok(())
}
