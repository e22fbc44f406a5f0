//! Greedy plans that are broken off.
ghost use Rattle.std.specs.Prelude.{true};

use advice::{Never, Stop};
use fixtures::{BUSY_MORNING, instance_of};
use greedy::{greedy_plan, greedy_plan_until};
use rota_cost::cost_rows;
use shift_instance::{Instance, Rows};
use std::alloc::Global;
use std::sync::atomic::{AtomicU64, Ordering};
use std::test::Fail;

/// A stop that asks once it was looked at `patience` times.
#[derive(Drop)]
struct Countdown {
    looks: AtomicU64,
    patience: u64,
}

impl Stop for Countdown {
    ghost can_ask = { λ stop. true };

    fn is_asked(&self) -> bool {
        self.patience <= self.looks.fetch_add(1, Ordering::SeqCst)
    }
}

/// What rows cost, where they are legal.
fn cost_of(instance: &Instance, rows: Rows) -> Option<u64> {
    match cost_rows(instance, rows) {
        Ok(costed) => Some(costed.cost()),
        Err(_) => None,
    }
}

/// What the greedy plan of the day costs that is broken off after so many looks.
fn cost_after(alloc: Global, instance: &Instance, patience: u64) -> Result<Option<u64>, Fail> {
    let stop = Countdown {
        looks: AtomicU64::new(0),
        patience,
    };
    let rows = greedy_plan_until(alloc, instance, &stop)?;
    Ok(cost_of(instance, rows))
}

// The plan without duties costs 16. The first round looks at the shift, which gains 5, and again as its bound leads; the second one at
// once finds the gain of 8. The third look at a round's beginning finds that nothing gains.
#[test]
fn a_plan_that_is_broken_off_has_its_rounds_so_far(rt: HostRuntime) -> Result<(), Fail> {
    let alloc = rt.alloc();
    let instance = instance_of(alloc, BUSY_MORNING)?;
    assert_eq!(rt; cost_after(alloc, &instance, 0)?, Some(16));
    assert_eq!(rt; cost_after(alloc, &instance, 1)?, Some(16));
    assert_eq!(rt; cost_after(alloc, &instance, 2)?, Some(11));
    assert_eq!(rt; cost_after(alloc, &instance, 3)?, Some(3));
    Ok(())
}

#[test]
fn a_plan_that_no_stop_breaks_off_is_the_greedy_plan(rt: HostRuntime) -> Result<(), Fail> {
    let alloc = rt.alloc();
    let instance = instance_of(alloc, BUSY_MORNING)?;
    let whole = greedy_plan_until(alloc, &instance, &Never)?;
    assert_eq!(rt; cost_of(&instance, whole), Some(3));
    assert_eq!(rt; cost_of(&instance, greedy_plan(alloc, &instance)?), Some(3));
    Ok(())
}
