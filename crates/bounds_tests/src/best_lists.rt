//! The best list of the day, sums of its prices, and tables that follow them.
ghost use Rattle.std.specs.Prelude.{◌≡◌, ◌<◌, length};
ghost use Rattle.shift_instance.specs.Problem.{shift_list, slots};

use crate::priced_day::day;
use break_rules::NoMemory;
use fixtures::one_break;
use price_sums::{DaySums, lane_at};
use pricing::{Steps, Tables, best_pattern};
use shift_instance::Instance;
use std::alloc::Global;
use std::marker::Brand;
use std::sync::ledger::{Blank, Ledger};
use std::test::Fail;

/// What the best list is worth where each hour is worth 2, and a break from 10 on 3 more.
fn best_worth(alloc: Global, instance: &Instance) -> Result<i128, NoMemory>
    requires shifts { length (shift_list instance.now) ≡ 1 }
    requires slots { slots instance.now ≡ 24 }
{
    let bonus = vec![in alloc; (one_break(alloc, 2)?, 3i64)]?;
    match best_pattern(alloc, instance, 0, 0, &[2i64; 24], &bonus)? {
        Some((_, worth)) => Ok(worth),
        None => Ok(0),
    }
}

#[test]
fn the_best_break_is_found(rt: HostRuntime) -> Result<(), Fail> {
    let instance = day(rt.alloc())?;
    assert_eq!(rt; best_worth(rt.alloc(), &instance)?, 3 * 2 + 3);
    Ok(())
}

/// What the hours of the shift are worth, where each hour is worth 2.
fn worth(alloc: Global, instance: &Instance) -> Result<i64, NoMemory>
    requires shifts { length (shift_list instance.now) ≡ 1 }
    requires slots { slots instance.now ≡ 24 }
{
    let sums = DaySums::new(alloc, instance, &[2i64; 24])?;
    let lanes = sums.along(instance, 0);
    Ok(lane_at(lanes, 4)[0].wrapping_sub(lane_at(lanes, 0)[0]))
}

#[test]
fn prices_are_summed(rt: HostRuntime) -> Result<(), Fail> {
    let instance = day(rt.alloc())?;
    assert_eq!(rt; worth(rt.alloc(), &instance)?, 8);
    Ok(())
}

/// What the best list of tables is worth.
fn kept_worth(tables: &Tables) -> i128 {
    match tables.best() {
        Some((_, worth)) => worth,
        None => 0,
    }
}

/// Whether tables have the best list where each hour is worth 2, and then where that from 9 on is worth 5.
fn follow_prices<L: Ledger>(
    alloc: Global,
    instance: &Instance,
    steps: &mut Steps<L>,
) -> Result<bool, NoMemory>
    requires shifts { length (shift_list instance.now) ≡ 1 }
    requires slots { slots instance.now ≡ 24 }
{
    let mut tables = Tables::new(alloc, instance, 0, 0, &[2i64; 24], &[], steps)?;
    let first = kept_worth(&tables);
    tables.reprice(instance, &[(9, 5i64)], steps)?;
    Ok(first == 6 && kept_worth(&tables) == 9)
}

/// The same, with steps that nobody reads.
fn are_followed<L: Ledger>(
    alloc: Global,
    instance: &Instance,
    blank: Blank,
) -> Result<bool, NoMemory>
    requires name { blank.name ≡ L.name }
    requires parts { blank.parts ≡ L.parts }
    requires some { 0 < L.parts }
    requires shifts { length (shift_list instance.now) ≡ 1 }
    requires slots { slots instance.now ≡ 24 }
{
    follow_prices(alloc, instance, &mut Steps::<L>::new(blank))
}

#[test]
fn tables_follow_the_prices(rt: HostRuntime) -> Result<(), Fail> {
    let instance = day(rt.alloc())?;
    assert!(rt; are_followed::<Brand>(rt.alloc(), &instance, Blank::new(1))?);
    Ok(())
}
