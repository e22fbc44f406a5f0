//! Prices and plans that are advised of one instance, of each instance, and at prices that are fixed.
ghost use Rattle.std.specs.Prelude.{◌≡◌, ◌≤◌, ◌^◌, IfOk, length};

use advice::{Advice, Adviser, Ask};
use advisers::{Fixed, Greedy, GreedyPlan, Subgradient};
use break_rules::NoMemory;
use fixtures::{BUSY_MORNING, instance_of, morning_of, one_break};
use head_splits::{Class, Cut, Cuts, Hint, Side};
use shift_instance::{Instance, Rows};
use std::alloc::Global;
use std::test::Fail;

/// One cut: at least one duty of the shift whose breaks begin with that of the slot at offset 1, which no duty has.
fn unmet(alloc: Global) -> Result<Cuts, NoMemory>
    ensures { IfOk result (λ cuts. length cuts ≡ 1) }
{
    let class = Class {
        shift: 0,
        day: 0,
        prefix: one_break(alloc, 1)?,
    };
    let side = Side::AtLeast;
    Ok(Cuts::new(vec![in alloc; Cut { class, side, m: 1 }]?))
}

/// What is asked for the node of these cuts, where the best rota so far has no duty.
fn asked(alloc: Global, cuts: Cuts) -> Ask
    ensures { result.cuts ≡ cuts }
{
    Ask {
        cuts,
        floor: 0,
        best: 8,
        hint: Hint {
            prices: None,
            rows: Rows::new(Vec::new(alloc)),
        },
    }
}

/// What is advised at scale 10 for the node of these cuts.
fn advised(alloc: Global, instance: &Instance, cuts: Cuts) -> Result<Advice, NoMemory>
    requires { length cuts ≤ 2 ^ 33 }
{
    Subgradient::new(alloc, 10).advise(instance, &asked(alloc, cuts))
}

/// Of those prices that of the hour from 8 on, and that of the first cut, if there is one.
fn prices_at_ten(
    alloc: Global,
    instance: &Instance,
    cuts: Cuts,
) -> Result<(Option<i64>, Option<u64>), NoMemory>
    requires { length cuts ≤ 2 ^ 33 }
{
    let Advice { prices, .. } = advised(alloc, instance, cuts)?;
    Ok((
        prices.slots.as_slice().get(8).copied(),
        prices.cuts.as_slice().first().copied(),
    ))
}

// At the root the needed hours have the prices 20, 10, 5, 2, 4, 2, 3, 4, .. in the rounds, of the values 0, 0, 1, 1, 2; no value is
// above 2.
#[test]
fn prices_of_greatest_value_are_advised(rt: HostRuntime) -> Result<(), Fail> {
    let alloc = rt.alloc();
    let instance = morning_of(alloc, "2")?;
    let found = prices_at_ten(alloc, &instance, Cuts::new(Vec::new(alloc)))?;
    assert_eq!(rt; found, (Some(4), None));
    Ok(())
}

// The needed hours have 20, 10, 5 and the cut has 0, 10, 15; then the value is 3, the plan's cost.
#[test]
fn a_cut_that_no_duty_meets_has_a_price(rt: HostRuntime) -> Result<(), Fail> {
    let alloc = rt.alloc();
    let instance = morning_of(alloc, "2")?;
    let found = prices_at_ten(alloc, &instance, unmet(alloc)?)?;
    assert_eq!(rt; found, (Some(5), Some(15)));
    Ok(())
}

/// How many employees work the first row of the plan that an adviser advises at the root: none where it advises none.
fn planned(alloc: Global, adviser: &mut Greedy, instance: &Instance) -> Result<u16, NoMemory> {
    let ask = asked(alloc, Cuts::new(Vec::new(alloc)));
    let Advice { plan, .. } = adviser.advise(instance, &ask)?;
    match plan {
        Some(rows) => Ok(rows.as_slice().first().map_or(0, |row| row.count)),
        None => Ok(0),
    }
}

/// How many do so in the plans that an adviser advises for the day, and then for the busy one.
fn planned_twice(alloc: Global, adviser: &mut Greedy) -> Result<(u16, u16), Fail> {
    let day = morning_of(alloc, "2")?;
    let busy = instance_of(alloc, BUSY_MORNING)?;
    let first = planned(alloc, adviser, &day)?;
    Ok((first, planned(alloc, adviser, &busy)?))
}

// A duty less in the busy day costs more than it saves.
#[test]
fn an_adviser_of_every_instance_advises_the_plan_of_each(rt: HostRuntime) -> Result<(), Fail> {
    let alloc = rt.alloc();
    assert_eq!(rt; planned_twice(alloc, &mut Greedy::new(alloc))?, (1, 2));
    Ok(())
}

/// The adviser of the day.
fn adviser_of_morning(alloc: Global) -> Result<Greedy, Fail> {
    let instance = morning_of(alloc, "2")?;
    let plan = GreedyPlan::of(alloc, &instance)?;
    Ok(Greedy::of(alloc, plan.copy()?))
}

#[test]
fn the_adviser_of_an_instance_advises_its_plan(rt: HostRuntime) -> Result<(), Fail> {
    let alloc = rt.alloc();
    let mut adviser = adviser_of_morning(alloc)?;
    assert_eq!(rt; planned_twice(alloc, &mut adviser)?, (1, 1));
    assert_eq!(rt; planned_twice(alloc, &mut Greedy::of_first(alloc))?, (1, 1));
    Ok(())
}

/// How many prices a fixed adviser tells that was made with one.
fn fixed(alloc: Global, instance: &Instance) -> Result<usize, NoMemory> {
    let mut adviser = Fixed::new(alloc, 1, vec![in alloc; 7i64]?);
    let ask = asked(alloc, Cuts::new(Vec::new(alloc)));
    let Advice { prices, .. } = adviser.advise(instance, &ask)?;
    Ok(prices.slots.len())
}

#[test]
fn fixed_prices_are_told(rt: HostRuntime) -> Result<(), Fail> {
    let instance = morning_of(rt.alloc(), "2")?;
    assert_eq!(rt; fixed(rt.alloc(), &instance)?, 1);
    Ok(())
}
