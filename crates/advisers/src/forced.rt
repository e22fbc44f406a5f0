//! The duties that cuts force, and the prices of slots for them.
ghost use Rattle.std.specs.Prelude.{◌≡◌, ◌<◌, ◌≤◌, ◌++◌, ◌+◌, ◌^◌, IfOk, OnOk, Some, length, slice_get};
ghost use Rattle.shift_instance.specs.Problem.{shift_list, slots};
ghost use Rattle.shift_instance.specs.Rota.{cover, lists_of};
ghost use Rattle.greedy.specs.Greedy.{duty};
ghost use Rattle.advisers.specs.Forced.{balance_price, forced_on, forced_of, forced_prices, forced_rota};

use break_rules::{Breaks, NoMemory, least};
use head_splits::{Cuts, whole_range};
use rota_cost::Cover;
use shift_instance::{Duty, Instance};
use std::alloc::Global;

/// The least legal list of a shift, along its kept graph where there is one, and `None` where no list is legal.
fn least_of(alloc: Global, instance: &Instance, shift: u16) -> Result<Option<Breaks>, NoMemory>
    requires { shift < length (shift_list instance.now) }
    ensures { IfOk result (λ found. found ≡ slice_get (lists_of instance.now shift) 0) }
{
    match instance.graph(shift) {
        Some(kept) => kept.least(alloc),
        None => least(alloc, instance.rule_of(shift), instance.shift(shift).len),
    }
}

/// Adds the forced duties of a shift on a day.
fn add_day(
    alloc: Global,
    instance: &Instance,
    cuts: &Cuts,
    cover: &mut Cover,
    shift: u16,
    day: u8,
) -> Result<(), NoMemory>
    requires instance { cover.old.instance ≡ instance.now }
    requires shift { shift < length (shift_list instance.now) }
    requires day { day < instance.now.days }
    requires room { length cover.old.duties + 2 ^ 16 ≤ 2 ^ 31 }
    ensures instance { cover.new.instance ≡ cover.old.instance }
    ensures duties { OnOk result (cover.new.duties ≡ cover.old.duties ++ forced_on instance.now cuts.now shift day) }
    ensures few { length cover.new.duties ≤ length cover.old.duties + 2 ^ 16 }
{
    let (often, _) = whole_range(instance, cuts, shift, day);
    if often == 0 {
        return Ok(());
    }
    if let Some(breaks) = least_of(alloc, instance, shift)? {
        let duty = Duty { shift, day, breaks };
        cover.add_often(instance, &duty, often);
    }
    Ok(())
}

/// Adds the forced duties of a shift.
fn add_days(
    alloc: Global,
    instance: &Instance,
    cuts: &Cuts,
    cover: &mut Cover,
    shift: u16,
) -> Result<(), NoMemory>
    requires instance { cover.old.instance ≡ instance.now }
    requires shift { shift < length (shift_list instance.now) }
    requires room { length cover.old.duties + 2 ^ 19 ≤ 2 ^ 31 }
    ensures instance { cover.new.instance ≡ cover.old.instance }
    ensures duties { OnOk result (cover.new.duties ≡ cover.old.duties ++ forced_of instance.now cuts.now shift) }
    ensures few { length cover.new.duties ≤ length cover.old.duties + 2 ^ 19 }
{
    for day in 0..instance.days() {
        add_day(alloc, instance, cuts, cover, shift, day)?;
    }
    Ok(())
}

/// The cover of the forced duties.
fn forced_cover(alloc: Global, instance: &Instance, cuts: &Cuts) -> Result<Cover, NoMemory>
    ensures instance { IfOk result (λ c. c.instance ≡ instance.now) }
    ensures duties { IfOk result (λ c. c.duties ≡ forced_rota instance.now cuts.now) }
{
    let mut cover = Cover::new(alloc, instance)?;
    for shift in 0..instance.shifts().len() as u16 {
        add_days(alloc, instance, cuts, &mut cover, shift)?;
    }
    Ok(cover)
}

/// The price of a slot where that many duties work.
fn balance_price(instance: &Instance, t: usize, working: u32) -> i64
    requires { t < slots instance.now }
    ensures { result ≡ balance_price instance.now t working }
{
    let (excess, shortage, _) = instance.weights();
    if working < instance.need(t) {
        i64::from(shortage)
    } else if instance.need_max(t) < working {
        -i64::from(excess)
    } else {
        0
    }
}

/// The prices of all slots, where the forced duties work.
pub(crate) fn forced_prices(
    alloc: Global,
    instance: &Instance,
    cuts: &Cuts,
) -> Result<Vec<i64>, NoMemory>
    ensures { IfOk result (λ prices. prices.items ≡ forced_prices instance.now cuts.now) }
{
    let cover = forced_cover(alloc, instance, cuts)?;
    let mut prices = Vec::new(alloc);
    for t in 0..instance.slots() {
        prices.push(balance_price(instance, t, cover.working(t)))?;
    }
    Ok(prices)
}
