//! The slots in which some legal duty works.
ghost use Rattle.std.specs.Prelude.{◌≡◌, ◌+◌, ◌^◌, ◌<◌, ◌≤◌, [], ◌∷◌, ◌++◌, false, length, IfOk, OnOk, MatchOption, cond, if◌then◌else◌};
ghost use Rattle.shift_instance.specs.Problem.{slots, shift_list};
ghost use Rattle.instance_warnings.specs.Reached.{unit_prices, is_reached, is_missed, IsReaching, AreLegal, AvoidsOn, AvoidsShift, Avoids, unreached};

use break_rules::NoMemory;
use pricing::best_pattern;
use rota_cost::Cover;
use shift_instance::{Duty, Instance};
use std::alloc::Global;

/// Prices of 1 for a slot and of 0 for all others.
fn unit_prices(alloc: Global, instance: &Instance, t: usize) -> Result<Vec<i64>, NoMemory>
    requires { t < slots instance.now }
    ensures { IfOk result (λ prices. prices.items ≡ unit_prices instance.now t) }
{
    let mut prices = vec![in alloc; 0; instance.slots()]?;
    prices[t] = 1;
    Ok(prices)
}

/// Whether a slot lies between the start of a shift on a day and its end. In any other slot none of its duties works.
fn lies_within(instance: &Instance, shift: u16, day: u8, t: usize) -> bool
    requires { shift < length (shift_list instance.now) }
    ensures { result ≡ false → AvoidsOn instance.now t shift day }
{
    let len = instance.shift(shift).len;
    for offset in 0..len {
        if instance.slot_of(shift, day, offset) == t {
            return true;
        }
    }
    false
}

/// A legal duty of a shift on a day that works in a slot, if there is one. Lists are priced only where the slot lies within the shift.
fn duty_on(
    alloc: Global,
    instance: &Instance,
    prices: &[i64],
    shift: u16,
    day: u8,
    t: usize,
) -> Result<Option<Duty>, NoMemory>
    requires slot { t < slots instance.now }
    requires prices { prices.now ≡ unit_prices instance.now t }
    requires shift { shift < length (shift_list instance.now) }
    requires day { day < instance.now.days }
    ensures { IfOk result (λ found. MatchOption found (AvoidsOn instance.now t shift day) (IsReaching instance.now t)) }
{
    if !lies_within(instance, shift, day, t) {
        return Ok(None);
    }
    let best = best_pattern(alloc, instance, shift, day, prices, &[])?;
    let Some((pattern, value)) = best else {
        return Ok(None);
    };
    if value <= 0 {
        return Ok(None);
    }
    Ok(Some(Duty {
        shift,
        day,
        breaks: pattern.list,
    }))
}

/// A legal duty of a shift that works in a slot, if there is one.
fn duty_of_shift(
    alloc: Global,
    instance: &Instance,
    prices: &[i64],
    shift: u16,
    t: usize,
) -> Result<Option<Duty>, NoMemory>
    requires slot { t < slots instance.now }
    requires prices { prices.now ≡ unit_prices instance.now t }
    requires shift { shift < length (shift_list instance.now) }
    ensures { IfOk result (λ found. MatchOption found (AvoidsShift instance.now t shift) (IsReaching instance.now t)) }
{
    for day in 0..instance.days() {
        if let Some(duty) = duty_on(alloc, instance, prices, shift, day, t)? {
            return Ok(Some(duty));
        }
    }
    Ok(None)
}

/// A legal duty that works in a slot, if there is one.
fn duty_in(alloc: Global, instance: &Instance, t: usize) -> Result<Option<Duty>, NoMemory>
    requires { t < slots instance.now }
    ensures { IfOk result (λ found. MatchOption found (Avoids instance.now t) (IsReaching instance.now t)) }
{
    let prices = unit_prices(alloc, instance, t)?;
    let shifts = instance.shifts().len() as u16;
    for shift in 0..shifts {
        if let Some(duty) = duty_of_shift(alloc, instance, &prices, shift, t)? {
            return Ok(Some(duty));
        }
    }
    Ok(None)
}

/// Finds a legal duty that works in a slot and adds it to a cover, or adds the slot to a list where there is none.
fn reach(
    alloc: Global,
    instance: &Instance,
    t: u16,
    cover: &mut Cover,
    list: &mut Vec<u16>,
) -> Result<(), NoMemory>
    requires slot { t < slots instance.now }
    requires instance { cover.old.instance ≡ instance.now }
    requires room { length cover.old.duties < 2 ^ 31 }
    ensures instance { cover.new.instance ≡ cover.old.instance }
    ensures few { length cover.new.duties ≤ length cover.old.duties + 1 }
    ensures legal { AreLegal instance.now cover.old.duties → AreLegal instance.now cover.new.duties }
    ensures list { OnOk result (list.new.items ≡ list.old.items ++ (if is_reached instance.now t then [] else t ∷ [])) }
{
    match duty_in(alloc, instance, usize::from(t))? {
        Some(duty) => cover.add(instance, &duty),
        None => list.push(t)?,
    }
    Ok(())
}

/// Adds a slot to a list where it has a need and no legal duty works in it. A cover of duties that were found for other
/// slots tells at once of some slots that one does; else a duty that is found for the slot is added to the cover.
fn consider(
    alloc: Global,
    instance: &Instance,
    t: u16,
    cover: &mut Cover,
    list: &mut Vec<u16>,
) -> Result<(), NoMemory>
    requires slot { t < slots instance.now }
    requires instance { cover.old.instance ≡ instance.now }
    requires room { length cover.old.duties < 2 ^ 31 }
    ensures instance { cover.new.instance ≡ cover.old.instance }
    ensures few { length cover.new.duties ≤ length cover.old.duties + 1 }
    ensures legal { AreLegal instance.now cover.old.duties → AreLegal instance.now cover.new.duties }
    ensures list { AreLegal instance.now cover.old.duties → OnOk result (list.new.items ≡ list.old.items ++ cond (is_missed instance.now t) (t ∷ []) []) }
{
    let at = usize::from(t);
    if instance.need(at) == 0 {
        return Ok(());
    }
    if cover.working(at) != 0 {
        return Ok(());
    }
    reach(alloc, instance, t, cover, list)
}

/// The slots with a need in which no legal duty works, in rising order. A duty that is found for a slot stands for all
/// slots where it works.
pub(crate) fn unreached(alloc: Global, instance: &Instance) -> Result<Vec<u16>, NoMemory>
    ensures { IfOk result (λ list. list.items ≡ unreached instance.now) }
{
    let mut list = Vec::new(alloc);
    let mut cover = Cover::new(alloc, instance)?;
    let slots = instance.slots() as u16;
    for t in 0..slots {
        consider(alloc, instance, t, &mut cover, &mut list)?;
    }
    Ok(list)
}
