//! The solution that prices choose.
ghost use Rattle.std.specs.Prelude.{◌≡◌, ◌<◌, ◌≤◌, ◌^◌, ◌*◌, ◌||◌, ◌++◌, nat_lt, int_lt, IfOk, OnOk, All, length, pos, ◌*ℤ◌};
ghost use Rattle.std.specs.Int.{int_max};
ghost use Rattle.std.specs.Int.RustNames.{unsigned_abs};
ghost use Rattle.std.specs.List.{flat_map};
ghost use Rattle.std.specs.Option.{option_to_list};
ghost use Rattle.shift_instance.specs.Problem.{below, shift_list};
ghost use Rattle.shift_instance.specs.Rota.{rota_of};
ghost use Rattle.shift_instance.specs.Valid.{IsValid};
ghost use Rattle.head_splits.specs.Bound.{best_value};
ghost use Rattle.advisers.specs.Chosen.{AreRows, IsFor};
ghost use Rattle.advisers.specs.Solutions.{duties_of, duties_on, is_chosen, number_of, solution};

use break_rules::{Breaks, NoMemory};
use dual_bound::Pricer;
use head_splits::{Cuts, whole_range};
use shift_instance::{Instance, Row};
use std::alloc::Global;

/// How many duties of a value a used shift has on a day.
fn number_of(value: i128, least: u16, most: u16) -> u16
    ensures { result ≡ number_of value least most }
{
    if 0 < value { most } else { least }
}

/// The most that duties of one value are worth, where there may be none.
fn free_value(value: i128, most: u16) -> i128
    requires { unsigned_abs value ≤ 2 ^ 74 }
    ensures value { result ≡ int_max (pos 0) (value *ℤ pos most) }
    ensures small { unsigned_abs result ≤ 2 ^ 90 }
{
    (value * i128::from(most)).max(0)
}

/// Whether some day needs a duty, by the least number of duties of one more day.
fn needs_duty(is_forced: bool, least: u16) -> bool
    ensures { result ≡ (is_forced || nat_lt 0 least) }
{
    is_forced || 0 < least
}

/// Whether a shift is used: some day needs a duty of it, or its duties are worth more than what is paid for it.
fn is_chosen(is_forced: bool, paid: u64, free: i128) -> bool
    ensures { result ≡ (is_forced || int_lt (pos paid) free) }
{
    is_forced || i128::from(paid) < free
}

/// The greatest reduced value of a duty of a shift on a day, and 0 where no break list is legal.
fn value_on(pricer: &Pricer, shift: u16, day: u8) -> i128
    requires shift { shift < length (shift_list pricer.now.instance) }
    requires day { day < pricer.now.instance.days }
    ensures value { result ≡ best_value pricer.now.instance pricer.now.cuts pricer.now.prices shift day }
    ensures small { unsigned_abs result ≤ 2 ^ 74 }
{
    match pricer.best(shift, day) {
        Some((_, value)) => value,
        None => 0,
    }
}

/// Whether a shift is used, by the greatest reduced values of its duties, day by day.
fn is_used(instance: &Instance, cuts: &Cuts, pricer: &Pricer, shift: u16) -> bool
    requires shift { shift < length (shift_list instance.now) }
    requires pricer { IsFor pricer.now instance.now cuts.now }
    ensures { result ≡ is_chosen instance.now cuts.now pricer.now.prices shift }
{
    let (_, _, cost) = instance.weights();
    let mut is_forced = false;
    let mut free = 0;
    for day in 0..instance.days() {
        let value = value_on(pricer, shift, day);
        let (least, most) = whole_range(instance, cuts, shift, day);
        is_forced = needs_duty(is_forced, least);
        free += free_value(value, most);
    }
    let paid = u64::from(pricer.prices().q) * u64::from(cost);
    is_chosen(is_forced, paid, free)
}

/// The row of the duties that a used shift has on a day, and `None` where it has none.
fn day_row(
    alloc: Global,
    instance: &Instance,
    cuts: &Cuts,
    pricer: &Pricer,
    shift: u16,
    day: u8,
) -> Result<Option<Row>, NoMemory>
    requires shift { shift < length (shift_list instance.now) }
    requires day { day < instance.now.days }
    requires pricer { IsFor pricer.now instance.now cuts.now }
    ensures duties { IfOk result (λ row. rota_of (option_to_list row) ≡ duties_on instance.now cuts.now pricer.now.prices shift day) }
    ensures known { IfOk result (λ row. All (λ r. r.shift < length (shift_list instance.now)) (option_to_list row)) }
{
    let Some((list, value)) = pricer.best(shift, day) else {
        return Ok(None);
    };
    let (least, most) = whole_range(instance, cuts, shift, day);
    let count = number_of(value, least, most);
    if count == 0 {
        return Ok(None);
    }
    let breaks = Breaks::new(Vec::from_slice(alloc, list)?);
    Ok(Some(Row {
        shift,
        day,
        breaks,
        count,
    }))
}

/// Adds a row behind others, if there is one.
fn add_row(rows: &mut Vec<Row>, row: Option<Row>) -> Result<(), NoMemory>
    ensures { OnOk result (rows.new.items ≡ rows.old.items ++ option_to_list row) }
{
    match row {
        Some(row) => rows.push(row)?,
        None => {}
    }
    Ok(())
}

/// The rows of the duties of a used shift, one for each day that has any.
fn used_rows(
    alloc: Global,
    instance: &Instance,
    cuts: &Cuts,
    pricer: &Pricer,
    shift: u16,
) -> Result<Vec<Row>, NoMemory>
    requires shift { shift < length (shift_list instance.now) }
    requires pricer { IsFor pricer.now instance.now cuts.now }
    ensures duties { IfOk result (λ rows. rota_of rows.items ≡ flat_map (duties_on instance.now cuts.now pricer.now.prices shift) (below instance.now.days)) }
    ensures known { IfOk result (λ rows. All (λ r. r.shift < length (shift_list instance.now)) rows.items) }
    ensures few { IfOk result (λ rows. length rows.items ≤ 7) }
{
    let mut rows = Vec::new(alloc);
    for day in 0..instance.days() {
        let row = day_row(alloc, instance, cuts, pricer, shift, day)?;
        add_row(&mut rows, row)?;
    }
    Ok(rows)
}

/// The rows of the duties that the solution has of a shift, one for each day that has any.
fn shift_rows(
    alloc: Global,
    instance: &Instance,
    cuts: &Cuts,
    pricer: &Pricer,
    shift: u16,
) -> Result<Vec<Row>, NoMemory>
    requires shift { shift < length (shift_list instance.now) }
    requires pricer { IsFor pricer.now instance.now cuts.now }
    ensures duties { IfOk result (λ rows. rota_of rows.items ≡ duties_of instance.now cuts.now pricer.now.prices shift) }
    ensures known { IfOk result (λ rows. All (λ r. r.shift < length (shift_list instance.now)) rows.items) }
    ensures few { IfOk result (λ rows. length rows.items ≤ 7) }
{
    if is_used(instance, cuts, pricer, shift) {
        used_rows(alloc, instance, cuts, pricer, shift)
    } else {
        Ok(Vec::new(alloc))
    }
}

/// Adds rows behind others.
fn add_rows(rows: &mut Vec<Row>, more: Vec<Row>) -> Result<(), NoMemory>
    ensures { OnOk result (rows.new.items ≡ rows.old.items ++ more.items) }
{
    for row in more {
        rows.push(row)?;
    }
    Ok(())
}

/// The rows of the duties of the solution that a pricer's prices choose, one for each shift and day that has any.
pub(crate) fn solution(
    alloc: Global,
    instance: &Instance,
    cuts: &Cuts,
    pricer: &Pricer,
) -> Result<Vec<Row>, NoMemory>
    requires pricer { IsFor pricer.now instance.now cuts.now }
    ensures duties { IfOk result (λ rows. rota_of rows.items ≡ solution instance.now cuts.now pricer.now.prices) }
    ensures rows { IfOk result (λ rows. AreRows instance.now rows.items) }
    ensures valid { IfOk result (λ _. IsValid instance.now) }
{
    let shifts = instance.shifts().len() as u16;
    let mut rows = Vec::new(alloc);
    for shift in 0..shifts {
        let more = shift_rows(alloc, instance, cuts, pricer, shift)?;
        add_rows(&mut rows, more)?;
    }
    Ok(rows)
}
