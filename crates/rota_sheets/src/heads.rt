//! How many duties of a shift start on a day.
ghost use Rattle.std.specs.Prelude.{◌≡◌, ◌==◌, ◌<◌, ◌≤◌, IfOk, IsTrue, count_by, length};
ghost use Rattle.std.specs.List.{list_any};
ghost use Rattle.shift_instance.specs.Problem.{shift_list};
ghost use Rattle.shift_instance.specs.Rota.{are_legal_rows, duty_of, rota_of};
ghost use Rattle.plan_tables.specs.Tallies.{starts_on};
ghost use Rattle.rota_sheets.specs.Heads.{AreUsedShifts, starts_with, used_shifts};

use break_rules::NoMemory;
use plan_tables::day_slots;
use shift_instance::{Instance, Row, Rows, Shift};
use std::alloc::Global;

/// A shift that has a duty.
#[derive(Clone, Copy, PartialEq, Eq, Drop)]
pub struct UsedShift {
    /// Its number in the shift list.
    pub number: u16,
    /// The shift.
    pub shift: Shift,
}

/// Whether a shift, by its number, has a row.
fn has_row(rows: &[Row], shift: u16) -> bool
    ensures { result ≡ list_any (λ r. r.shift == shift) rows.now }
{
    rows.iter().any(|row| row.shift == shift)
}

/// The shifts with a duty, by their numbers.
fn used_by_number(
    alloc: Global,
    instance: &Instance,
    rows: &Rows,
) -> Result<Vec<UsedShift>, NoMemory>
    requires { IsTrue (are_legal_rows instance.now rows.now) }
    ensures { IfOk result (λ found. found.items ≡ used_shifts instance.now (rota_of rows.now)) }
{
    let shifts = instance.shifts().len() as u16;
    let mut found = Vec::new(alloc);
    for number in 0..shifts {
        if has_row(rows.as_slice(), number) {
            let shift = instance.shift(number);
            found.push(UsedShift { number, shift })?;
        }
    }
    Ok(found)
}

/// The shifts of a legal plan that have a duty, by their start, then by their length, then by their type.
pub fn used_shifts(
    alloc: Global,
    instance: &Instance,
    rows: &Rows,
) -> Result<Vec<UsedShift>, NoMemory>
    requires { IsTrue (are_legal_rows instance.now rows.now) }
    ensures { IfOk result (λ found. AreUsedShifts instance.now (rota_of rows.now) found.items) }
{
    let mut found = used_by_number(alloc, instance, rows)?;
    found.sort_by_key(|used| (used.shift.start, used.shift.len, used.shift.kind))?;
    Ok(found)
}

/// Whether the duties of a row start on a day, counted from 0.
fn row_starts_on(instance: &Instance, row: &Row, day: u8) -> bool
    requires { row.now.shift < length (shift_list instance.now) }
    ensures { result ≡ starts_on instance.now day (duty_of row.now) }
{
    instance.slot_of(row.shift, row.day, 0) / day_slots(instance) == usize::from(day)
}

/// Whether the duties of a row are of a shift, by its number, and start on a day, counted from 0.
fn row_starts_with(instance: &Instance, row: &Row, shift: u16, day: u8) -> bool
    requires { row.now.shift < length (shift_list instance.now) }
    ensures { result ≡ starts_with instance.now shift day (duty_of row.now) }
{
    row.shift == shift && row_starts_on(instance, row, day)
}

/// How many duties of a shift, by its number, start on a day, counted from 0, in a legal plan. It takes no memory.
pub fn heads_on(instance: &Instance, rows: &Rows, shift: u16, day: u8) -> u64
    requires { IsTrue (are_legal_rows instance.now rows.now) }
    ensures heads { result ≡ count_by (starts_with instance.now shift day) (rota_of rows.now) }
    ensures few { result ≤ 2000000 }
{
    let _valid = instance.slots();
    let mut heads = 0;
    for row in rows.as_slice() {
        if row_starts_with(instance, row, shift, day) {
            heads += u64::from(row.count);
        }
    }
    heads
}

/// How many duties start on a day, counted from 0, in a legal plan. It takes no memory.
pub fn duties_on(instance: &Instance, rows: &Rows, day: u8) -> u64
    requires { IsTrue (are_legal_rows instance.now rows.now) }
    ensures duties { result ≡ count_by (starts_on instance.now day) (rota_of rows.now) }
    ensures few { result ≤ 2000000 }
{
    let _valid = instance.slots();
    let mut duties = 0;
    for row in rows.as_slice() {
        if row_starts_on(instance, row, day) {
            duties += u64::from(row.count);
        }
    }
    duties
}
