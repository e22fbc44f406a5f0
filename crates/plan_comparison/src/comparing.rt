//! Duties that two plans have in common, and those that one of them has alone.
ghost use Rattle.std.specs.Prelude.{◌≡◌, ◌<◌, ◌≤◌, ◌*◌, ◌^◌, IfOk, length, map, min};
ghost use Rattle.shift_instance.specs.Problem.{below};
ghost use Rattle.shift_instance.specs.Rota.{duty_of, same_duty};
ghost use Rattle.plan_comparison.specs.Changes.{changes, day_changes, duties_on, kept_duties, kept_on, times_in};

use break_rules::NoMemory;
use carried_rows::carried_rows;
use shift_instance::{Instance, Row, Rows};
use std::alloc::Global;

/// What became of the duties of one day.
#[derive(Clone, Copy, Debug, PartialEq, Eq, Drop)]
pub struct DayChanges {
    /// How many duties of the old plan stand in the new one.
    pub kept: u128,
    /// How many duties of the old plan don't stand in the new one.
    pub gone: u128,
    /// How many duties of the new plan didn't stand in the old one.
    pub new: u128,
}

/// Whether the duties of two rows are the same.
fn is_same_duty(a: &Row, b: &Row) -> bool
    ensures { result ≡ same_duty (duty_of a.now) (duty_of b.now) }
{
    a.shift == b.shift && a.day == b.day && a.breaks.is_same(&b.breaks)
}

/// How often rows have the duty of a row.
fn times_in(rows: &Rows, row: &Row) -> u128
    ensures times { result ≡ times_in rows.now row.now }
    ensures few { result ≤ 65535 * length rows.now }
{
    let mut times = 0u128;
    for other in rows.as_slice() {
        if is_same_duty(other, row) {
            times += u128::from(other.count);
        }
    }
    times
}

/// How many duties of a row other rows have too.
fn shared(others: &Rows, row: &Row) -> u128
    ensures shared { result ≡ min row.now.count (times_in others.now row.now) }
    ensures few { result ≤ 65535 }
{
    u128::from(row.count).min(times_in(others, row))
}

/// How many duties rows have on a day. It takes no memory.
pub fn duties_on(rows: &Rows, day: u8) -> u128
    ensures duties { result ≡ duties_on rows.now day }
    ensures few { result ≤ 65535 * length rows.now }
{
    let mut duties = 0u128;
    for row in rows.as_slice() {
        if row.day == day {
            duties += u128::from(row.count);
        }
    }
    duties
}

/// How many duties of rows on a day other rows have too. It takes no memory.
pub fn kept_on(others: &Rows, rows: &Rows, day: u8) -> u128
    ensures kept { result ≡ kept_on others.now rows.now day }
    ensures few { result ≤ 65535 * length rows.now }
{
    let mut kept = 0u128;
    for row in rows.as_slice() {
        if row.day == day {
            kept += shared(others, row);
        }
    }
    kept
}

/// How many duties of rows other rows have too. It takes no memory.
pub fn kept_duties(others: &Rows, rows: &Rows) -> u128
    ensures kept { result ≡ kept_duties others.now rows.now }
    ensures few { result ≤ 65535 * length rows.now }
    ensures small { result < 2 ^ 80 }
{
    let mut kept = 0u128;
    for row in rows.as_slice() {
        kept += shared(others, row);
    }
    kept
}

/// What became of the duties of a day, where `carried` are the rows of the old plan that stand in a plan of the new instance.
fn day_changes(carried: &Rows, before: &Rows, after: &Rows, day: u8) -> DayChanges
    ensures { result ≡ day_changes carried.now before.now after.now day }
{
    let kept = kept_on(carried, after, day);
    DayChanges {
        kept,
        gone: duties_on(before, day).saturating_sub(kept),
        new: duties_on(after, day).saturating_sub(kept),
    }
}

/// The same of each of the first days.
fn changes_by_day(
    alloc: Global,
    carried: &Rows,
    before: &Rows,
    after: &Rows,
    days: u8,
) -> Result<Vec<DayChanges>, NoMemory>
    ensures { IfOk result (λ list. list.items ≡ map (day_changes carried.now before.now after.now) (below days)) }
{
    let mut list = Vec::new(alloc);
    for day in 0..days {
        list.push(day_changes(carried, before, after, day))?;
    }
    Ok(list)
}

/// What became of the duties of a plan of the old instance in a plan of the new one, for each day that one of the instances has, from the
/// first. A duty of the new plan was kept where the row of a duty of the old plan is carried to it.
pub fn changes(
    alloc: Global,
    old: &Instance,
    new: &Instance,
    before: &Rows,
    after: &Rows,
) -> Result<Vec<DayChanges>, NoMemory>
    ensures { IfOk result (λ list. list.items ≡ changes old.now new.now before.now after.now) }
{
    let carried = carried_rows(alloc, old, new, before)?;
    let days = old.days().max(new.days());
    changes_by_day(alloc, &carried, before, after, days)
}
