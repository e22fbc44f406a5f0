//! What is added up over the slots and the rows of a plan.
ghost use Rattle.std.specs.Prelude.{◌≡◌, ◌==◌, ◌+◌, ◌*◌, ◌/◌, ◌^◌, ◌<◌, ◌≤◌, IsTrue, count_by, length};
ghost use Rattle.std.specs.List.{list_any, range_with_len};
ghost use Rattle.shift_instance.specs.Problem.{day_slots, shift_list, slots};
ghost use Rattle.shift_instance.specs.Rota.{are_legal_rows, rota_of, shifts_used};
ghost use Rattle.plan_tables.specs.Tallies.{first_slot, starts_on, totals_in};

use crate::Attendance;
use shift_instance::{Instance, Row, Rows};

/// Employees added up over slots: one employee in one slot counts 1.
#[derive(Clone, Copy, PartialEq, Eq, Drop)]
pub struct Totals {
    /// The least wanted employees.
    pub wanted: u64,
    /// The most wanted employees.
    pub wanted_max: u64,
    /// The employees that work.
    pub worked: u64,
    /// The employees that work above the bands.
    pub over: u64,
    /// The employees that lack to the needs.
    pub under: u64,
}

/// The totals of so many slots from a first one on.
pub(crate) fn totals_in(
    instance: &Instance,
    attendance: &Attendance,
    first: usize,
    count: usize,
) -> Totals
    requires instance { attendance.now.instance ≡ instance.now }
    requires within { first + count ≤ slots instance.now }
    ensures totals { result ≡ totals_in instance.now attendance.now.duties (range_with_len first count) }
    ensures few_over { result.over ≤ count * 2 ^ 32 }
    ensures few_under { result.under ≤ count * 2 ^ 32 }
{
    let _valid = instance.slots();
    let mut totals = Totals {
        wanted: 0,
        wanted_max: 0,
        worked: 0,
        over: 0,
        under: 0,
    };
    for k in 0..count {
        let need = instance.need(first + k);
        let most = instance.need_max(first + k);
        let working = attendance.working(first + k);
        totals.wanted += u64::from(need);
        totals.wanted_max += u64::from(most);
        totals.worked += u64::from(working);
        totals.over += u64::from(working.saturating_sub(most));
        totals.under += u64::from(need.saturating_sub(working));
    }
    totals
}

/// The slot of the planning period in which the duties of a row start.
pub(crate) fn first_slot(instance: &Instance, row: &Row) -> usize
    requires { row.now.shift < length (shift_list instance.now) }
    ensures slot { result ≡ first_slot instance.now row.now.shift row.now.day }
    ensures below { result < slots instance.now }
{
    instance.slot_of(row.shift, row.day, 0)
}

/// How many slots a day has. It takes no memory.
pub fn day_slots(instance: &Instance) -> usize
    ensures slots { result ≡ day_slots instance.now }
    ensures few { result ≤ 288 }
{
    let parts = instance.parts();
    1440 / usize::from(parts.slot_minutes)
}

/// How many duties of rows there are.
pub(crate) fn duties(instance: &Instance, rows: &Rows) -> u64
    requires { IsTrue (are_legal_rows instance.now rows.now) }
    ensures { result ≡ length (rota_of rows.now) }
{
    let _valid = instance.slots();
    let mut duties = 0;
    for row in rows.as_slice() {
        duties += u64::from(row.count);
    }
    duties
}

/// How many duties of rows start on a day, counted from 0.
pub(crate) fn duties_on(instance: &Instance, rows: &Rows, day: u8) -> u64
    requires { IsTrue (are_legal_rows instance.now rows.now) }
    ensures { result ≡ count_by (starts_on instance.now day) (rota_of rows.now) }
{
    let _valid = instance.slots();
    let per_day = day_slots(instance);
    let mut duties = 0;
    for row in rows.as_slice() {
        if first_slot(instance, row) / per_day == usize::from(day) {
            duties += u64::from(row.count);
        }
    }
    duties
}

/// Whether a shift, by its number, has a row.
fn has_row(rows: &[Row], shift: u16) -> bool
    ensures { result ≡ list_any (λ r. r.shift == shift) rows.now }
{
    rows.iter().any(|row| row.shift == shift)
}

/// How many shifts have a duty.
pub(crate) fn shifts_used(instance: &Instance, rows: &Rows) -> u64
    requires { IsTrue (are_legal_rows instance.now rows.now) }
    ensures used { result ≡ shifts_used instance.now (rota_of rows.now) }
    ensures few { result ≤ 1024 }
{
    let shifts = instance.shifts().len() as u16;
    let mut used = 0;
    for shift in 0..shifts {
        if has_row(rows.as_slice(), shift) {
            used += 1;
        }
    }
    used
}
