//! The tables of a plan as comma-separated values: its rows, and its slots.
ghost use Rattle.std.specs.Prelude.{◌≡◌, ◌<◌, ◌++◌, IfOk, IsTrue, OnOk, codes, length, string_bytes};
ghost use Rattle.std.specs.List.{flat_map};
ghost use Rattle.csv.specs.Writing.{default_writer, row_text};
ghost use Rattle.rota_writer.specs.Table.{break_text, day_number};
ghost use Rattle.shift_instance.specs.Problem.{need_at, need_max_at, shift_list, slots};
ghost use Rattle.shift_instance.specs.Rota.{are_legal_rows, cover, rota_of};
ghost use Rattle.shift_instance.specs.Valid.{IsShift, IsValid};
ghost use Rattle.plan_tables.specs.Attendance.{on_break, over_at, under_at};
ghost use Rattle.plan_tables.specs.Records.{breaks_field, cover_text, duties_text, duty_columns, duty_fields, duty_record, slot_columns, slot_fields};

use crate::starting::rows_by_start;
use crate::tallies::day_slots;
use crate::{Attendance, ClockTime, Period};
use break_rules::{Break, NoMemory};
use shift_instance::{Instance, Row, Rows, Shift};
use std::alloc::Global;
use std::fmt::Write;
use table_records::{Records, guarded};

/// Adds the time of a break of a shift that starts at a slot.
fn add_break(text: &mut String, instance: &Instance, start: u16, b: &Break) -> Result<(), NoMemory>
    ensures { OnOk result (string_bytes text.new ≡ string_bytes text.old ++ break_text instance.now start b.now) }
{
    let period = Period::of_slots(instance, u32::from(start) + u32::from(b.start), b.len);
    write!(text, "{period}")
}

/// Adds the times of further breaks, each with a space before it.
fn add_further(
    text: &mut String,
    instance: &Instance,
    start: u16,
    breaks: &[Break],
) -> Result<(), NoMemory>
    ensures { OnOk result (string_bytes text.new ≡ string_bytes text.old ++ flat_map (λ next. codes " " ++ break_text instance.now start next) breaks.now) }
{
    for next in breaks {
        text.push_str(" ")?;
        add_break(text, instance, start, next)?;
    }
    Ok(())
}

/// The times of breaks, with a space between two.
pub(crate) fn breaks_field(
    alloc: Global,
    instance: &Instance,
    start: u16,
    breaks: &[Break],
) -> Result<String, NoMemory>
    ensures { IfOk result (λ text. string_bytes text ≡ breaks_field instance.now start breaks.now) }
{
    let mut text = String::new(alloc);
    if let [first, further @ ..] = breaks {
        add_break(&mut text, instance, start, first)?;
        add_further(&mut text, instance, start, further)?;
    }
    Ok(text)
}

/// The day on which a shift of a duty on a day starts, counted from 1. It takes no memory.
pub fn day_number(instance: &Instance, shift: Shift, day: u8) -> u32
    ensures { result ≡ day_number instance.now shift day }
{
    let parts = instance.parts();
    let day_slots = 1440 / u32::from(parts.slot_minutes);
    (u32::from(day) + u32::from(shift.start) / day_slots) % u32::from(instance.days()) + 1
}

/// Adds the record of a row of a shift.
fn with_row_of(
    alloc: Global,
    records: Records,
    instance: &Instance,
    shift: Shift,
    row: &Row,
) -> Result<Records, NoMemory>
    requires { IsShift instance.now shift }
    ensures { IfOk result (λ r. r ≡ records ++ row_text default_writer (duty_fields instance.now shift row.now)) }
{
    let parts = instance.parts();
    let kind = &parts.types[usize::from(shift.kind)];
    let day = day_number(instance, shift, row.day).to_string(alloc)?;
    let period = Period::of_slots(instance, u32::from(shift.start), shift.len);
    let start = period.begin.to_string(alloc)?;
    let end = period.end.to_string(alloc)?;
    let employees = row.count.to_string(alloc)?;
    let name = guarded(alloc, kind.name.as_str())?;
    let breaks = breaks_field(alloc, instance, shift.start, row.breaks.as_slice())?;
    records.with(&[
        day.as_bytes(),
        start.as_bytes(),
        end.as_bytes(),
        name.as_bytes(),
        employees.as_bytes(),
        breaks.as_bytes(),
    ])
}

/// Adds the record of a row.
fn with_row(
    alloc: Global,
    records: Records,
    instance: &Instance,
    row: &Row,
) -> Result<Records, NoMemory>
    requires { row.now.shift < length (shift_list instance.now) }
    ensures { IfOk result (λ r. r ≡ records ++ duty_record instance.now row.now) }
{
    let shift = instance.shift(row.shift);
    with_row_of(alloc, records, instance, shift, row)
}

/// The rows of a legal plan as comma-separated values, with a first line of the names of the columns `day`, `start`, `end`,
/// `type`, `employees` and `breaks`.
///
/// There is a line for each row, by the day and the time at which its duties start, and those that start together in their order.
/// Days are counted from 1. Times are those of a clock. The breaks are their times with a space between two, as
/// `10:00-10:15 12:00-12:30`, and nothing where there are none. A name that a spreadsheet would calculate has an apostrophe before it.
pub fn duties_csv(alloc: Global, instance: &Instance, rows: &Rows) -> Result<Vec<u8>, NoMemory>
    requires { IsTrue (are_legal_rows instance.now rows.now) }
    ensures { IfOk result (λ text. text.items ≡ duties_text instance.now rows.now) }
{
    let mut records = Records::new(alloc).with(&[
        b"day",
        b"start",
        b"end",
        b"type",
        b"employees",
        b"breaks",
    ])?;
    let ordered = rows_by_start(alloc, instance, rows)?;
    for row in &ordered {
        records = with_row(alloc, records, instance, row)?;
    }
    records.into_bytes()
}

/// The employees of a slot.
#[derive(Clone, Copy, Drop)]
struct Staffing {
    /// The least wanted employees.
    wanted: u32,
    /// The most wanted employees.
    wanted_max: u32,
    /// The employees that work.
    working: u32,
    /// The employees that are on break.
    on_break: u32,
    /// The employees that work above the band.
    over: u32,
    /// The employees that lack to the need.
    under: u32,
}

/// The employees of a slot.
fn slot_staffing(instance: &Instance, attendance: &Attendance, t: usize) -> Staffing
    requires instance { attendance.now.instance ≡ instance.now }
    requires slot { t < slots instance.now }
    ensures wanted { result.wanted ≡ need_at instance.now t }
    ensures wanted_max { result.wanted_max ≡ need_max_at instance.now t }
    ensures working { result.working ≡ cover instance.now attendance.now.duties t }
    ensures on_break { result.on_break ≡ on_break instance.now attendance.now.duties t }
    ensures over { result.over ≡ over_at instance.now attendance.now.duties t }
    ensures under { result.under ≡ under_at instance.now attendance.now.duties t }
    ensures valid { IsValid instance.now }
{
    let wanted = instance.need(t);
    let wanted_max = instance.need_max(t);
    let working = attendance.working(t);
    Staffing {
        wanted,
        wanted_max,
        working,
        on_break: attendance.on_break(t),
        over: working.saturating_sub(wanted_max),
        under: wanted.saturating_sub(working),
    }
}

/// Adds the record of a slot.
fn with_slot(
    alloc: Global,
    records: Records,
    instance: &Instance,
    attendance: &Attendance,
    t: usize,
) -> Result<Records, NoMemory>
    requires instance { attendance.now.instance ≡ instance.now }
    requires slot { t < slots instance.now }
    ensures { IfOk result (λ r. r ≡ records ++ row_text default_writer (slot_fields instance.now attendance.now.duties t)) }
{
    let staffing = slot_staffing(instance, attendance, t);
    let day = (t / day_slots(instance) + 1).to_string(alloc)?;
    let time = ClockTime::of_slot(instance, t as u32).to_string(alloc)?;
    let need = staffing.wanted.to_string(alloc)?;
    let need_max = staffing.wanted_max.to_string(alloc)?;
    let working = staffing.working.to_string(alloc)?;
    let on_break = staffing.on_break.to_string(alloc)?;
    let over = staffing.over.to_string(alloc)?;
    let under = staffing.under.to_string(alloc)?;
    records.with(&[
        day.as_bytes(),
        time.as_bytes(),
        need.as_bytes(),
        need_max.as_bytes(),
        working.as_bytes(),
        on_break.as_bytes(),
        over.as_bytes(),
        under.as_bytes(),
    ])
}

/// The slots of a legal plan as comma-separated values, with a first line of the names of the columns `day`, `time`, `need`,
/// `need_max`, `working`, `on_break`, `over` and `under`.
///
/// There is a line for each slot of the planning period, from the first. Days are counted from 1, and the time is when the slot
/// begins. `need` and `need_max` are the least and the most wanted employees, `over` those that work beyond the most, `under` those
/// that lack to the least.
pub fn cover_csv(alloc: Global, instance: &Instance, rows: &Rows) -> Result<Vec<u8>, NoMemory>
    requires { IsTrue (are_legal_rows instance.now rows.now) }
    ensures { IfOk result (λ text. text.items ≡ cover_text instance.now (rota_of rows.now)) }
{
    let attendance = Attendance::new(alloc, instance, rows)?;
    let mut records = Records::new(alloc).with(&[
        b"day",
        b"time",
        b"need",
        b"need_max",
        b"working",
        b"on_break",
        b"over",
        b"under",
    ])?;
    for t in 0..instance.slots() {
        records = with_slot(alloc, records, instance, &attendance, t)?;
    }
    records.into_bytes()
}
