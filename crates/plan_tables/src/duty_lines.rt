//! The rows of a plan, as lines of text.
ghost use Rattle.std.specs.Prelude.{◌≡◌, ◌<◌, ◌++◌, IfOk, IsTrue, OnOk, length, string_bytes};
ghost use Rattle.rota_writer.specs.Table.{name_of};
ghost use Rattle.shift_instance.specs.Problem.{shift_list};
ghost use Rattle.shift_instance.specs.Rota.{are_legal_rows};
ghost use Rattle.shift_instance.specs.Valid.{IsShift};
ghost use Rattle.plan_tables.specs.Columns.{at_left};
ghost use Rattle.plan_tables.specs.DutyLines.{breaks_or_dash, duties_head, duties_lines, duty_line, first_columns, last_columns, longest_name, row_line};

use crate::Period;
use crate::columns::{add_left, add_number};
use crate::starting::rows_by_start;
use crate::tables::{breaks_field, day_number};
use break_rules::{Break, NoMemory};
use shift_instance::{Instance, Row, Rows, Shift};
use std::alloc::Global;
use std::fmt::Write;

/// How many bytes the longest name of a type has.
fn longest_name(instance: &Instance) -> usize
    ensures { result ≡ longest_name instance.now }
{
    let parts = instance.parts();
    let mut longest = 0;
    for kind in &parts.types {
        longest = kind.name.len().max(longest);
    }
    longest
}

/// Adds the name of a type at the left end of a column.
fn add_kind(text: &mut String, instance: &Instance, kind: u16, width: usize) -> Result<(), NoMemory>
    requires { kind < length instance.now.kinds }
    ensures { OnOk result (string_bytes text.new ≡ string_bytes text.old ++ at_left width (name_of instance.now kind)) }
{
    let parts = instance.parts();
    let kind = &parts.types[usize::from(kind)];
    add_left(text, kind.name.as_str(), width)
}

/// Adds the times of breaks, and `-` where there are none.
fn add_breaks(
    alloc: Global,
    text: &mut String,
    instance: &Instance,
    start: u16,
    breaks: &[Break],
) -> Result<(), NoMemory>
    ensures { OnOk result (string_bytes text.new ≡ string_bytes text.old ++ breaks_or_dash instance.now start breaks.now) }
{
    match breaks {
        [] => text.push_str("-"),
        _ => {
            let times = breaks_field(alloc, instance, start, breaks)?;
            text.push_str(times.as_str())
        }
    }
}

/// Adds the line of a row of a shift.
#[tactic(auto, unfolding(crate::specs::DutyLines::duty_line))]
fn add_line(
    alloc: Global,
    text: &mut String,
    instance: &Instance,
    shift: Shift,
    row: &Row,
    width: usize,
) -> Result<(), NoMemory>
    requires shift { IsShift instance.now shift }
    requires width { width ≡ longest_name instance.now }
    ensures { OnOk result (string_bytes text.new ≡ string_bytes text.old ++ duty_line instance.now shift row.now) }
{
    let period = Period::of_slots(instance, u32::from(shift.start), shift.len);
    add_number(text, u64::from(day_number(instance, shift, row.day)), 3)?;
    write!(text, "  {period}")?;
    add_number(text, u64::from(row.count), 11)?;
    text.push_str("  ")?;
    add_kind(text, instance, shift.kind, width)?;
    text.push_str("  ")?;
    add_breaks(alloc, text, instance, shift.start, row.breaks.as_slice())?;
    text.push_str("\n")
}

/// Adds the line of a row.
fn add_row(
    alloc: Global,
    text: &mut String,
    instance: &Instance,
    row: &Row,
    width: usize,
) -> Result<(), NoMemory>
    requires shift { row.now.shift < length (shift_list instance.now) }
    requires width { width ≡ longest_name instance.now }
    ensures { OnOk result (string_bytes text.new ≡ string_bytes text.old ++ row_line instance.now row.now) }
{
    let shift = instance.shift(row.shift);
    add_line(alloc, text, instance, shift, row, width)
}

/// Adds what the columns are before that of the types.
#[tactic(auto, unfolding(crate::specs::DutyLines::first_columns))]
fn add_first_columns(text: &mut String) -> Result<(), NoMemory>
    ensures { OnOk result (string_bytes text.new ≡ string_bytes text.old ++ first_columns) }
{
    text.push_str("day  time         employees  ")
}

/// Adds what the columns are from that of the types on, which is so many bytes wide.
#[tactic(auto, unfolding(crate::specs::DutyLines::last_columns))]
fn add_last_columns(text: &mut String, width: usize) -> Result<(), NoMemory>
    ensures { OnOk result (string_bytes text.new ≡ string_bytes text.old ++ last_columns width) }
{
    add_left(text, "type", width)?;
    text.push_str("  breaks\n")
}

/// Adds the line of what the columns are.
fn add_head(text: &mut String, instance: &Instance, width: usize) -> Result<(), NoMemory>
    requires { width ≡ longest_name instance.now }
    ensures { OnOk result (string_bytes text.new ≡ string_bytes text.old ++ duties_head instance.now) }
{
    add_first_columns(text)?;
    add_last_columns(text, width)
}

/// The rows of a legal plan as lines of text, by the day and the time at which their duties start, below a line of what the columns
/// are. Days are counted from 1, and times are those of a clock. Where a row has no breaks, `-` stands for them.
pub fn duties_table(alloc: Global, instance: &Instance, rows: &Rows) -> Result<String, NoMemory>
    requires { IsTrue (are_legal_rows instance.now rows.now) }
    ensures { IfOk result (λ text. string_bytes text ≡ duties_lines instance.now rows.now) }
{
    let width = longest_name(instance);
    let ordered = rows_by_start(alloc, instance, rows)?;
    let mut text = String::new(alloc);
    add_head(&mut text, instance, width)?;
    for row in &ordered {
        add_row(alloc, &mut text, instance, row, width)?;
    }
    Ok(text)
}
