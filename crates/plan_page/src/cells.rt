//! The rows of tables in hypertext.
ghost use Rattle.std.specs.Prelude.{◌≡◌, ◌++◌, OnOk, codes, string_bytes};
ghost use Rattle.std.specs.Fmt.{decimal};
ghost use Rattle.rota_writer.specs.Table.{clock};
ghost use Rattle.plan_tables.specs.SummaryLines.{wanted_employees, wanted_hours};
ghost use Rattle.plan_tables.specs.Times.{span_text};
ghost use Rattle.plan_page.specs.Cells.{cell, row_begin, row_end, row_head};

use break_rules::NoMemory;
use plan_tables::{ClockTime, CostlySlot, Hours, Totals};
use shift_instance::Instance;
use std::fmt::Write;

/// Adds a field with a number.
#[tactic(auto, unfolding(crate::specs::Cells::cell))]
pub(crate) fn add_number(page: &mut String, number: u64) -> Result<(), NoMemory>
    ensures { OnOk result (string_bytes page.new ≡ string_bytes page.old ++ cell (decimal number)) }
{
    write!(page, "<td>{number}</td>")
}

/// Adds a field with how long so many slots are together.
#[tactic(auto, unfolding(crate::specs::Cells::cell))]
pub(crate) fn add_span(page: &mut String, instance: &Instance, slots: u64) -> Result<(), NoMemory>
    ensures { OnOk result (string_bytes page.new ≡ string_bytes page.old ++ cell (span_text instance.now slots)) }
{
    let hours = Hours::of_slots(instance, slots);
    write!(page, "<td>{hours}</td>")
}

/// Adds a field with how long so many slots are together at least and at most.
#[tactic(auto, unfolding(crate::specs::Cells::cell))]
fn add_spans(page: &mut String, instance: &Instance, least: u64, most: u64) -> Result<(), NoMemory>
    ensures { OnOk result (string_bytes page.new ≡ string_bytes page.old ++ cell (span_text instance.now least ++ codes "-" ++ span_text instance.now most)) }
{
    let shorter = Hours::of_slots(instance, least);
    let longer = Hours::of_slots(instance, most);
    write!(page, "<td>{shorter}-{longer}</td>")
}

/// Adds a field with the hours that are wanted, as a range where the least and the most differ.
pub(crate) fn add_wanted_hours(
    page: &mut String,
    instance: &Instance,
    totals: &Totals,
) -> Result<(), NoMemory>
    ensures { OnOk result (string_bytes page.new ≡ string_bytes page.old ++ cell (wanted_hours instance.now totals.now)) }
{
    if totals.wanted == totals.wanted_max {
        add_span(page, instance, totals.wanted)
    } else {
        add_spans(page, instance, totals.wanted, totals.wanted_max)
    }
}

/// Adds a field with a number of employees.
#[tactic(auto, unfolding(crate::specs::Cells::cell))]
fn add_employees(page: &mut String, employees: u32) -> Result<(), NoMemory>
    ensures { OnOk result (string_bytes page.new ≡ string_bytes page.old ++ cell (decimal employees)) }
{
    write!(page, "<td>{employees}</td>")
}

/// Adds a field with the least and the most of a number of employees.
#[tactic(auto, unfolding(crate::specs::Cells::cell))]
fn add_range(page: &mut String, least: u32, most: u32) -> Result<(), NoMemory>
    ensures { OnOk result (string_bytes page.new ≡ string_bytes page.old ++ cell (decimal least ++ codes "-" ++ decimal most)) }
{
    write!(page, "<td>{least}-{most}</td>")
}

/// Adds a field with the employees that are wanted in a slot, as a range where the least and the most differ.
pub(crate) fn add_wanted_employees(page: &mut String, slot: &CostlySlot) -> Result<(), NoMemory>
    ensures { OnOk result (string_bytes page.new ≡ string_bytes page.old ++ cell (wanted_employees slot.now)) }
{
    if slot.wanted == slot.wanted_max {
        add_employees(page, slot.wanted)
    } else {
        add_range(page, slot.wanted, slot.wanted_max)
    }
}

/// Adds a field with a time of day.
#[tactic(auto, unfolding(crate::specs::Cells::cell))]
pub(crate) fn add_time(page: &mut String, time: ClockTime) -> Result<(), NoMemory>
    ensures { OnOk result (string_bytes page.new ≡ string_bytes page.old ++ cell (clock time.minutes)) }
{
    write!(page, "<td>{time}</td>")
}

/// Adds the beginning of a row, with what the row is.
#[tactic(auto, unfolding(crate::specs::Cells::row_head))]
pub(crate) fn add_row_head(page: &mut String, name: &str) -> Result<(), NoMemory>
    ensures { OnOk result (string_bytes page.new ≡ string_bytes page.old ++ row_head name.now) }
{
    write!(page, "<tr><th scope=\"row\">{name}</th>")
}

/// Adds the beginning of a row, with its number.
#[tactic(auto, unfolding(crate::specs::Cells::row_head))]
pub(crate) fn add_row_number(page: &mut String, number: u64) -> Result<(), NoMemory>
    ensures { OnOk result (string_bytes page.new ≡ string_bytes page.old ++ row_head (decimal number)) }
{
    write!(page, "<tr><th scope=\"row\">{number}</th>")
}

/// Begins a row that has fields alone.
#[tactic(auto, unfolding(crate::specs::Cells::row_begin))]
pub(crate) fn begin_row(page: &mut String) -> Result<(), NoMemory>
    ensures { OnOk result (string_bytes page.new ≡ string_bytes page.old ++ row_begin) }
{
    page.push_str("<tr>")
}

/// Ends a row.
#[tactic(auto, unfolding(crate::specs::Cells::row_end))]
pub(crate) fn end_row(page: &mut String) -> Result<(), NoMemory>
    ensures { OnOk result (string_bytes page.new ≡ string_bytes page.old ++ row_end) }
{
    page.push_str("</tr>\n")
}
