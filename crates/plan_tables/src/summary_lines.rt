//! What a plan adds up to, as lines of text.
ghost use Rattle.std.specs.Prelude.{◌≡◌, ◌^◌, ◌<◌, ◌++◌, IfOk, OnOk, string_bytes};
ghost use Rattle.std.specs.List.{enumerate_from, flat_map};
ghost use Rattle.plan_tables.specs.Columns.{at_right};
ghost use Rattle.plan_tables.specs.SummaryLines.{cost_head, cost_line, cost_lines, costliest_head, costliest_lines, costly_line, day_line, days_head, days_head_begin, days_head_end, days_lines, employees_width, hours_width, moment_columns, part_line, summary_lines, totals_columns, wanted_employees, wanted_hours};
ghost use Rattle.plan_tables.specs.Times.{span_text};

use crate::columns::{add_left, add_number, add_right};
use crate::{CostPart, CostlySlot, DaySummary, Hours, Summary, Totals};
use break_rules::NoMemory;
use shift_instance::Instance;
use std::alloc::Global;
use std::fmt::Write;

/// Adds the line of a part of the cost.
#[tactic(auto, unfolding(crate::specs::SummaryLines::part_line))]
fn add_part(text: &mut String, name: &str, part: &CostPart) -> Result<(), NoMemory>
    ensures { OnOk result (string_bytes text.new ≡ string_bytes text.old ++ part_line name.now part.now) }
{
    add_left(text, name, 12)?;
    add_number(text, part.amount, 12)?;
    add_number(text, u64::from(part.weight), 9)?;
    add_number(text, part.cost, 18)?;
    text.push_str("\n")
}

/// Adds what the columns of the cost are.
#[tactic(auto, unfolding(crate::specs::SummaryLines::cost_head))]
fn add_cost_head(text: &mut String) -> Result<(), NoMemory>
    ensures { OnOk result (string_bytes text.new ≡ string_bytes text.old ++ cost_head) }
{
    text.push_str("part              amount   weight              cost\n")
}

/// Adds the line of the whole cost.
#[tactic(auto, unfolding(crate::specs::SummaryLines::cost_line))]
fn add_cost_line(text: &mut String, cost: u64) -> Result<(), NoMemory>
    ensures { OnOk result (string_bytes text.new ≡ string_bytes text.old ++ cost_line cost) }
{
    text.push_str("cost ")?;
    add_number(text, cost, 46)?;
    text.push_str("\n")
}

/// Adds the cost and its three parts.
#[tactic(auto, unfolding(crate::specs::SummaryLines::cost_lines))]
fn add_cost(text: &mut String, summary: &Summary) -> Result<(), NoMemory>
    ensures { OnOk result (string_bytes text.new ≡ string_bytes text.old ++ cost_lines summary.now) }
{
    add_cost_head(text)?;
    add_part(text, "excess", &summary.excess)?;
    add_part(text, "shortage", &summary.shortage)?;
    add_part(text, "shifts used", &summary.shifts)?;
    add_cost_line(text, summary.cost)
}

/// Adds a span of so many slots at the right end of a column.
fn add_span(
    alloc: Global,
    text: &mut String,
    instance: &Instance,
    slots: u64,
) -> Result<(), NoMemory>
    ensures { OnOk result (string_bytes text.new ≡ string_bytes text.old ++ at_right 12 (span_text instance.now slots)) }
{
    let hours = Hours::of_slots(instance, slots).to_string(alloc)?;
    add_right(text, hours.as_str(), 12)
}

/// The hours that are wanted, as a range where the least and the most differ.
#[tactic(auto, unfolding(crate::specs::SummaryLines::wanted_hours))]
fn wanted_hours(alloc: Global, instance: &Instance, totals: &Totals) -> Result<String, NoMemory>
    ensures { IfOk result (λ text. string_bytes text ≡ wanted_hours instance.now totals.now) }
{
    let least = Hours::of_slots(instance, totals.wanted);
    let most = Hours::of_slots(instance, totals.wanted_max);
    if totals.wanted == totals.wanted_max {
        format!(in alloc; "{least}")
    } else {
        format!(in alloc; "{least}-{most}")
    }
}

/// How wide the column of wanted hours is.
fn hours_width(summary: &Summary) -> usize
    ensures { result ≡ hours_width summary.now }
{
    if summary.totals.wanted == summary.totals.wanted_max {
        12
    } else {
        24
    }
}

/// How wide the column of a slot's wanted employees is.
fn employees_width(summary: &Summary) -> usize
    ensures { result ≡ employees_width summary.now }
{
    if summary.totals.wanted == summary.totals.wanted_max {
        9
    } else {
        14
    }
}

/// Adds what slots add up to, the wanted hours in a column of that width.
#[tactic(auto, unfolding(crate::specs::SummaryLines::totals_columns))]
fn add_totals(
    alloc: Global,
    text: &mut String,
    instance: &Instance,
    width: usize,
    totals: &Totals,
) -> Result<(), NoMemory>
    ensures { OnOk result (string_bytes text.new ≡ string_bytes text.old ++ totals_columns instance.now width totals.now) }
{
    let wanted = wanted_hours(alloc, instance, totals)?;
    add_right(text, wanted.as_str(), width)?;
    add_span(alloc, text, instance, totals.worked)?;
    add_span(alloc, text, instance, totals.over)?;
    add_span(alloc, text, instance, totals.under)
}

/// Adds the line of a day, counted from 0.
#[tactic(auto, unfolding(crate::specs::SummaryLines::day_line))]
fn add_day(
    alloc: Global,
    text: &mut String,
    instance: &Instance,
    width: usize,
    k: usize,
    day: &DaySummary,
) -> Result<(), NoMemory>
    requires { k < 2 ^ 63 }
    ensures { OnOk result (string_bytes text.new ≡ string_bytes text.old ++ day_line instance.now width (k, day.now)) }
{
    add_number(text, k as u64 + 1, 3)?;
    add_number(text, day.duties, 9)?;
    add_totals(alloc, text, instance, width, &day.totals)?;
    text.push_str("\n")
}

/// Adds a line for each day.
fn add_each_day(
    alloc: Global,
    text: &mut String,
    instance: &Instance,
    width: usize,
    days: &[DaySummary],
) -> Result<(), NoMemory>
    ensures { OnOk result (string_bytes text.new ≡ string_bytes text.old ++ flat_map (day_line instance.now width) (enumerate_from 0 days.now)) }
{
    for (k, day) in days.iter().enumerate() {
        add_day(alloc, text, instance, width, k, day)?;
    }
    Ok(())
}

/// Adds what the columns of the days are before that of the wanted hours.
#[tactic(auto, unfolding(crate::specs::SummaryLines::days_head_begin))]
fn begin_days_head(text: &mut String) -> Result<(), NoMemory>
    ensures { OnOk result (string_bytes text.new ≡ string_bytes text.old ++ days_head_begin) }
{
    text.push_str("\nday   duties")
}

/// Adds what the columns of the days are behind that of the wanted hours.
#[tactic(auto, unfolding(crate::specs::SummaryLines::days_head_end))]
fn end_days_head(text: &mut String) -> Result<(), NoMemory>
    ensures { OnOk result (string_bytes text.new ≡ string_bytes text.old ++ days_head_end) }
{
    text.push_str("      worked        over       under\n")
}

/// Adds what the columns of the days are.
#[tactic(auto, unfolding(crate::specs::SummaryLines::days_head))]
fn add_days_head(text: &mut String, width: usize) -> Result<(), NoMemory>
    ensures { OnOk result (string_bytes text.new ≡ string_bytes text.old ++ days_head width) }
{
    begin_days_head(text)?;
    add_right(text, "wanted", width)?;
    end_days_head(text)
}

/// Adds a line for each day, and one for all.
#[tactic(auto, unfolding(crate::specs::SummaryLines::days_lines))]
fn add_days(
    alloc: Global,
    text: &mut String,
    instance: &Instance,
    summary: &Summary,
) -> Result<(), NoMemory>
    ensures { OnOk result (string_bytes text.new ≡ string_bytes text.old ++ days_lines instance.now summary.now) }
{
    let width = hours_width(summary);
    add_days_head(text, width)?;
    add_each_day(alloc, text, instance, width, summary.days.as_slice())?;
    text.push_str("all")?;
    add_number(text, summary.duties, 9)?;
    add_totals(alloc, text, instance, width, &summary.totals)?;
    text.push_str("\n")
}

/// Adds the day and the time of a slot.
#[tactic(auto, unfolding(crate::specs::SummaryLines::moment_columns))]
fn add_moment(text: &mut String, instance: &Instance, slot: &CostlySlot) -> Result<(), NoMemory>
    ensures { OnOk result (string_bytes text.new ≡ string_bytes text.old ++ moment_columns instance.now slot.now.slot) }
{
    let time = slot.time(instance);
    add_number(text, slot.day(instance) as u64, 3)?;
    write!(text, "  {time}")
}

/// The employees that are wanted in a slot, as a range where the least and the most differ.
#[tactic(auto, unfolding(crate::specs::SummaryLines::wanted_employees))]
fn wanted_employees(alloc: Global, slot: &CostlySlot) -> Result<String, NoMemory>
    ensures { IfOk result (λ text. string_bytes text ≡ wanted_employees slot.now) }
{
    let (least, most) = (slot.wanted, slot.wanted_max);
    if least == most {
        format!(in alloc; "{least}")
    } else {
        format!(in alloc; "{least}-{most}")
    }
}

/// Adds the line of a slot that costs something, the wanted employees in a column of that width.
#[tactic(auto, unfolding(crate::specs::SummaryLines::costly_line))]
fn add_costly_slot(
    alloc: Global,
    text: &mut String,
    instance: &Instance,
    width: usize,
    slot: &CostlySlot,
) -> Result<(), NoMemory>
    ensures { OnOk result (string_bytes text.new ≡ string_bytes text.old ++ costly_line instance.now width slot.now) }
{
    let wanted = wanted_employees(alloc, slot)?;
    add_moment(text, instance, slot)?;
    add_right(text, wanted.as_str(), width)?;
    add_number(text, u64::from(slot.working), 9)?;
    add_number(text, slot.cost, 18)?;
    text.push_str("\n")
}

/// Adds what the columns of the slots that cost most are.
#[tactic(auto, unfolding(crate::specs::SummaryLines::costliest_head))]
fn add_costliest_head(text: &mut String, width: usize) -> Result<(), NoMemory>
    ensures { OnOk result (string_bytes text.new ≡ string_bytes text.old ++ costliest_head width) }
{
    text.push_str("\nday  time ")?;
    add_right(text, "wanted", width)?;
    text.push_str("  working              cost\n")
}

/// Adds a line for each slot.
fn add_costly_slots(
    alloc: Global,
    text: &mut String,
    instance: &Instance,
    width: usize,
    slots: &[CostlySlot],
) -> Result<(), NoMemory>
    ensures { OnOk result (string_bytes text.new ≡ string_bytes text.old ++ flat_map (costly_line instance.now width) slots.now) }
{
    for slot in slots {
        add_costly_slot(alloc, text, instance, width, slot)?;
    }
    Ok(())
}

/// Adds the slots that cost most below a line of what the columns are, and nothing where there is no such slot.
#[tactic(auto, unfolding(crate::specs::SummaryLines::costliest_lines))]
fn add_costliest(
    alloc: Global,
    text: &mut String,
    instance: &Instance,
    width: usize,
    slots: &[CostlySlot],
) -> Result<(), NoMemory>
    ensures { OnOk result (string_bytes text.new ≡ string_bytes text.old ++ costliest_lines instance.now width slots.now) }
{
    match slots {
        [] => Ok(()),
        _ => {
            add_costliest_head(text, width)?;
            add_costly_slots(alloc, text, instance, width, slots)
        }
    }
}

/// What a plan adds up to, as lines of text: the three parts of its cost, the hours of each day and of all, and the slots that cost
/// most with their day and time. Days are counted from 1, and hours are shown with their minutes, as `37:30`. What is wanted is a range,
/// as `4-6`, where the least and the most differ.
#[tactic(auto, unfolding(crate::specs::SummaryLines::summary_lines))]
pub fn summary_text(
    alloc: Global,
    instance: &Instance,
    summary: &Summary,
) -> Result<String, NoMemory>
    ensures { IfOk result (λ text. string_bytes text ≡ summary_lines instance.now summary.now) }
{
    let mut text = String::new(alloc);
    add_cost(&mut text, summary)?;
    add_days(alloc, &mut text, instance, summary)?;
    let width = employees_width(summary);
    add_costliest(
        alloc,
        &mut text,
        instance,
        width,
        summary.costliest.as_slice(),
    )?;
    Ok(text)
}
