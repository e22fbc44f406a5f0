//! The days of a plan, each with its picture and its rows.
ghost use Rattle.std.specs.Prelude.{◌≡◌, ◌+◌, ◌*◌, ◌^◌, ◌<◌, ◌≤◌, ◌++◌, All, OnOk, length, map, slice_get, string_bytes};
ghost use Rattle.std.specs.List.{enumerate_from, flat_map};
ghost use Rattle.plan_tables.specs.Starting.{IsKnown};
ghost use Rattle.plan_tables.specs.SummaryLines.{wanted_hours};
ghost use Rattle.plan_tables.specs.Times.{span_text};
ghost use Rattle.shift_instance.specs.Problem.{day_slots, slots};
ghost use Rattle.plan_page.specs.Chart.{most_employees};
ghost use Rattle.plan_page.specs.Page.{day_begin, day_duties, day_end, day_hours, day_name, day_pictures, day_section, day_title, hours_end, over_begin, spans_text, title_end, wanted_worked};

use crate::bars::add_bars;
use crate::chart::{add_chart, most_employees};
use crate::escaping::add_escaped;
use crate::overview::has_bands;
use break_rules::NoMemory;
use plan_tables::{Attendance, DaySummary, Hours, Totals, day_slots};
use shift_instance::{Instance, Row};
use std::fmt::Write;

/// Adds the number of a day, counted from 1.
#[tactic(auto, unfolding(crate::specs::Page::day_begin))]
fn begin_day(page: &mut String, number: usize) -> Result<(), NoMemory>
    ensures { OnOk result (string_bytes page.new ≡ string_bytes page.old ++ day_begin number) }
{
    write!(page, "<section class=\"day\">\n<h2>Day {number}")
}

/// Adds the name of a day, if it has one.
#[tactic(auto, unfolding(crate::specs::Page::day_name))]
fn add_name(page: &mut String, names: &[String], k: usize) -> Result<(), NoMemory>
    ensures { OnOk result (string_bytes page.new ≡ string_bytes page.old ++ day_name (slice_get names.now k)) }
{
    match names.get(k) {
        None => Ok(()),
        Some(name) => {
            page.push_str(", ")?;
            add_escaped(page, name.as_str())
        }
    }
}

/// Ends the title of a day.
#[tactic(auto, unfolding(crate::specs::Page::title_end))]
fn end_title(page: &mut String) -> Result<(), NoMemory>
    ensures { OnOk result (string_bytes page.new ≡ string_bytes page.old ++ title_end) }
{
    page.push_str("</h2>\n")
}

/// Adds the title of a day, counted from 0.
#[tactic(auto, unfolding(crate::specs::Page::day_title))]
fn add_title(page: &mut String, names: &[String], k: usize) -> Result<(), NoMemory>
    requires { k < 2 ^ 63 }
    ensures { OnOk result (string_bytes page.new ≡ string_bytes page.old ++ day_title names.now k) }
{
    begin_day(page, k + 1)?;
    add_name(page, names, k)?;
    end_title(page)
}

/// Adds how many duties start on a day.
#[tactic(auto, unfolding(crate::specs::Page::day_duties))]
fn add_duties(page: &mut String, duties: u64) -> Result<(), NoMemory>
    ensures { OnOk result (string_bytes page.new ≡ string_bytes page.old ++ day_duties duties) }
{
    write!(page, "<p>{duties} duties start. Hours wanted ")
}

/// Adds how long so many slots are together.
fn add_span(page: &mut String, instance: &Instance, slots: u64) -> Result<(), NoMemory>
    ensures { OnOk result (string_bytes page.new ≡ string_bytes page.old ++ span_text instance.now slots) }
{
    let hours = Hours::of_slots(instance, slots);
    write!(page, "{hours}")
}

/// Adds how long so many slots are together, a text, and how long so many others are.
#[tactic(auto, unfolding(crate::specs::Page::spans_text))]
fn add_spans(
    page: &mut String,
    instance: &Instance,
    slots: u64,
    between: &str,
    others: u64,
) -> Result<(), NoMemory>
    ensures { OnOk result (string_bytes page.new ≡ string_bytes page.old ++ spans_text instance.now slots between.now others) }
{
    add_span(page, instance, slots)?;
    page.push_str(between)?;
    add_span(page, instance, others)
}

/// Adds the hours that are wanted, as a range where the least and the most differ.
fn add_wanted(page: &mut String, instance: &Instance, totals: &Totals) -> Result<(), NoMemory>
    ensures { OnOk result (string_bytes page.new ≡ string_bytes page.old ++ wanted_hours instance.now totals.now) }
{
    if totals.wanted == totals.wanted_max {
        add_span(page, instance, totals.wanted)
    } else {
        add_spans(page, instance, totals.wanted, "-", totals.wanted_max)
    }
}

/// Adds the hours that are wanted, and those that are worked.
#[tactic(auto, unfolding(crate::specs::Page::wanted_worked))]
fn add_wanted_worked(
    page: &mut String,
    instance: &Instance,
    totals: &Totals,
) -> Result<(), NoMemory>
    ensures { OnOk result (string_bytes page.new ≡ string_bytes page.old ++ wanted_worked instance.now totals.now) }
{
    add_wanted(page, instance, totals)?;
    page.push_str(", worked ")?;
    add_span(page, instance, totals.worked)
}

/// Adds what stands before the hours too many.
#[tactic(auto, unfolding(crate::specs::Page::over_begin))]
fn begin_over(page: &mut String) -> Result<(), NoMemory>
    ensures { OnOk result (string_bytes page.new ≡ string_bytes page.old ++ over_begin) }
{
    page.push_str(", over ")
}

/// Ends the hours of a day.
#[tactic(auto, unfolding(crate::specs::Page::hours_end))]
fn end_hours(page: &mut String) -> Result<(), NoMemory>
    ensures { OnOk result (string_bytes page.new ≡ string_bytes page.old ++ hours_end) }
{
    page.push_str(".</p>\n")
}

/// Adds how many duties start on a day, and its hours.
#[tactic(auto, unfolding(crate::specs::Page::day_hours))]
fn add_hours(page: &mut String, instance: &Instance, day: &DaySummary) -> Result<(), NoMemory>
    ensures { OnOk result (string_bytes page.new ≡ string_bytes page.old ++ day_hours instance.now day.now) }
{
    add_duties(page, day.duties)?;
    add_wanted_worked(page, instance, &day.totals)?;
    begin_over(page)?;
    add_spans(
        page,
        instance,
        day.totals.over,
        ", under ",
        day.totals.under,
    )?;
    end_hours(page)
}

/// Ends a day.
#[tactic(auto, unfolding(crate::specs::Page::day_end))]
fn end_day(page: &mut String) -> Result<(), NoMemory>
    ensures { OnOk result (string_bytes page.new ≡ string_bytes page.old ++ day_end) }
{
    page.push_str("</section>\n")
}

/// The slot in which a day begins, counted from 0.
fn first_slot(instance: &Instance, day: u8) -> usize
    requires { day < instance.now.days }
    ensures first { result ≡ day * day_slots instance.now }
    ensures within { result + day_slots instance.now ≤ slots instance.now }
    ensures few { result < 2 ^ 16 }
{
    let _valid = instance.slots();
    usize::from(day) * day_slots(instance)
}

/// Adds the picture and the rows of the day that begins at a slot, with the bands where the day has some.
#[tactic(auto, unfolding(crate::specs::Page::day_pictures))]
fn add_pictures(
    page: &mut String,
    instance: &Instance,
    attendance: &Attendance,
    most: u32,
    rows: &[&Row],
    first: usize,
    banded: bool,
) -> Result<(), NoMemory>
    requires instance { attendance.now.instance ≡ instance.now }
    requires most { most ≡ most_employees instance.now attendance.now.duties }
    requires some { 0 < most }
    requires listed { All (IsKnown instance.now) (map (λ r. r.now) rows.now) }
    requires within { first + day_slots instance.now ≤ slots instance.now }
    requires few { first < 2 ^ 16 }
    ensures { OnOk result (string_bytes page.new ≡ string_bytes page.old ++ day_pictures instance.now attendance.now.duties (map (λ r. r.now) rows.now) first banded) }
{
    let day = first as u32;
    add_chart(page, instance, attendance, most, first, banded)?;
    add_bars(page, instance, day, false, rows)?;
    add_bars(page, instance, day, true, rows)
}

/// Adds a day, counted from 0.
#[tactic(auto, unfolding(crate::specs::Page::day_section))]
fn add_day(
    page: &mut String,
    instance: &Instance,
    attendance: &Attendance,
    most: u32,
    rows: &[&Row],
    names: &[String],
    k: usize,
    day: &DaySummary,
) -> Result<(), NoMemory>
    requires instance { attendance.now.instance ≡ instance.now }
    requires most { most ≡ most_employees instance.now attendance.now.duties }
    requires some { 0 < most }
    requires listed { All (IsKnown instance.now) (map (λ r. r.now) rows.now) }
    requires day { k < instance.now.days }
    ensures { OnOk result (string_bytes page.new ≡ string_bytes page.old ++ day_section instance.now attendance.now.duties (map (λ r. r.now) rows.now) names.now (k, day.now)) }
{
    let _valid = instance.slots();
    let first = first_slot(instance, k as u8);
    add_title(page, names, k)?;
    add_hours(page, instance, day)?;
    add_pictures(
        page,
        instance,
        attendance,
        most,
        rows,
        first,
        has_bands(&day.totals),
    )?;
    end_day(page)
}

/// Adds the days under their names, with one scale for the pictures of all.
pub(crate) fn add_days(
    page: &mut String,
    instance: &Instance,
    attendance: &Attendance,
    rows: &[&Row],
    names: &[String],
    days: &[DaySummary],
) -> Result<(), NoMemory>
    requires instance { attendance.now.instance ≡ instance.now }
    requires listed { All (IsKnown instance.now) (map (λ r. r.now) rows.now) }
    requires days { length days.now ≡ instance.now.days }
    ensures { OnOk result (string_bytes page.new ≡ string_bytes page.old ++ flat_map (day_section instance.now attendance.now.duties (map (λ r. r.now) rows.now) names.now) (enumerate_from 0 days.now)) }
{
    let most = most_employees(instance, attendance);
    for (k, day) in days.iter().enumerate() {
        add_day(page, instance, attendance, most, rows, names, k, day)?;
    }
    Ok(())
}
