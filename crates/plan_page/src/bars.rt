//! The rows of a plan on a day, each as a bar with its breaks.
ghost use Rattle.std.specs.Prelude.{◌≡◌, ◌^◌, ◌<◌, ◌++◌, OnOk, All, length, map, string_bytes};
ghost use Rattle.std.specs.List.{flat_map};
ghost use Rattle.rota_writer.specs.Table.{name_of, period_text};
ghost use Rattle.shift_instance.specs.Problem.{shift_list};
ghost use Rattle.shift_instance.specs.Valid.{IsShift};
ghost use Rattle.plan_tables.specs.Starting.{IsKnown};
ghost use Rattle.plan_tables.specs.Tallies.{first_slot};
ghost use Rattle.plan_page.specs.Bars.{bar, bar_begin, bar_end, bar_shape, bar_title, bars, boxes, break_boxes, breaks_begin, is_shown, label, label_begin, label_count, label_crew, label_end, label_note, part_box, rest_of, rest_time, rest_times, row_bar, shown_bar, title_between, work_begin, work_of};
ghost use Rattle.plan_page.specs.Escaping.{escaped};

use crate::escaping::add_escaped;
use crate::pictures::add_box;
use crate::stretches::{Stretch, lies_in, part_from};
use break_rules::{Break, NoMemory};
use plan_tables::{ClockTime, Period};
use shift_instance::{Instance, Row, Shift};
use std::fmt::Write;

/// Adds the box of a part of a day.
#[tactic(auto, unfolding(crate::specs::Bars::part_box))]
fn add_part(
    page: &mut String,
    instance: &Instance,
    top: u64,
    tall: u64,
    part: Option<Stretch>,
) -> Result<(), NoMemory>
    ensures { OnOk result (string_bytes page.new ≡ string_bytes page.old ++ part_box instance.now top tall part) }
{
    match part {
        None => Ok(()),
        Some(part) => {
            let left = ClockTime::of_slot(instance, part.first).minutes;
            let width = ClockTime::of_slot(instance, part.len).minutes;
            add_box(page, left, top, width, tall)
        }
    }
}

/// Adds the boxes of what lies in a day of a stretch of slots.
#[tactic(auto, unfolding(crate::specs::Bars::boxes))]
fn add_boxes(
    page: &mut String,
    instance: &Instance,
    day: u32,
    top: u64,
    tall: u64,
    stretch: Stretch,
) -> Result<(), NoMemory>
    requires day { day < 2 ^ 16 }
    requires first { stretch.first < 2 ^ 20 }
    requires len { stretch.len < 2 ^ 20 }
    ensures { OnOk result (string_bytes page.new ≡ string_bytes page.old ++ boxes instance.now day top tall stretch) }
{
    let again = day + instance.slots() as u32;
    add_part(page, instance, top, tall, part_from(instance, day, stretch))?;
    add_part(
        page,
        instance,
        top,
        tall,
        part_from(instance, again, stretch),
    )
}

/// Begins what a row is.
#[tactic(auto, unfolding(crate::specs::Bars::label_begin))]
fn begin_label(page: &mut String) -> Result<(), NoMemory>
    ensures { OnOk result (string_bytes page.new ≡ string_bytes page.old ++ label_begin) }
{
    page.push_str("<div class=\"row\"><span>")
}

/// Adds the time of a shift.
fn add_period(page: &mut String, instance: &Instance, shift: Shift) -> Result<(), NoMemory>
    ensures { OnOk result (string_bytes page.new ≡ string_bytes page.old ++ period_text instance.now shift.start shift.len) }
{
    let period = Period::of_slots(instance, u32::from(shift.start), shift.len);
    write!(page, "{period}")
}

/// Adds how many employees.
#[tactic(auto, unfolding(crate::specs::Bars::label_count))]
fn add_count(page: &mut String, count: u16) -> Result<(), NoMemory>
    ensures { OnOk result (string_bytes page.new ≡ string_bytes page.old ++ label_count count) }
{
    write!(page, " x{count} ")
}

/// Adds the name of a type.
fn add_kind(page: &mut String, instance: &Instance, kind: u16) -> Result<(), NoMemory>
    requires { kind < length instance.now.kinds }
    ensures { OnOk result (string_bytes page.new ≡ string_bytes page.old ++ escaped (name_of instance.now kind)) }
{
    let parts = instance.parts();
    let kind = &parts.types[usize::from(kind)];
    add_escaped(page, kind.name.as_str())
}

/// Adds a note where the duties of a row started on the day before.
#[tactic(auto, unfolding(crate::specs::Bars::label_note))]
fn add_note(page: &mut String, starting: bool) -> Result<(), NoMemory>
    ensures { OnOk result (string_bytes page.new ≡ string_bytes page.old ++ label_note starting) }
{
    if starting {
        page.push_str("<br>")
    } else {
        page.push_str(" (from the day before)<br>")
    }
}

/// Ends what a row is.
#[tactic(auto, unfolding(crate::specs::Bars::label_end))]
fn end_label(page: &mut String) -> Result<(), NoMemory>
    ensures { OnOk result (string_bytes page.new ≡ string_bytes page.old ++ label_end) }
{
    page.push_str("</span>")
}

/// Adds when the employees of a shift work, how many they are, their type, and a note where their duties started on the day before.
#[tactic(auto, unfolding(crate::specs::Bars::label_crew))]
fn add_crew(
    page: &mut String,
    instance: &Instance,
    starting: bool,
    shift: Shift,
    count: u16,
) -> Result<(), NoMemory>
    requires { IsShift instance.now shift }
    ensures { OnOk result (string_bytes page.new ≡ string_bytes page.old ++ label_crew instance.now starting shift count) }
{
    add_period(page, instance, shift)?;
    add_count(page, count)?;
    add_kind(page, instance, shift.kind)?;
    add_note(page, starting)
}

/// Adds when a break of a shift that starts at a slot is.
#[tactic(auto, unfolding(crate::specs::Bars::rest_time))]
fn add_rest_time(
    page: &mut String,
    instance: &Instance,
    start: u16,
    rest: &Break,
) -> Result<(), NoMemory>
    ensures { OnOk result (string_bytes page.new ≡ string_bytes page.old ++ rest_time instance.now start rest.now) }
{
    let first = u32::from(start) + u32::from(rest.start);
    let period = Period::of_slots(instance, first, rest.len);
    write!(page, " {period}")
}

/// Adds when each break of a shift that starts at a slot is.
fn add_each_rest(
    page: &mut String,
    instance: &Instance,
    start: u16,
    breaks: &[Break],
) -> Result<(), NoMemory>
    ensures { OnOk result (string_bytes page.new ≡ string_bytes page.old ++ flat_map (rest_time instance.now start) breaks.now) }
{
    for rest in breaks {
        add_rest_time(page, instance, start, rest)?;
    }
    Ok(())
}

/// Adds when the breaks of a shift that starts at a slot are, or that there are none.
#[tactic(auto, unfolding(crate::specs::Bars::rest_times))]
fn add_rest_times(
    page: &mut String,
    instance: &Instance,
    start: u16,
    breaks: &[Break],
) -> Result<(), NoMemory>
    ensures { OnOk result (string_bytes page.new ≡ string_bytes page.old ++ rest_times instance.now start breaks.now) }
{
    match breaks {
        [] => page.push_str("no breaks"),
        _ => {
            page.push_str("breaks")?;
            add_each_rest(page, instance, start, breaks)
        }
    }
}

/// Begins a bar, with what stands before its title.
#[tactic(auto, unfolding(crate::specs::Bars::bar_begin))]
fn begin_bar(page: &mut String) -> Result<(), NoMemory>
    ensures { OnOk result (string_bytes page.new ≡ string_bytes page.old ++ bar_begin) }
{
    page.push_str("<svg class=\"bar\" viewBox=\"0 0 1440 16\" preserveAspectRatio=\"none\"><title>")
}

/// Adds what stands between the time and the breaks of a title.
#[tactic(auto, unfolding(crate::specs::Bars::title_between))]
fn part_title(page: &mut String) -> Result<(), NoMemory>
    ensures { OnOk result (string_bytes page.new ≡ string_bytes page.old ++ title_between) }
{
    page.push_str(", ")
}

/// Begins the bar of a row of a shift, with its time and its breaks as its title.
#[tactic(auto, unfolding(crate::specs::Bars::bar_title))]
fn add_bar_title(
    page: &mut String,
    instance: &Instance,
    shift: Shift,
    row: &Row,
) -> Result<(), NoMemory>
    ensures { OnOk result (string_bytes page.new ≡ string_bytes page.old ++ bar_title instance.now shift row.now) }
{
    begin_bar(page)?;
    add_period(page, instance, shift)?;
    part_title(page)?;
    add_rest_times(page, instance, shift.start, row.breaks.as_slice())
}

/// Ends the title of a bar and begins the work of its row.
#[tactic(auto, unfolding(crate::specs::Bars::work_begin))]
fn begin_work(page: &mut String) -> Result<(), NoMemory>
    ensures { OnOk result (string_bytes page.new ≡ string_bytes page.old ++ work_begin) }
{
    page.push_str("</title><path class=\"work\" d=\"")
}

/// Begins the breaks of a bar.
#[tactic(auto, unfolding(crate::specs::Bars::breaks_begin))]
fn begin_breaks(page: &mut String) -> Result<(), NoMemory>
    ensures { OnOk result (string_bytes page.new ≡ string_bytes page.old ++ breaks_begin) }
{
    page.push_str("\"/><path class=\"break\" d=\"")
}

/// Ends a bar.
#[tactic(auto, unfolding(crate::specs::Bars::bar_end))]
fn end_bar(page: &mut String) -> Result<(), NoMemory>
    ensures { OnOk result (string_bytes page.new ≡ string_bytes page.old ++ bar_end) }
{
    page.push_str("\"/></svg></div>\n")
}

/// Adds the boxes of a break of duties that start in a slot.
fn add_break(
    page: &mut String,
    instance: &Instance,
    day: u32,
    first: u32,
    rest: &Break,
) -> Result<(), NoMemory>
    requires day { day < 2 ^ 16 }
    requires first { first < 2 ^ 16 }
    ensures { OnOk result (string_bytes page.new ≡ string_bytes page.old ++ boxes instance.now day 4 8 (rest_of first rest.now)) }
{
    let stretch = Stretch {
        first: first + u32::from(rest.start),
        len: u32::from(rest.len),
    };
    add_boxes(page, instance, day, 4, 8, stretch)
}

/// Adds the boxes of the breaks of duties that start in a slot.
#[tactic(auto, unfolding(crate::specs::Bars::break_boxes))]
fn add_breaks(
    page: &mut String,
    instance: &Instance,
    day: u32,
    first: u32,
    breaks: &[Break],
) -> Result<(), NoMemory>
    requires day { day < 2 ^ 16 }
    requires first { first < 2 ^ 16 }
    ensures { OnOk result (string_bytes page.new ≡ string_bytes page.old ++ break_boxes instance.now day first breaks.now) }
{
    for rest in breaks {
        add_break(page, instance, day, first, rest)?;
    }
    Ok(())
}

/// The slots of the duties of a row of a shift.
fn work_of(instance: &Instance, shift: Shift, row: &Row) -> Stretch
    requires { row.now.shift < length (shift_list instance.now) }
    ensures work { result ≡ work_of instance.now shift row.now }
    ensures start { result.first ≡ first_slot instance.now row.now.shift row.now.day }
    ensures first { result.first < 2 ^ 16 }
    ensures len { result.len < 2 ^ 16 }
{
    Stretch {
        first: instance.slot_of(row.shift, row.day, 0) as u32,
        len: u32::from(shift.len),
    }
}

/// Whether the duties of a row are at work on a day, and start on it, or else started before.
#[tactic(auto, unfolding(crate::specs::Bars::is_shown))]
fn is_shown(instance: &Instance, day: u32, starting: bool, shift: Shift, row: &Row) -> bool
    requires day { day < 2 ^ 16 }
    requires shift { row.now.shift < length (shift_list instance.now) }
    ensures { result ≡ is_shown instance.now day starting shift row.now }
{
    let work = work_of(instance, shift, row);
    let start = Stretch {
        first: work.first,
        len: 1,
    };
    let works = lies_in(instance, day, work);
    let starts = lies_in(instance, day, start);
    if starting { starts } else { works && !starts }
}

/// Adds what a row of a shift is.
#[tactic(auto, unfolding(crate::specs::Bars::label))]
fn add_label(
    page: &mut String,
    instance: &Instance,
    starting: bool,
    shift: Shift,
    row: &Row,
) -> Result<(), NoMemory>
    requires { IsShift instance.now shift }
    ensures { OnOk result (string_bytes page.new ≡ string_bytes page.old ++ label instance.now starting shift row.now) }
{
    begin_label(page)?;
    add_crew(page, instance, starting, shift, row.count)?;
    add_rest_times(page, instance, shift.start, row.breaks.as_slice())?;
    end_label(page)
}

/// Adds the bar of a row of a shift, with its breaks.
#[tactic(auto, unfolding(crate::specs::Bars::bar_shape))]
fn add_shape(
    page: &mut String,
    instance: &Instance,
    day: u32,
    shift: Shift,
    row: &Row,
) -> Result<(), NoMemory>
    requires day { day < 2 ^ 16 }
    requires listed { row.now.shift < length (shift_list instance.now) }
    ensures { OnOk result (string_bytes page.new ≡ string_bytes page.old ++ bar_shape instance.now day shift row.now) }
{
    let work = work_of(instance, shift, row);
    begin_work(page)?;
    add_boxes(page, instance, day, 2, 12, work)?;
    begin_breaks(page)?;
    add_breaks(page, instance, day, work.first, row.breaks.as_slice())?;
    end_bar(page)
}

/// Adds a row of a shift: what it is, and its bar below a title.
#[tactic(auto, unfolding(crate::specs::Bars::bar))]
fn add_bar(
    page: &mut String,
    instance: &Instance,
    day: u32,
    starting: bool,
    shift: Shift,
    row: &Row,
) -> Result<(), NoMemory>
    requires day { day < 2 ^ 16 }
    requires listed { row.now.shift < length (shift_list instance.now) }
    requires shift { IsShift instance.now shift }
    ensures { OnOk result (string_bytes page.new ≡ string_bytes page.old ++ bar instance.now day starting shift row.now) }
{
    add_label(page, instance, starting, shift, row)?;
    add_bar_title(page, instance, shift, row)?;
    add_shape(page, instance, day, shift, row)
}

/// Adds the bar of a row of a shift, where it is shown on the day.
#[tactic(auto, unfolding(crate::specs::Bars::shown_bar))]
fn add_shown(
    page: &mut String,
    instance: &Instance,
    day: u32,
    starting: bool,
    shift: Shift,
    row: &Row,
) -> Result<(), NoMemory>
    requires day { day < 2 ^ 16 }
    requires listed { row.now.shift < length (shift_list instance.now) }
    requires shift { IsShift instance.now shift }
    ensures { OnOk result (string_bytes page.new ≡ string_bytes page.old ++ shown_bar instance.now day starting shift row.now) }
{
    if is_shown(instance, day, starting, shift, row) {
        add_bar(page, instance, day, starting, shift, row)
    } else {
        Ok(())
    }
}

/// Adds the bar of a row, where it is shown on the day.
fn add_row(
    page: &mut String,
    instance: &Instance,
    day: u32,
    starting: bool,
    row: &Row,
) -> Result<(), NoMemory>
    requires day { day < 2 ^ 16 }
    requires listed { row.now.shift < length (shift_list instance.now) }
    ensures { OnOk result (string_bytes page.new ≡ string_bytes page.old ++ row_bar instance.now day starting row.now) }
{
    let shift = instance.shift(row.shift);
    add_shown(page, instance, day, starting, shift, row)
}

/// Adds the rows with duties at work on a day: where `starting`, those whose duties start on it, and else those whose duties
/// started on the day before.
pub(crate) fn add_bars(
    page: &mut String,
    instance: &Instance,
    day: u32,
    starting: bool,
    rows: &[&Row],
) -> Result<(), NoMemory>
    requires day { day < 2 ^ 16 }
    requires listed { All (IsKnown instance.now) (map (λ r. r.now) rows.now) }
    ensures { OnOk result (string_bytes page.new ≡ string_bytes page.old ++ bars instance.now day starting (map (λ r. r.now) rows.now)) }
{
    for row in rows {
        add_row(page, instance, day, starting, row)?;
    }
    Ok(())
}
