//! The top of the page: what the plan adds up to, and what the signs in the pictures mean.
ghost use Rattle.std.specs.Prelude.{◌≡◌, ◌^◌, ◌<◌, ◌++◌, OnOk, string_bytes};
ghost use Rattle.std.specs.List.{enumerate_from, flat_map};
ghost use Rattle.plan_page.specs.Overview.{all_end, all_head, band_sign, cost_foot, cost_head, cost_table, costliest_end, costliest_head, costliest_table, costly_row, day_row, days_head, days_table, foot_begin, foot_end, has_bands, key_text, moment_cells, need_sign, other_signs, overview, part_row, standing_line, tables_begin, tables_end, totals_cells};

use crate::cells::{
    add_number, add_row_head, add_row_number, add_span, add_time, add_wanted_employees,
    add_wanted_hours, begin_row, end_row,
};
use crate::escaping::add_escaped;
use break_rules::NoMemory;
use plan_tables::{CostPart, CostlySlot, DaySummary, Summary, Totals};
use shift_instance::Instance;

/// The beginning of what the signs in the pictures mean, with the line of the need.
pub(crate) const NEED_SIGN: &str = "\
<p class=\"key\">
<span><svg viewBox=\"0 0 28 14\"><path class=\"need\" d=\"M0 7H28\"/></svg>need</span>
";

/// What the strip of the bands means, and how it looks.
pub(crate) const BAND_SIGN: &str = "\
<span><svg viewBox=\"0 0 28 14\"><style>.band{fill:#111;fill-opacity:.2;print-color-adjust:exact;-webkit-print-color-adjust:exact}</style><path class=\"covered\" d=\"M14 3h14v11h-14z\"/><path class=\"band\" d=\"M0 3h28v8h-28z\"/><path class=\"need\" d=\"M0 3H28M0 11H28\"/></svg>from the least to the most wanted</span>
";

/// What the other signs in the pictures mean.
pub(crate) const OTHER_SIGNS: &str = "\
<span><svg viewBox=\"0 0 28 14\"><path class=\"covered\" d=\"M0 0h28v14h-28z\"/></svg>at work as wanted</span>
<span><svg viewBox=\"0 0 28 14\"><path class=\"over\" d=\"M0 0h28v14h-28z\"/></svg>more than wanted</span>
<span><svg viewBox=\"0 0 28 14\"><path class=\"under\" d=\"M0 0h28v14h-28z\"/></svg>fewer than wanted</span>
<span><svg viewBox=\"0 0 28 14\"><path class=\"work\" d=\"M0 2h28v10h-28z\"/></svg>duties</span>
<span><svg viewBox=\"0 0 28 14\"><path class=\"work\" d=\"M0 2h28v10h-28z\"/><path class=\"break\" d=\"M9 4h10v6h-10z\"/></svg>a break</span>
</p>
";

/// Adds the row of a part of the cost.
#[tactic(auto, unfolding(crate::specs::Overview::part_row))]
fn add_part(page: &mut String, name: &str, part: &CostPart) -> Result<(), NoMemory>
    ensures { OnOk result (string_bytes page.new ≡ string_bytes page.old ++ part_row name.now part.now) }
{
    add_row_head(page, name)?;
    add_number(page, part.amount)?;
    add_number(page, u64::from(part.weight))?;
    add_number(page, part.cost)?;
    end_row(page)
}

/// Begins the table of the cost.
#[tactic(auto, unfolding(crate::specs::Overview::cost_head))]
fn begin_cost(page: &mut String) -> Result<(), NoMemory>
    ensures { OnOk result (string_bytes page.new ≡ string_bytes page.old ++ cost_head) }
{
    page.push_str(
        "<table><caption>Cost</caption><thead><tr><th>Part</th><th>Amount</th><th>Weight</th><th>Cost</th></tr></thead><tbody>\n",
    )
}

/// Begins the row of the whole cost.
#[tactic(auto, unfolding(crate::specs::Overview::foot_begin))]
fn begin_foot(page: &mut String) -> Result<(), NoMemory>
    ensures { OnOk result (string_bytes page.new ≡ string_bytes page.old ++ foot_begin) }
{
    page.push_str("</tbody><tfoot><tr><th scope=\"row\">Cost</th><td></td><td></td>")
}

/// Ends the table of the cost.
#[tactic(auto, unfolding(crate::specs::Overview::foot_end))]
fn end_foot(page: &mut String) -> Result<(), NoMemory>
    ensures { OnOk result (string_bytes page.new ≡ string_bytes page.old ++ foot_end) }
{
    page.push_str("</tr></tfoot></table>\n")
}

/// Adds the whole cost, and ends the table of the cost.
#[tactic(auto, unfolding(crate::specs::Overview::cost_foot))]
fn end_cost(page: &mut String, cost: u64) -> Result<(), NoMemory>
    ensures { OnOk result (string_bytes page.new ≡ string_bytes page.old ++ cost_foot cost) }
{
    begin_foot(page)?;
    add_number(page, cost)?;
    end_foot(page)
}

/// Adds the table of the cost and its three parts.
#[tactic(auto, unfolding(crate::specs::Overview::cost_table))]
fn add_cost(page: &mut String, summary: &Summary) -> Result<(), NoMemory>
    ensures { OnOk result (string_bytes page.new ≡ string_bytes page.old ++ cost_table summary.now) }
{
    begin_cost(page)?;
    add_part(page, "Excess", &summary.excess)?;
    add_part(page, "Shortage", &summary.shortage)?;
    add_part(page, "Shifts used", &summary.shifts)?;
    end_cost(page, summary.cost)
}

/// Adds the fields of a row of days.
#[tactic(auto, unfolding(crate::specs::Overview::totals_cells))]
fn add_totals(
    page: &mut String,
    instance: &Instance,
    duties: u64,
    totals: &Totals,
) -> Result<(), NoMemory>
    ensures { OnOk result (string_bytes page.new ≡ string_bytes page.old ++ totals_cells instance.now duties totals.now) }
{
    add_number(page, duties)?;
    add_wanted_hours(page, instance, totals)?;
    add_span(page, instance, totals.worked)?;
    add_span(page, instance, totals.over)?;
    add_span(page, instance, totals.under)?;
    end_row(page)
}

/// Adds the row of a day, counted from 0.
#[tactic(auto, unfolding(crate::specs::Overview::day_row))]
fn add_day_row(
    page: &mut String,
    instance: &Instance,
    k: usize,
    day: &DaySummary,
) -> Result<(), NoMemory>
    requires { k < 2 ^ 63 }
    ensures { OnOk result (string_bytes page.new ≡ string_bytes page.old ++ day_row instance.now (k, day.now)) }
{
    add_row_number(page, k as u64 + 1)?;
    add_totals(page, instance, day.duties, &day.totals)
}

/// Adds a row for each day.
fn add_day_rows(page: &mut String, instance: &Instance, days: &[DaySummary]) -> Result<(), NoMemory>
    ensures { OnOk result (string_bytes page.new ≡ string_bytes page.old ++ flat_map (day_row instance.now) (enumerate_from 0 days.now)) }
{
    for (k, day) in days.iter().enumerate() {
        add_day_row(page, instance, k, day)?;
    }
    Ok(())
}

/// Begins the table of the days.
#[tactic(auto, unfolding(crate::specs::Overview::days_head))]
fn begin_days(page: &mut String) -> Result<(), NoMemory>
    ensures { OnOk result (string_bytes page.new ≡ string_bytes page.old ++ days_head) }
{
    page.push_str(
        "<table><caption>Hours</caption><thead><tr><th>Day</th><th>Duties</th><th>Wanted</th><th>Worked</th><th>Over</th><th>Under</th></tr></thead><tbody>\n",
    )
}

/// Begins the row of all days.
#[tactic(auto, unfolding(crate::specs::Overview::all_head))]
fn begin_all(page: &mut String) -> Result<(), NoMemory>
    ensures { OnOk result (string_bytes page.new ≡ string_bytes page.old ++ all_head) }
{
    page.push_str("</tbody><tfoot><tr><th scope=\"row\">All</th>")
}

/// Ends the table of the days.
#[tactic(auto, unfolding(crate::specs::Overview::all_end))]
fn end_days(page: &mut String) -> Result<(), NoMemory>
    ensures { OnOk result (string_bytes page.new ≡ string_bytes page.old ++ all_end) }
{
    page.push_str("</tfoot></table>\n")
}

/// Adds the table of the days.
#[tactic(auto, unfolding(crate::specs::Overview::days_table))]
fn add_days_table(page: &mut String, instance: &Instance, summary: &Summary) -> Result<(), NoMemory>
    ensures { OnOk result (string_bytes page.new ≡ string_bytes page.old ++ days_table instance.now summary.now) }
{
    begin_days(page)?;
    add_day_rows(page, instance, summary.days.as_slice())?;
    begin_all(page)?;
    add_totals(page, instance, summary.duties, &summary.totals)?;
    end_days(page)
}

/// Adds the fields of the day and the time of a slot.
#[tactic(auto, unfolding(crate::specs::Overview::moment_cells))]
fn add_moment(page: &mut String, instance: &Instance, slot: &CostlySlot) -> Result<(), NoMemory>
    ensures { OnOk result (string_bytes page.new ≡ string_bytes page.old ++ moment_cells instance.now slot.now.slot) }
{
    let time = slot.time(instance);
    add_number(page, slot.day(instance) as u64)?;
    add_time(page, time)
}

/// Adds the row of a slot that costs something.
#[tactic(auto, unfolding(crate::specs::Overview::costly_row))]
fn add_costly_slot(
    page: &mut String,
    instance: &Instance,
    slot: &CostlySlot,
) -> Result<(), NoMemory>
    ensures { OnOk result (string_bytes page.new ≡ string_bytes page.old ++ costly_row instance.now slot.now) }
{
    begin_row(page)?;
    add_moment(page, instance, slot)?;
    add_wanted_employees(page, slot)?;
    add_number(page, u64::from(slot.working))?;
    add_number(page, slot.cost)?;
    end_row(page)
}

/// Adds a row for each slot.
fn add_costly_slots(
    page: &mut String,
    instance: &Instance,
    slots: &[CostlySlot],
) -> Result<(), NoMemory>
    ensures { OnOk result (string_bytes page.new ≡ string_bytes page.old ++ flat_map (costly_row instance.now) slots.now) }
{
    for slot in slots {
        add_costly_slot(page, instance, slot)?;
    }
    Ok(())
}

/// Begins the table of the slots that cost most.
#[tactic(auto, unfolding(crate::specs::Overview::costliest_head))]
fn begin_costliest(page: &mut String) -> Result<(), NoMemory>
    ensures { OnOk result (string_bytes page.new ≡ string_bytes page.old ++ costliest_head) }
{
    page.push_str(
        "<table><caption>Slots that cost most</caption><thead><tr><th>Day</th><th>Time</th><th>Wanted</th><th>Working</th><th>Cost</th></tr></thead><tbody>\n",
    )
}

/// Ends the table of the slots that cost most.
#[tactic(auto, unfolding(crate::specs::Overview::costliest_end))]
fn end_costliest(page: &mut String) -> Result<(), NoMemory>
    ensures { OnOk result (string_bytes page.new ≡ string_bytes page.old ++ costliest_end) }
{
    page.push_str("</tbody></table>\n")
}

/// Adds the table of the slots that cost most, where some slot costs something.
#[tactic(auto, unfolding(crate::specs::Overview::costliest_table))]
fn add_costliest(
    page: &mut String,
    instance: &Instance,
    slots: &[CostlySlot],
) -> Result<(), NoMemory>
    ensures { OnOk result (string_bytes page.new ≡ string_bytes page.old ++ costliest_table instance.now slots.now) }
{
    match slots {
        [] => Ok(()),
        _ => {
            begin_costliest(page)?;
            add_costly_slots(page, instance, slots)?;
            end_costliest(page)
        }
    }
}

/// Begins the tables.
#[tactic(auto, unfolding(crate::specs::Overview::tables_begin))]
fn begin_tables(page: &mut String) -> Result<(), NoMemory>
    ensures { OnOk result (string_bytes page.new ≡ string_bytes page.old ++ tables_begin) }
{
    page.push_str("</p>\n<div class=\"tables\">\n")
}

/// Adds a line of text on how the plan stands.
#[tactic(auto, unfolding(crate::specs::Overview::standing_line))]
fn add_standing(page: &mut String, standing: &str) -> Result<(), NoMemory>
    ensures { OnOk result (string_bytes page.new ≡ string_bytes page.old ++ standing_line standing.now) }
{
    page.push_str("<p>")?;
    add_escaped(page, standing)?;
    begin_tables(page)
}

/// Ends the tables.
#[tactic(auto, unfolding(crate::specs::Overview::tables_end))]
fn end_tables(page: &mut String) -> Result<(), NoMemory>
    ensures { OnOk result (string_bytes page.new ≡ string_bytes page.old ++ tables_end) }
{
    page.push_str("</div>\n")
}

/// Adds what the line of the need means.
#[tactic(auto, unfolding(crate::specs::Overview::need_sign))]
fn add_need_sign(page: &mut String) -> Result<(), NoMemory>
    ensures { OnOk result (string_bytes page.new ≡ string_bytes page.old ++ need_sign) }
{
    page.push_str(NEED_SIGN)
}

/// Adds what the strip of the bands means, where there are some.
#[tactic(auto, unfolding(crate::specs::Overview::band_sign))]
fn add_band_sign(page: &mut String, banded: bool) -> Result<(), NoMemory>
    ensures { OnOk result (string_bytes page.new ≡ string_bytes page.old ++ band_sign banded) }
{
    if banded {
        page.push_str(BAND_SIGN)
    } else {
        Ok(())
    }
}

/// Adds what the other signs in the pictures mean.
#[tactic(auto, unfolding(crate::specs::Overview::other_signs))]
fn add_other_signs(page: &mut String) -> Result<(), NoMemory>
    ensures { OnOk result (string_bytes page.new ≡ string_bytes page.old ++ other_signs) }
{
    page.push_str(OTHER_SIGNS)
}

/// Adds what the signs in the pictures mean, with the bands where there are some.
#[tactic(auto, unfolding(crate::specs::Overview::key_text))]
fn add_key(page: &mut String, banded: bool) -> Result<(), NoMemory>
    ensures { OnOk result (string_bytes page.new ≡ string_bytes page.old ++ key_text banded) }
{
    add_need_sign(page)?;
    add_band_sign(page, banded)?;
    add_other_signs(page)
}

/// Whether some of the slots that were added up have more than one wanted number.
pub(crate) fn has_bands(totals: &Totals) -> bool
    ensures { result ≡ has_bands totals.now }
{
    totals.wanted < totals.wanted_max
}

/// Adds what the plan adds up to, below a line of text, and what the signs in the pictures mean.
#[tactic(auto, unfolding(crate::specs::Overview::overview))]
pub(crate) fn add_overview(
    page: &mut String,
    instance: &Instance,
    summary: &Summary,
    standing: &str,
) -> Result<(), NoMemory>
    ensures { OnOk result (string_bytes page.new ≡ string_bytes page.old ++ overview instance.now summary.now standing.now) }
{
    add_standing(page, standing)?;
    add_cost(page, summary)?;
    add_days_table(page, instance, summary)?;
    add_costliest(page, instance, summary.costliest.as_slice())?;
    end_tables(page)?;
    add_key(page, has_bands(&summary.totals))
}
