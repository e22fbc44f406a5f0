//! The page of a plan.
ghost use Rattle.std.specs.Prelude.{◌≡◌, ◌++◌, All, IfOk, IsTrue, OnOk, length, map, string_bytes};
ghost use Rattle.shift_instance.specs.Rota.{are_legal_rows};
ghost use Rattle.plan_tables.specs.Starting.{IsKnown};
ghost use Rattle.plan_page.specs.Page.{IsPage, page_days, page_end, page_text, page_top};

use crate::days::add_days;
use crate::head::add_head;
use crate::overview::add_overview;
use crate::sections::{Section, add_sections};
use break_rules::NoMemory;
use plan_tables::{Attendance, Summary, rows_by_start};
use shift_instance::{Instance, Row, Rows};
use std::alloc::Global;

/// What a page says beside the plan. Texts may hold any characters.
#[derive(Drop)]
pub struct PageTexts {
    /// Its heading.
    pub heading: String,
    /// A line on how the plan stands.
    pub standing: String,
    /// The names of the days, from the first: a day behind the last of them has none.
    pub days: Vec<String>,
    /// Texts of their own above the days.
    pub above: Vec<Section>,
    /// Texts of their own below the days.
    pub below: Vec<Section>,
}

/// Adds the heading, the summary below a line on how the plan stands, and the texts above the days.
#[tactic(auto, unfolding(crate::specs::Page::page_top))]
fn add_top(
    page: &mut String,
    instance: &Instance,
    texts: &PageTexts,
    summary: &Summary,
) -> Result<(), NoMemory>
    ensures { OnOk result (string_bytes page.new ≡ string_bytes page.old ++ page_top instance.now texts.now summary.now) }
{
    add_head(page, texts.heading.as_str())?;
    add_overview(page, instance, summary, texts.standing.as_str())?;
    add_sections(page, texts.above.as_slice())
}

/// Ends the page.
#[tactic(auto, unfolding(crate::specs::Page::page_end))]
fn end_page(page: &mut String) -> Result<(), NoMemory>
    ensures { OnOk result (string_bytes page.new ≡ string_bytes page.old ++ page_end) }
{
    page.push_str("</body>\n</html>\n")
}

/// Adds the days from the first, and the texts below them.
#[tactic(auto, unfolding(crate::specs::Page::page_days))]
fn add_rest(
    page: &mut String,
    instance: &Instance,
    attendance: &Attendance,
    rows: &[&Row],
    texts: &PageTexts,
    summary: &Summary,
) -> Result<(), NoMemory>
    requires instance { attendance.now.instance ≡ instance.now }
    requires listed { All (IsKnown instance.now) (map (λ r. r.now) rows.now) }
    requires days { length summary.now.days.items ≡ instance.now.days }
    ensures { OnOk result (string_bytes page.new ≡ string_bytes page.old ++ page_days instance.now attendance.now.duties (map (λ r. r.now) rows.now) texts.now summary.now) }
{
    add_days(
        page,
        instance,
        attendance,
        rows,
        texts.days.as_slice(),
        summary.days.as_slice(),
    )?;
    add_sections(page, texts.below.as_slice())?;
    end_page(page)
}

/// The page of a summary, of rows, and of who is at work.
#[tactic(auto, unfolding(crate::specs::Page::page_text))]
fn written(
    alloc: Global,
    instance: &Instance,
    attendance: &Attendance,
    rows: &[&Row],
    texts: &PageTexts,
    summary: &Summary,
) -> Result<String, NoMemory>
    requires instance { attendance.now.instance ≡ instance.now }
    requires listed { All (IsKnown instance.now) (map (λ r. r.now) rows.now) }
    requires days { length summary.now.days.items ≡ instance.now.days }
    ensures { IfOk result (λ page. string_bytes page ≡ page_text instance.now attendance.now.duties (map (λ r. r.now) rows.now) texts.now summary.now) }
{
    let mut page = String::new(alloc);
    add_top(&mut page, instance, texts, summary)?;
    add_rest(&mut page, instance, attendance, rows, texts, summary)?;
    Ok(page)
}

/// The page of a legal plan: a heading, a line on how the plan stands, the numbers of its summary, and for each day the need as a
/// line over the employees as bars, and the bands as a strip where some differ from it, with the rows of duties and their breaks below.
/// Texts of their own stand above and below the days.
///
/// It is one file of hypertext that takes nothing from elsewhere and runs nothing. The numbers in its tables are those of the summary of
/// the plan (`Summary::new`), and its pictures show the cover of the plan (`Attendance`).
pub fn plan_page(
    alloc: Global,
    instance: &Instance,
    rows: &Rows,
    texts: &PageTexts,
) -> Result<String, NoMemory>
    requires { IsTrue (are_legal_rows instance.now rows.now) }
    ensures { IfOk result (λ page. IsPage instance.now rows.now texts.now (string_bytes page)) }
{
    let attendance = Attendance::new(alloc, instance, rows)?;
    let ordered = rows_by_start(alloc, instance, rows)?;
    let summary = Summary::new(alloc, instance, rows)?;
    let page = written(
        alloc,
        instance,
        &attendance,
        ordered.as_slice(),
        texts,
        &summary,
    )?;
    Ok(page)
}
