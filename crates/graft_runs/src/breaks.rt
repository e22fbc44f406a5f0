//! Breaks of the rows of a report, planned anew.
ghost use Rattle.std.specs.Prelude.{◌≡◌, ◌≤◌, ◌^◌, ◌++◌, ◌∷◌, IfErr, IfOk, IsTrue, OnOk, Some, false, map, string_bytes};
ghost use Rattle.std.specs.List.{flat_map};
ghost use Rattle.shift_instance.specs.declared.TheConstants.{TOP};
ghost use Rattle.shift_instance.specs.Rota.{are_legal_rows, rota_of};
ghost use Rattle.certificate.specs.Accepted.{is_accepted};
ghost use Rattle.certificate.specs.LineText.{break_text, breaks_text, line_text, lines_text, row_line};
ghost use Rattle.report_grafts.specs.Pins.{pins_of};
ghost use Rattle.subtree_search.specs.Stepping.{IsGreedyRun};
ghost use Rattle.graft_runs.specs.Runs.{ArePlannedAnew, IsBreaksFault, IsSearch};
ghost use Rattle.graft_runs.specs.Texts.{breaks_lines, rows_lines};

use break_rules::{Break, NoMemory};
use cert_check::{Refused, check};
use certificate::Cert;
use report_grafts::{GraftFault, SubRun, pins};
use shift_instance::{Instance, Row, Rows};
use std::alloc::Global;
use std::fmt::Write;
use subtree_search::solve_below;

/// Adds a break as `start+length`.
fn add_break(text: &mut String, next: &Break) -> Result<(), NoMemory>
    ensures { OnOk result (string_bytes text.new ≡ string_bytes text.old ++ break_text next.now) }
{
    let (start, len) = (next.start, next.len);
    write!(text, "{start}+{len}")
}

/// Adds further breaks, each with a comma before it.
fn add_further(text: &mut String, breaks: &[Break]) -> Result<(), NoMemory>
    ensures { OnOk result (string_bytes text.new ≡ string_bytes text.old ++ flat_map (λ next. 44 ∷ break_text next) breaks.now) }
{
    for next in breaks {
        text.push_str(",")?;
        add_break(text, next)?;
    }
    Ok(())
}

/// Adds breaks as `start+length` with commas between them, and `-` where there are none.
fn add_breaks(text: &mut String, breaks: &[Break]) -> Result<(), NoMemory>
    ensures { OnOk result (string_bytes text.new ≡ string_bytes text.old ++ breaks_text breaks.now) }
{
    match breaks {
        [] => text.push_str("-"),
        [first, further @ ..] => {
            add_break(text, first)?;
            add_further(text, further)
        }
    }
}

/// Adds the line of a row.
fn add_row(text: &mut String, row: &Row) -> Result<(), NoMemory>
    ensures { OnOk result (string_bytes text.new ≡ string_bytes text.old ++ line_text (row_line row.now)) }
{
    let (shift, day, count) = (row.shift, row.day, row.count);
    write!(text, "row {shift} {day} {count} ")?;
    add_breaks(text, row.breaks.as_slice())?;
    text.push_str("\n")
}

/// Adds the lines of rows.
fn add_rows(text: &mut String, rows: &[Row]) -> Result<(), NoMemory>
    ensures { OnOk result (string_bytes text.new ≡ string_bytes text.old ++ lines_text (map row_line rows.now)) }
{
    for row in rows {
        add_row(text, row)?;
    }
    Ok(())
}

/// The text of rows with their cost, whether they are the cheapest with as many duties of each shift on each day, and what those cost at
/// least.
fn rows_text(alloc: Global, run: &SubRun, cost: u64, rows: &Rows) -> Result<Vec<u8>, NoMemory>
    ensures { IfOk result (λ text. text.items ≡ lines_text (rows_lines run.now (cost, rows.now))) }
{
    let mut text = String::new(alloc);
    let word = if run.is_finished() {
        "optimal"
    } else {
        "stopped"
    };
    let bound = run.floor();
    write!(text, "breaks {word} cost {cost} bound {bound}\n")?;
    add_rows(&mut text, rows.as_slice())?;
    text.push_str("end\n")?;
    Ok(text.into_bytes())
}

/// The text of the cheaper of some rows with their cost and the best rota of a run.
fn cheaper_text(alloc: Global, run: &SubRun, cost: u64, rows: &Rows) -> Result<Vec<u8>, NoMemory>
    ensures { IfOk result (λ text. text.items ≡ lines_text (breaks_lines run.now (cost, rows.now))) }
{
    match run.best() {
        Some(best) => rows_text(alloc, run, best.cost(), best.rows()),
        None => rows_text(alloc, run, cost, rows),
    }
}

/// The rows of a certificate that the checker accepts, with their cost.
fn judged_rows<'a>(
    alloc: Global,
    instance: &Instance,
    whole: &'a Cert,
) -> Result<(u64, &'a Rows), GraftFault>
    ensures accepted { IfOk result (λ _. IsTrue (is_accepted instance.now whole.now)) }
    ensures plan { IfOk result (λ p. whole.now.plan ≡ Some (p.0, p.1.now)) }
    ensures fault { IfErr result (IsBreaksFault instance.now whole.now) }
{
    match check(alloc, instance, whole) {
        Ok(_) => {}
        Err(Refused::NoMemory) => return Err(GraftFault::NoMemory),
        Err(why) => return Err(GraftFault::Refused(why)),
    }
    match &whole.plan {
        Some((cost, rows)) => Ok((*cost, rows)),
        None => Err(GraftFault::NoRows),
    }
}

/// The run of a search below the cuts by which each shift has on each day as many duties as in rows of that cost.
fn searched(
    alloc: Global,
    instance: &Instance,
    cost: u64,
    rows: &Rows,
    steps: u64,
) -> Result<SubRun, NoMemory>
    requires legal { IsTrue (are_legal_rows instance.now rows.now) }
    requires cost { cost ≤ TOP }
    requires steps { steps ≤ 10 ^ 9 }
    ensures search { IfOk result (IsSearch instance.now (pins_of instance.now (rota_of rows.now)) cost steps false) }
    ensures greedy { IfOk result (IsGreedyRun instance.now (pins_of instance.now (rota_of rows.now)) cost) }
{
    let _valid = instance.slots();
    let base = pins(alloc, instance, rows)?;
    let run = solve_below(alloc, instance, base, cost, steps)?;
    let _sound = run.lines();
    Ok(run)
}

/// The text of the rows of a report with breaks that are planned anew in so many steps, where these are cheaper.
pub(crate) fn breaks_text(
    alloc: Global,
    instance: &Instance,
    whole: &Cert,
    steps: u64,
) -> Result<Vec<u8>, GraftFault>
    requires { steps ≤ 10 ^ 9 }
    ensures text { IfOk result (λ text. ArePlannedAnew instance.now whole.now steps text.items) }
    ensures fault { IfErr result (IsBreaksFault instance.now whole.now) }
{
    let _valid = instance.slots();
    let (cost, rows) = judged_rows(alloc, instance, whole)?;
    let run = searched(alloc, instance, cost, rows, steps)?;
    Ok(cheaper_text(alloc, &run, cost, rows)?)
}
