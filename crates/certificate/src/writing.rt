//! Certificates as text.
ghost use Rattle.std.specs.Prelude.{◌≡◌, ◌++◌, ◌∷◌, map, All, OnOk, IfOk, string_bytes};
ghost use Rattle.std.specs.List.{flat_map};
ghost use Rattle.certificate.specs.Text.{plan_lines, cert_text, status_text, rows_of, FitsCost, Agrees, HasText};
ghost use Rattle.certificate.specs.LineText.{break_text, breaks_text, row_line, line_text, lines_text, FitsBreak, FitsRow};

use crate::{Cert, CertStatus};
use break_rules::{Break, NoMemory};
use shift_instance::{Row, Rows};
use std::alloc::Global;
use std::fmt::Write;

/// Adds a break as `start+length`.
fn add_break(text: &mut String, b: &Break) -> Result<(), NoMemory>
    ensures fits { FitsBreak b.now }
    ensures added { OnOk result (string_bytes text.new ≡ string_bytes text.old ++ break_text b.now) }
{
    let start = b.start;
    let len = b.len;
    write!(text, "{start}+{len}")
}

/// Adds further breaks, each with a comma before it.
fn add_further(text: &mut String, breaks: &[Break]) -> Result<(), NoMemory>
    ensures fits { OnOk result (All FitsBreak breaks.now) }
    ensures added { OnOk result (string_bytes text.new ≡ string_bytes text.old ++ flat_map (λ next. 44 ∷ break_text next) breaks.now) }
{
    for next in breaks {
        text.push_str(",")?;
        add_break(text, next)?;
    }
    Ok(())
}

/// Adds breaks with commas between them, and `-` where there are none.
pub(crate) fn add_breaks(text: &mut String, breaks: &[Break]) -> Result<(), NoMemory>
    ensures fits { OnOk result (All FitsBreak breaks.now) }
    ensures added { OnOk result (string_bytes text.new ≡ string_bytes text.old ++ breaks_text breaks.now) }
{
    match breaks {
        [] => text.push_str("-"),
        [first, further @ ..] => {
            add_break(text, first)?;
            add_further(text, further)
        }
    }
}

/// Adds the line of a row.
fn add_row(text: &mut String, row: &Row) -> Result<(), NoMemory>
    ensures fits { OnOk result (FitsRow row.now) }
    ensures added { OnOk result (string_bytes text.new ≡ string_bytes text.old ++ line_text (row_line row.now)) }
{
    let shift = row.shift;
    let day = row.day;
    let count = row.count;
    write!(text, "row {shift} {day} {count} ")?;
    add_breaks(text, row.breaks.as_slice())?;
    text.push_str("\n")
}

/// Adds the lines of rows.
fn add_rows(text: &mut String, rows: &[Row]) -> Result<(), NoMemory>
    ensures fits { OnOk result (All FitsRow rows.now) }
    ensures added { OnOk result (string_bytes text.new ≡ string_bytes text.old ++ lines_text (map row_line rows.now)) }
{
    for row in rows {
        add_row(text, row)?;
    }
    Ok(())
}

/// The word of a status.
fn status_word(status: CertStatus) -> &'static str
    ensures { result.now ≡ status_text status }
{
    match status {
        CertStatus::Optimal => "optimal",
        CertStatus::Stopped => "stopped",
        CertStatus::Bound => "bound",
    }
}

/// Adds the lines of a plan and a bound.
fn add_plan(text: &mut String, cost: u64, rows: &Rows, bound: u64) -> Result<(), NoMemory>
    ensures fits { OnOk result (All FitsRow rows.now) }
    ensures added { OnOk result (string_bytes text.new ≡ string_bytes text.old ++ lines_text (plan_lines (Some (cost, rows.now)) bound)) }
{
    let count = rows.len();
    write!(text, "cost {cost}\nbound {bound}\nrows {count}\n")?;
    add_rows(text, rows.as_slice())
}

/// Adds the lines of a plan, if there is one, and a bound.
fn add_body(text: &mut String, plan: &Option<(u64, Rows)>, bound: u64) -> Result<(), NoMemory>
    ensures cost { FitsCost plan.now }
    ensures fits { OnOk result (All FitsRow (rows_of plan.now)) }
    ensures added { OnOk result (string_bytes text.new ≡ string_bytes text.old ++ lines_text (plan_lines plan.now bound)) }
{
    match plan {
        Some((cost, rows)) => add_plan(text, *cost, rows, bound),
        None => write!(text, "cost -\nbound {bound}\nrows -\n"),
    }
}

/// The text of a certificate, up to the line `end`. Its status agrees with its plan and its bound, it has fewer than 2^32 rows
/// and fewer than 2^32 proof lines, and each of its price sets has a price for some slot. The only refusal is running out of memory. The
/// work grows with the number of bytes.
#[tactic(auto, using(crate::proofs::Parts::cert_parts))]
pub fn write(alloc: Global, cert: &Cert) -> Result<Vec<u8>, NoMemory>
    requires { Agrees cert.now }
    // The certificate has a text, since its numbers fit their fields.
    ensures has { IfOk result (λ _. HasText cert.now) }
    ensures text { IfOk result (λ bytes. bytes.items ≡ cert_text cert.now) }
{
    let mut text = String::new(alloc);
    let status = status_word(cert.status);
    write!(text, "shift-report 1\nstatus {status}\n")?;
    add_body(&mut text, &cert.plan, cert.bound)?;
    let count = cert.lines.len();
    write!(text, "proof {count}\n")?;
    let mut bytes = text.into_bytes();
    bytes.extend_from_slice(cert.lines.text())?;
    bytes.extend_from_slice(b"end\n".as_slice())?;
    Ok(bytes)
}
