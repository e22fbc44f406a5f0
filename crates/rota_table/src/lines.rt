//! The rota of a plan as a table.
ghost use Rattle.std.specs.Prelude.{◌≡◌, ◌<◌, ◌++◌, IfOk, IsTrue, length};
ghost use Rattle.shift_instance.specs.Problem.{shift_list};
ghost use Rattle.shift_instance.specs.Rota.{are_legal_rows, duty_of};
ghost use Rattle.rota_table.specs.Lines.{duty_record, most_breaks, rota_text, row_records};

use crate::fields::{duty_fields, rota_columns};
use break_rules::NoMemory;
use plan_tables::rows_by_start;
use shift_instance::{Instance, Row, Rows};
use std::alloc::Global;
use table_records::Records;

/// The most breaks that the duties of a row have.
fn most_breaks(rows: &Rows) -> usize
    ensures { result ≡ most_breaks rows.now }
{
    let mut most = 0;
    for row in rows.as_slice() {
        most = row.breaks.as_slice().len().max(most);
    }
    most
}

/// Adds the record of one duty of a row, with columns for so many breaks.
fn with_duty(
    alloc: Global,
    records: Records,
    instance: &Instance,
    names: &[String],
    most: usize,
    row: &Row,
) -> Result<Records, NoMemory>
    requires { row.now.shift < length (shift_list instance.now) }
    ensures { IfOk result (λ r. r ≡ records ++ duty_record instance.now names.now most (duty_of row.now)) }
{
    let shift = instance.shift(row.shift);
    let fields = duty_fields(alloc, instance, names, most, shift, row)?;
    records.with_texts(alloc, fields.as_slice())
}

/// Adds the records of the duties of a row, with columns for so many breaks.
fn with_row(
    alloc: Global,
    records: Records,
    instance: &Instance,
    names: &[String],
    most: usize,
    row: &Row,
) -> Result<Records, NoMemory>
    requires { row.now.shift < length (shift_list instance.now) }
    ensures { IfOk result (λ r. r ≡ records ++ row_records instance.now names.now most row.now) }
{
    let mut records = records;
    for _ in 0..row.count {
        records = with_duty(alloc, records, instance, names, most, row)?;
    }
    Ok(records)
}

/// The rota of a legal plan as comma-separated values, with a first line of the names of the columns `day`, `day_name`, `start`, `end`,
/// `next_day`, `type`, `paid` and `worked`, and then `break_1_start`, `break_1_end` and so on, for as many breaks as some duty has.
///
/// There is a line for each duty, by the day and the time at which it starts. Days are counted from 1, and times are those of a clock.
/// `day_name` is the name that `names` has for the day on which the duty starts, the first name being that of the first day of the planning
/// period, and empty where it has none.
/// `next_day` is `yes` where the duty ends at midnight or on the day after, and else `no`; `paid` is how long it lasts with its breaks,
/// and `worked` without them. Where a duty has fewer breaks, its last fields are empty. A name that a spreadsheet would calculate has an
/// apostrophe before it.
pub fn rota_csv(
    alloc: Global,
    instance: &Instance,
    rows: &Rows,
    names: &[String],
) -> Result<Vec<u8>, NoMemory>
    requires { IsTrue (are_legal_rows instance.now rows.now) }
    ensures { IfOk result (λ text. text.items ≡ rota_text instance.now names.now rows.now) }
{
    let most = most_breaks(rows);
    let columns = rota_columns(alloc, most)?;
    let mut records = Records::new(alloc).with_texts(alloc, columns.as_slice())?;
    let ordered = rows_by_start(alloc, instance, rows)?;
    for row in &ordered {
        records = with_row(alloc, records, instance, names, most, row)?;
    }
    records.into_bytes()
}
