//! Whether rows are legal, and the first fault if not.
ghost use Rattle.std.specs.Prelude.{◌≡◌, ◌↔◌, ◌<◌, ◌≤◌, ◌+◌, ◌*◌, ◌++◌, ◌∷◌, [], IsTrue, IsOk, length, nat_lt, MatchResult, IfOk, None, Some};
ghost use Rattle.break_rules.specs.Causes.{first_cause};
ghost use Rattle.shift_instance.specs.Problem.{shift_list};
ghost use Rattle.shift_instance.specs.Rota.{are_legal_rows, is_list_of, is_before};
ghost use Rattle.rota_cost.specs.RowFaults.{heads_of, is_in_order, row_causes, row_fault};
ghost use Rattle.rota_cost.specs.Run.{IsRun};

use crate::RowFault;
use break_rules::{Breaks, is_less_list, legal};
use shift_instance::{Instance, Row, Rows};

/// The shift and the day of the last row, and the duties that they have.
#[derive(Clone, Copy, Drop)]
struct Run {
    shift: u16,
    day: u8,
    heads: u16,
}

/// Whether a shift is in the shift list.
fn is_known(instance: &Instance, shift: u16) -> bool
    ensures { result ≡ nat_lt shift (length (shift_list instance.now)) }
{
    usize::from(shift) < instance.shifts().len()
}

/// Whether a break list is legal for a shift.
fn is_list_of(instance: &Instance, shift: u16, breaks: &Breaks) -> bool
    requires { shift < length (shift_list instance.now) }
    ensures { result ≡ is_list_of instance.now shift breaks.now }
{
    let len = instance.shift(shift).len;
    legal(instance.rule_of(shift), len, breaks.as_slice())
}

/// The counts of the rows of a shift and a day.
fn heads_of(rows: &[Row], shift: u16, day: u8) -> u128
    ensures heads { result ≡ heads_of rows.now shift day }
    ensures few { result ≤ 65535 * length rows.now }
{
    let mut sum = 0u128;
    for row in rows {
        if row.shift == shift && row.day == day {
            sum += u128::from(row.count);
        }
    }
    sum
}

/// The counts of the rows before a row that are of its shift and day. Rows are looked through only where the row isn't
/// in order.
fn heads_before(before: &[Row], run: Run, row: &Row) -> u128
    requires { IsRun before.now run }
    ensures heads { result ≡ heads_of before.now row.now.shift row.now.day }
    ensures few { result ≤ 65535 * (length before.now + 1) }
{
    if row.shift == run.shift && row.day == run.day {
        return u128::from(run.heads);
    }
    if run.shift < row.shift || run.shift == row.shift && run.day < row.day {
        return 0;
    }
    heads_of(before, row.shift, row.day)
}

/// The counts of the rows of a row's shift and day, up to this row.
fn heads_with(before: &[Row], run: Run, row: &Row) -> u128
    requires { IsRun before.now run }
    ensures { result ≡ heads_of (before.now ++ row.now ∷ []) row.now.shift row.now.day }
{
    heads_before(before, run, row) + u128::from(row.count)
}

/// Whether a row comes before another: by shift, then by day, then by break list. It takes no memory.
pub fn is_before(a: &Row, b: &Row) -> bool
    ensures { result ≡ is_before a.now b.now }
{
    a.shift < b.shift
        || a.shift == b.shift
            && (a.day < b.day
                || a.day == b.day && is_less_list(a.breaks.as_slice(), b.breaks.as_slice()))
}

/// Whether a row comes after the last of those before it.
fn is_in_order(before: &[Row], row: &Row) -> bool
    ensures { result ≡ is_in_order before.now row.now }
{
    let n = before.len();
    n == 0 || is_before(&before[n - 1], row)
}

/// The run behind a row, or the row's first fault, the rows before it given.
fn judge_row(instance: &Instance, before: &[Row], run: Run, row: &Row) -> Result<Run, RowFault>
    requires { IsRun before.now run }
    ensures fault { MatchResult result (λ _. first_cause (row_causes instance.now before.now row.now (length before.now)) ≡ None) (λ e. first_cause (row_causes instance.now before.now row.now (length before.now)) ≡ Some e) }
    ensures run { IfOk result (λ next. IsRun (before.now ++ row.now ∷ []) next) }
{
    let at = before.len() as u64;
    if !is_known(instance, row.shift) {
        return Err(RowFault::UnknownShift { row: at });
    }
    if instance.days() <= row.day {
        return Err(RowFault::Day { row: at });
    }
    if !is_list_of(instance, row.shift, &row.breaks) {
        return Err(RowFault::Breaks { row: at });
    }
    if row.count == 0 {
        return Err(RowFault::ZeroCount { row: at });
    }
    let heads = heads_with(before, run, row);
    if u128::from(instance.heads()) < heads {
        return Err(RowFault::HeadsOver { row: at });
    }
    if !is_in_order(before, row) {
        return Err(RowFault::NotSorted { row: at });
    }
    Ok(Run {
        shift: row.shift,
        day: row.day,
        heads: heads as u16,
    })
}

/// The first fault of the first bad row.
fn judge_rows(instance: &Instance, rows: &Rows) -> Result<(), RowFault>
    ensures { MatchResult result (λ _. row_fault instance.now rows.now ≡ None) (λ e. row_fault instance.now rows.now ≡ Some e) }
{
    let list = rows.as_slice();
    let mut run = Run {
        shift: 0,
        day: 0,
        heads: 0,
    };
    for (i, row) in list.iter().enumerate() {
        match judge_row(instance, &list[..i], run, row) {
            Ok(next) => run = next,
            Err(fault) => return Err(fault),
        }
    }
    Ok(())
}

/// Whether rows are legal for an instance, or the first fault of the first bad row, in the order of [`RowFault`].
/// It takes no memory.
pub fn legal_rows(instance: &Instance, rows: &Rows) -> Result<(), RowFault>
    ensures legal { IsOk result ↔ IsTrue (are_legal_rows instance.now rows.now) }
    ensures fault { MatchResult result (λ _. row_fault instance.now rows.now ≡ None) (λ e. row_fault instance.now rows.now ≡ Some e) }
{
    judge_rows(instance, rows)
}
