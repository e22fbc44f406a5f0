//! Rows that stand in order.
ghost use Rattle.std.specs.Prelude.{◌≡◌, ◌≤◌, ◌<◌, ◌++◌, List, All, OnOk, length, take, drop, slice_get, false, IfSome};
ghost use Rattle.shift_instance.specs.declared.Row.{Row};
ghost use Rattle.shift_instance.specs.Rota.{is_before, same_duty, duty_of};
ghost use Rattle.greedy.specs.Drafts.{with_one_more};
ghost use Rattle.shift_instance.specs.AllDuties.{row_of};

use break_rules::NoMemory;
use rota_cost::is_before;
use shift_instance::Row;

/// How many rows come before a row, of rows that stand in order.
fn place(rows: &[Row], new: &Row) -> usize
    requires { new.now.count ≡ 1 }
    ensures within { result ≤ length rows.now }
    ensures rest { with_one_more (duty_of new.now) rows.now ≡ take result rows.now ++ with_one_more (duty_of new.now) (drop result rows.now) }
    ensures stops { IfSome (slice_get rows.now result) (λ r. is_before r new.now ≡ false) }
{
    for (at, row) in rows.iter().enumerate() {
        if !is_before(row, new) {
            return at;
        }
    }
    rows.len()
}

/// Whether the duties of two rows are the same.
fn is_alike(a: &Row, b: &Row) -> bool
    ensures { result ≡ same_duty (duty_of a.now) (duty_of b.now) }
{
    a.shift == b.shift && a.day == b.day && a.breaks.is_same(&b.breaks)
}

/// Counts one duty more, of which `new` is the row, in rows that stand in order.
pub(crate) fn add_one(rows: &mut Vec<Row>, new: Row) -> Result<(), NoMemory>
    requires one { new.count ≡ 1 }
    requires room { All (λ r. r.count ≤ 200) rows.old.items }
    ensures { OnOk result (rows.new.items ≡ with_one_more (duty_of new) rows.old.items) }
{
    let at = place(rows, &new);
    if at < rows.len() && is_alike(&rows[at], &new) {
        rows[at].count += 1;
        return Ok(());
    }
    rows.insert(at, new)?;
    Ok(())
}
