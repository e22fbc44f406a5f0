//! Whether rows meet cuts.
ghost use Rattle.std.specs.Prelude.{◌≡◌, ◌≤◌, ◌*◌, length};
ghost use Rattle.std.specs.List.{list_all};
ghost use Rattle.break_rules.specs.Breaks.{begins_with};
ghost use Rattle.shift_instance.specs.Rota.{duty_of, rota_of};
ghost use Rattle.head_splits.specs.Cuts.{holds, class_count, keeps_to, meets_cut, meets};

use crate::{Class, Cut, Cuts, Side};
use shift_instance::{Instance, Row, Rows};

/// Whether a class holds the duties of a row.
fn holds(class: &Class, row: &Row) -> bool
    ensures { result ≡ holds class.now (duty_of row.now) }
{
    row.shift == class.shift
        && row.day == class.day
        && row.breaks.as_slice().starts_with(class.prefix.as_slice())
}

/// How many duties a class holds of those that rows stand for. The rows needn't be legal. It takes no memory.
pub fn duties_in_class(rows: &[Row], class: &Class) -> u128
    ensures count { result ≡ class_count (rota_of rows.now) class.now }
    ensures few { result ≤ 65535 * length rows.now }
{
    let mut sum = 0u128;
    for row in rows {
        if holds(class, row) {
            sum += u128::from(row.count);
        }
    }
    sum
}

/// Whether a number keeps to a side of `m`.
fn keeps_to(side: Side, m: u16, number: u128) -> bool
    ensures { result ≡ keeps_to side m number }
{
    match side {
        Side::AtMost => number <= u128::from(m),
        Side::AtLeast => u128::from(m) <= number,
    }
}

/// Whether the rota of the rows meets a cut.
fn meets_cut(rows: &[Row], cut: &Cut) -> bool
    ensures { result ≡ meets_cut (rota_of rows.now) cut.now }
{
    keeps_to(cut.side, cut.m, duties_in_class(rows, &cut.class))
}

/// Whether the rota that rows stand for meets all cuts: each class has at most, or at least, as many duties as its cut
/// says. The rows needn't be legal. It takes no memory.
pub fn meets(_instance: &Instance, rows: &Rows, cuts: &Cuts) -> bool
    ensures { result ≡ meets (rota_of rows.now) cuts.now }
{
    let rows = rows.as_slice();
    cuts.as_slice().iter().all(|cut| meets_cut(rows, cut))
}
