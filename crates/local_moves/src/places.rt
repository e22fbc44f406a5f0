//! Duties among rows that stand in order.
ghost use Rattle.std.specs.Prelude.{◌≡◌, ◌+◌, ◌≤◌, ◌<◌, All, length, vec_capacity, vec_len};
ghost use Rattle.break_rules.specs.Lists.{Sorted};
ghost use Rattle.shift_instance.specs.Rota.{count_of, rota_of};
ghost use Rattle.greedy.specs.Drafts.{with_one_more};
ghost use Rattle.local_moves.specs.Places.{IsBefore, AreBefore, IsNotBefore, with_one_less};

use crate::order::{is_before, is_of};
use shift_instance::{Duty, Row};

/// How many rows come before a duty, of rows that stand in order.
fn place(rows: &[Row], duty: &Duty) -> usize
    requires order { Sorted IsBefore rows.now }
    ensures within { result ≤ length rows.now }
    ensures before { AreBefore rows.now duty.now result }
    ensures stops { IsNotBefore rows.now duty.now result }
{
    let mut low = 0;
    let mut high = rows.len();
    while low < high {
        let middle = low + (high - low) / 2;
        if is_before(&rows[middle], duty) {
            low = middle + 1;
        } else {
            high = middle;
        }
    }
    low
}

/// How often a duty stands in rows that stand in order.
pub(crate) fn count_in(rows: &[Row], duty: &Duty) -> u16
    requires order { Sorted IsBefore rows.now }
    ensures { result ≡ count_of (rota_of rows.now) duty.now }
{
    let at = place(rows, duty);
    if at < rows.len() && is_of(&rows[at], duty) {
        rows[at].count
    } else {
        0
    }
}

/// Takes away one duty, which is there. A row goes with its last duty.
pub(crate) fn take_one(rows: &mut Vec<Row>, duty: &Duty)
    requires order { Sorted IsBefore rows.old.items }
    requires there { 0 < count_of (rota_of rows.old.items) duty.now }
    ensures rows { rows.new.items ≡ with_one_less duty.now rows.old.items }
    ensures capacity { vec_capacity rows.new ≡ vec_capacity rows.old }
    ensures len { vec_len rows.new ≤ vec_len rows.old }
{
    let at = place(rows, duty);
    if 1 < rows[at].count {
        rows[at].count -= 1;
    } else {
        let _gone = rows.remove(at);
    }
}

/// Adds one duty, for whose row there is room. It takes no memory.
pub(crate) fn add_one(rows: &mut Vec<Row>, duty: Duty)
    requires order { Sorted IsBefore rows.old.items }
    requires few { All (λ r. r.count ≤ 200) rows.old.items }
    requires room { vec_len rows.old < vec_capacity rows.old }
    ensures rows { rows.new.items ≡ with_one_more duty rows.old.items }
    ensures capacity { vec_capacity rows.old ≤ vec_capacity rows.new }
    ensures len { vec_len rows.new ≤ vec_len rows.old + 1 }
{
    let at = place(rows, &duty);
    if at < rows.len() && is_of(&rows[at], &duty) {
        rows[at].count += 1;
        return;
    }
    let _added = rows.insert(at, Row::of_one(duty));
}
