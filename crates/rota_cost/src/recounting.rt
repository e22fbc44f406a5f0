//! What legal rows cost.
ghost use Rattle.std.specs.Prelude.{◌≡◌, ℕ, ◌<◌, ◌≤◌, ◌+◌, ◌*◌, ◌^◌, IsTrue, length, sum_by, slice_index};
ghost use Rattle.shift_instance.specs.Problem.{shift_list, slots, below};
ghost use Rattle.shift_instance.specs.Valid.{IsValid};
ghost use Rattle.shift_instance.specs.Rota.{are_legal_rows, cost, rota_of, cover, slot_cost, shifts_used};
ghost use Rattle.rota_cost.specs.Working.{working};

use patterns::works;
use shift_instance::{Instance, Row, Rows, TOP};

/// The most slots of a planning period.
const MOST_SLOTS: usize = 2016;

/// The most shifts of a shift list.
const MOST_SHIFTS: usize = 1024;

/// Adds the duties of a row to the counts of the slots in which they work.
fn add_row(instance: &Instance, row: &Row, counts: &mut [u32])
    requires shift { row.now.shift < length (shift_list instance.now) }
    requires slots { slots instance.now ≤ length counts.old }
    requires room { (t : ℕ) → t < slots instance.now → slice_index counts.old t ≤ 2 ^ 31 }
    ensures { (t : ℕ) → t < slots instance.now → slice_index counts.new t ≡ slice_index counts.old t + working instance.now t row.now }
{
    let len = instance.shift(row.shift).len;
    let rule = instance.rule_of(row.shift);
    for offset in 0..len {
        if works(rule, len, row.breaks.as_slice(), offset) {
            let slot = instance.slot_of(row.shift, row.day, offset);
            counts[slot] += u32::from(row.count);
        }
    }
}

/// Counts the duties that work in each slot.
fn add_rows(instance: &Instance, rows: &Rows, counts: &mut [u32])
    requires valid { IsValid instance.now }
    requires legal { IsTrue (are_legal_rows instance.now rows.now) }
    requires slots { slots instance.now ≤ length counts.old }
    requires blank { (t : ℕ) → t < slots instance.now → slice_index counts.old t ≡ 0 }
    ensures cover { (t : ℕ) → t < slots instance.now → slice_index counts.new t ≡ cover instance.now (rota_of rows.now) t }
    ensures few { (t : ℕ) → t < slots instance.now → slice_index counts.new t ≤ 204800 }
{
    for row in rows.as_slice() {
        add_row(instance, row, counts);
    }
}

/// What a slot costs where that many duties work.
pub(crate) fn slot_cost(instance: &Instance, t: usize, cover: u32) -> u64
    requires { t < slots instance.now }
    ensures cost { result ≡ slot_cost instance.now t cover }
    ensures few { result ≤ 10 ^ 6 * cover + 10 ^ 10 }
{
    let (excess, shortage, _) = instance.weights();
    let over = cover.saturating_sub(instance.need_max(t));
    let under = instance.need(t).saturating_sub(cover);
    u64::from(excess) * u64::from(over) + u64::from(shortage) * u64::from(under)
}

/// The cost of excess and shortage where that many duties work in each slot.
pub(crate) fn slots_cost(instance: &Instance, counts: &[u32]) -> u64
    requires slots { slots instance.now ≤ length counts.now }
    requires few { (t : ℕ) → t < slots instance.now → slice_index counts.now t ≤ 204800 }
    ensures cost { result ≡ sum_by (λ t. slot_cost instance.now t (slice_index counts.now t)) (below (slots instance.now)) }
    ensures few { result ≤ 2016 * (215 * 10 ^ 9) }
{
    let mut total = 0;
    for t in 0..instance.slots() {
        total += slot_cost(instance, t, counts[t]);
    }
    total
}

/// The shifts with a duty.
fn shifts_used(instance: &Instance, rows: &Rows) -> u64
    requires valid { IsValid instance.now }
    requires legal { IsTrue (are_legal_rows instance.now rows.now) }
    ensures used { result ≡ shifts_used instance.now (rota_of rows.now) }
    ensures few { result ≤ 1024 }
{
    let mut used = 0;
    let mut seen = [false; MOST_SHIFTS];
    for row in rows.as_slice() {
        let shift = usize::from(row.shift);
        if !seen[shift] {
            seen[shift] = true;
            used += 1;
        }
    }
    used
}

/// The cost of the rota that legal rows stand for: in each slot the excess above its band and the shortage below it, and
/// the shifts used. It takes no memory.
pub fn recount(instance: &Instance, rows: &Rows) -> u64
    requires { IsTrue (are_legal_rows instance.now rows.now) }
    ensures cost { result ≡ cost instance.now (rota_of rows.now) }
    ensures below { result < TOP }
{
    let (_, _, shift) = instance.weights();
    let mut counts = [0u32; MOST_SLOTS];
    add_rows(instance, rows, &mut counts);
    slots_cost(instance, &counts) + u64::from(shift) * shifts_used(instance, rows)
}
