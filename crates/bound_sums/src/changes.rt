//! What a change of slot prices leaves of the values that are kept.
ghost use Rattle.std.specs.Prelude.{◌≡◌, ◌<◌, ◌≤ℤ◌, ℕ, length, pos, IfOk, IsTrue, slice_get, Some};
ghost use Rattle.break_rules.specs.declared.Rule.{Rule};
ghost use Rattle.shift_instance.specs.declared.Shift.{Shift};
ghost use Rattle.shift_instance.specs.Problem.{shift_list, slot_of, slots};
ghost use Rattle.shift_instance.specs.Valid.{IsValid};
ghost use Rattle.shift_instance.specs.Worth.{price_of};
ghost use Rattle.bound_sums.specs.Kept.{AreKept, AreMarks, KeepsEach, mark};

use break_rules::NoMemory;
use price_sums::{DaySums, LANES, lane_at};
use shift_instance::Instance;
use std::alloc::Global;

/// The mark of a slot by its price before and now: 1 where it changed, and 0 where it didn't.
fn mark(old: i64, new: i64) -> i64
    ensures { result ≡ mark old new }
{
    if old == new { 0 } else { 1 }
}

/// The marks of all slots by their prices before and now.
fn change_marks(alloc: Global, old: &[i64], new: &[i64]) -> Result<Vec<i64>, NoMemory>
    requires count { length old.now ≡ length new.now }
    ensures { IfOk result (λ marks. AreMarks old.now new.now marks.items) }
{
    let mut marks = Vec::with_capacity(alloc, new.len())?;
    for (slot, price) in new.iter().enumerate() {
        marks.push(mark(old[slot], *price))?;
    }
    Ok(marks)
}

/// Whether no slot in which duties of a shift may work is marked, by the sums of marks.
fn sees_no_mark(marks: &DaySums, instance: &Instance, shift: u16) -> bool
    requires shift { shift < length (shift_list instance.now) }
    requires instance { marks.now.instance ≡ instance.now }
    requires marks { (t : ℕ) → pos 0 ≤ℤ price_of marks.now.prices t }
    ensures unmarked { IsTrue result → (x : Shift × Rule) → slice_get (shift_list instance.now) shift ≡ Some x → (day : ℕ) → day < instance.now.days → (offset : ℕ) → offset < x.0.len → price_of marks.now.prices (slot_of instance.now x.0 day offset) ≡ pos 0 }
{
    let lanes = marks.along(instance, shift);
    let len = usize::from(instance.shift(shift).len);
    lane_at(lanes, 0) == lane_at(lanes, len)
}

/// Forgets what is known of each shift in whose slots on some day a price changed. Where it is out of memory, what is left is known at
/// the prices before.
fn forget_changed(
    alloc: Global,
    known: &mut [Option<[i128; LANES]>],
    instance: &Instance,
    old: &[i64],
    new: &[i64],
) -> Result<(), NoMemory>
    requires old { length old.now ≡ slots instance.now }
    requires new { length new.now ≡ slots instance.now }
    requires places { length known.old ≡ length (shift_list instance.now) }
    requires known { KeepsEach instance.now old.now known.old }
    ensures places { length known.new ≡ length known.old }
    ensures before { KeepsEach instance.now old.now known.new }
    ensures now { IfOk result (λ _. KeepsEach instance.now new.now known.new) }
{
    let marks = change_marks(alloc, old, new)?;
    let sums = DaySums::new(alloc, instance, marks.as_slice())?;
    for shift in 0..instance.shifts().len() as u16 {
        if !sees_no_mark(&sums, instance, shift) {
            known[usize::from(shift)] = None;
        }
    }
    Ok(())
}

/// Takes the slot prices of a price set, and forgets what isn't known to hold at them. Where it is out of memory, what is kept holds
/// at the prices before.
pub(crate) fn take_prices(
    alloc: Global,
    kept: &mut Vec<i64>,
    known: &mut Vec<Option<[i128; LANES]>>,
    instance: &Instance,
    prices: &[i64],
) -> Result<(), NoMemory>
    requires valid { IsValid instance.now }
    requires count { length prices.now ≡ slots instance.now }
    requires kept { AreKept instance.now kept.old.items known.old.items }
    ensures kept { AreKept instance.now kept.new.items known.new.items }
    ensures taken { IfOk result (λ _. kept.new.items ≡ prices.now) }
{
    if kept.as_slice() == prices {
        return Ok(());
    }
    if kept.len() == prices.len() {
        forget_changed(alloc, known, instance, kept, prices)?;
        kept.copy_from_slice(prices);
    } else {
        let nothing = vec![in alloc; None; instance.shifts().len()]?;
        *kept = prices.to_vec(alloc)?;
        *known = nothing;
    }
    Ok(())
}
