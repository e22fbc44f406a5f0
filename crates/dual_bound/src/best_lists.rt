//! The best break list of a shift on a day at the prices of slots and cuts.
ghost use Rattle.std.specs.Prelude.{◌≡◌, ℕ, ◌≤◌, ◌<◌, ◌^◌, ◌&&◌, ◌==◌, not, IfOk, OnOk, ◌∷◌, [], ◌++◌, MatchOption, IsTrue, length, slice_index};
ghost use Rattle.std.specs.List.{zip};
ghost use Rattle.shift_instance.specs.Problem.{shift_list};
ghost use Rattle.shift_instance.specs.Rota.{lists_of};
ghost use Rattle.shift_instance.specs.Valid.{IsValid};
ghost use Rattle.head_splits.specs.Bound.{are_prices, entries_of, is_nil};
ghost use Rattle.dual_bound.specs.BestLists.{IsBestOn};

use bound_sums::signed_price;
use break_rules::{Breaks, NoMemory};
use head_splits::{Cut, Cuts, Prices};
use patterns::Pattern;
use pricing::best_pattern;
use shift_instance::Instance;
use std::alloc::Global;

/// Whether a cut bounds duties of a shift on a day that begin with some break.
fn is_entry(cut: &Cut, shift: u16, day: u8) -> bool
    ensures { result ≡ (not (is_nil cut.now.class.prefix) && (shift == cut.now.class.shift) && (day == cut.now.class.day)) }
{
    !cut.class.prefix.as_slice().is_empty() && shift == cut.class.shift && day == cut.class.day
}

/// Adds a cut's prefix with its signed price, where the cut is one of a shift on a day.
fn add_entry(
    entries: &mut Vec<(Breaks, i64)>,
    cut: &Cut,
    price: u64,
    shift: u16,
    day: u8,
) -> Result<(), NoMemory>
    requires { price ≤ 1000000000000 }
    ensures { OnOk result (entries.new.items ≡ entries.old.items ++ entries_of ((cut.now, price) ∷ []) shift day) }
{
    if is_entry(cut, shift, day) {
        entries.push((cut.class.prefix.clone()?, signed_price(cut.side, price)))?;
    }
    Ok(())
}

/// The prefixes of the cuts of a shift on a day, each with its signed price.
pub(crate) fn entries(
    alloc: Global,
    cuts: &[Cut],
    prices: &[u64],
    shift: u16,
    day: u8,
) -> Result<Vec<(Breaks, i64)>, NoMemory>
    requires count { length prices.now ≡ length cuts.now }
    requires small { (k : ℕ) → slice_index prices.now k ≤ 1000000000000 }
    ensures { IfOk result (λ entries. entries.items ≡ entries_of (zip cuts.now prices.now) shift day) }
{
    let mut entries = Vec::new(alloc);
    for (k, cut) in cuts.iter().enumerate() {
        add_entry(&mut entries, cut, prices[k], shift, day)?;
    }
    Ok(entries)
}

/// The break list of greatest reduced value of a duty of a shift on a day, the least among equals, with that value, and
/// `None` where no list is legal.
pub fn best_of_day(
    alloc: Global,
    instance: &Instance,
    cuts: &Cuts,
    prices: &Prices,
    shift: u16,
    day: u8,
) -> Result<Option<(Breaks, i128)>, NoMemory>
    requires valid { IsValid instance.now }
    requires shift { shift < length (shift_list instance.now) }
    requires few { length cuts.now ≤ 2 ^ 33 }
    requires passes { IsTrue (are_prices instance.now cuts.now prices.now) }
    ensures best { IfOk result (λ found. MatchOption found (IsTrue (is_nil (lists_of instance.now shift))) (λ b. IsBestOn instance.now cuts.now prices.now shift day b.0 b.1)) }
{
    let slots = prices.slots.as_slice();
    let entries = entries(alloc, cuts.as_slice(), prices.cuts.as_slice(), shift, day)?;
    match best_pattern(alloc, instance, shift, day, slots, entries.as_slice())? {
        Some((pattern, value)) => {
            let Pattern { list, .. } = pattern;
            Ok(Some((list, value)))
        }
        None => Ok(None),
    }
}
