//! The bound of a price set, by the values of the duties of its shifts.
ghost use Rattle.std.specs.Prelude.{◌≡◌, ℕ, pos, ◌≤◌, ◌<◌, ◌^◌, ⊤, List, IfOk, IsTrue, MatchOption, length, slice_index_or};
ghost use Rattle.std.specs.Int.RustNames.{unsigned_abs};
ghost use Rattle.break_rules.specs.Sums.{int_sum_by};
ghost use Rattle.shift_instance.specs.Problem.{Problem, below, shift_list};
ghost use Rattle.shift_instance.specs.Rota.{lists_of};
ghost use Rattle.shift_instance.specs.Valid.{IsValid};
ghost use Rattle.head_splits.specs.declared.Cut.{Cut};
ghost use Rattle.head_splits.specs.declared.Prices.{Prices};
ghost use Rattle.head_splits.specs.Bound.{are_prices, bound_of, is_nil, term};
ghost use Rattle.bound_sums.specs.Values.{AreValues};

use crate::terms::term;
use crate::totals::bound_of;
use break_rules::NoMemory;
use head_splits::{Cuts, Prices};
use price_sums::{LANES, Lane};
use shift_instance::Instance;
use std::alloc::Global;

/// A way to find what the duties of a shift are worth at prices.
pub trait DayValues {
    /// Whether it finds what duties of an instance are worth for these cuts and at these prices. A way that serves for all leaves
    /// this out.
    ghost serves: { Self → Problem → List Cut → Prices → Type 0 } = { λ _ _ _ _. ⊤ };

    /// The greatest reduced values of the duties of a shift, each at the place of its day, and `None` where no break list is legal. It
    /// may keep memory in which the next ones are found.
    fn of_shift(
        &mut self,
        alloc: Global,
        instance: &Instance,
        cuts: &Cuts,
        prices: &Prices,
        shift: u16,
    ) -> Result<Option<[i128; LANES]>, NoMemory>
        requires shift { shift < length (shift_list instance.now) }
        requires serves { serves self.old instance.now cuts.now prices.now }
        requires few { length cuts.now ≤ 2 ^ 33 }
        requires passes { IsTrue (are_prices instance.now cuts.now prices.now) }
        ensures values { IfOk result (λ found. MatchOption found (IsTrue (is_nil (lists_of instance.now shift))) (λ values. AreValues instance.now cuts.now prices.now shift instance.now.days values)) }
        ensures serves { serves self.new instance.now cuts.now prices.now };
}

/// The numbers of a lane as values of days.
pub fn values_of_lane(lane: &Lane) -> [i128; LANES]
    ensures { (day : ℕ) → day < 8 → slice_index_or result day (pos 0) ≡ slice_index_or lane.now day (pos 0) }
{
    let mut values = [0; LANES];
    for day in 0..LANES {
        values[day] = i128::from(lane[day]);
    }
    values
}

/// The term of a shift by the values of its duties, and that of a shift without a legal list where there are none.
pub(crate) fn found_term(
    instance: &Instance,
    cuts: &Cuts,
    prices: &Prices,
    shift: u16,
    values: Option<[i128; LANES]>,
) -> i128
    requires values { MatchOption values (IsTrue (is_nil (lists_of instance.now shift))) (λ values. AreValues instance.now cuts.now prices.now shift instance.now.days values) }
    ensures term { result ≡ term instance.now cuts.now prices.now shift }
    ensures small { unsigned_abs result ≤ 2 ^ 94 }
{
    match values {
        Some(values) => term(instance, cuts, prices, shift, &values),
        None => 0,
    }
}

/// The term of a shift.
fn shift_term<V: DayValues>(
    alloc: Global,
    values: &mut V,
    instance: &Instance,
    cuts: &Cuts,
    prices: &Prices,
    shift: u16,
) -> Result<i128, NoMemory>
    requires shift { shift < length (shift_list instance.now) }
    requires serves { V.serves values.old instance.now cuts.now prices.now }
    requires few { length cuts.now ≤ 2 ^ 33 }
    requires passes { IsTrue (are_prices instance.now cuts.now prices.now) }
    ensures term { IfOk result (λ z. z ≡ term instance.now cuts.now prices.now shift) }
    ensures small { IfOk result (λ z. unsigned_abs z ≤ 2 ^ 94) }
    ensures serves { V.serves values.new instance.now cuts.now prices.now }
{
    let found = values.of_shift(alloc, instance, cuts, prices, shift)?;
    Ok(found_term(instance, cuts, prices, shift, found))
}

/// The sum of the terms of all shifts.
fn terms<V: DayValues>(
    alloc: Global,
    values: &mut V,
    instance: &Instance,
    cuts: &Cuts,
    prices: &Prices,
) -> Result<i128, NoMemory>
    requires serves { V.serves values.old instance.now cuts.now prices.now }
    requires few { length cuts.now ≤ 2 ^ 33 }
    requires passes { IsTrue (are_prices instance.now cuts.now prices.now) }
    ensures serves { V.serves values.new instance.now cuts.now prices.now }
    ensures terms { IfOk result (λ z. z ≡ int_sum_by (term instance.now cuts.now prices.now) (below (length (shift_list instance.now)))) }
    ensures small { IfOk result (λ z. unsigned_abs z ≤ 2 ^ 104) }
{
    let mut sum = 0;
    for shift in 0..instance.shifts().len() as u16 {
        sum += shift_term(alloc, values, instance, cuts, prices, shift)?;
    }
    Ok(sum)
}

/// The bound of a price set, with the values of duties found in some way, which then serves as before.
pub fn bound_by<V: DayValues>(
    alloc: Global,
    values: &mut V,
    instance: &Instance,
    cuts: &Cuts,
    prices: &Prices,
) -> Result<u64, NoMemory>
    requires valid { IsValid instance.now }
    requires serves { V.serves values.old instance.now cuts.now prices.now }
    requires few { length cuts.now ≤ 2 ^ 33 }
    requires passes { IsTrue (are_prices instance.now cuts.now prices.now) }
    ensures bound { IfOk result (λ b. b ≡ bound_of instance.now cuts.now prices.now) }
    ensures serves { V.serves values.new instance.now cuts.now prices.now }
{
    let terms = terms(alloc, values, instance, cuts, prices)?;
    Ok(bound_of(instance, cuts, prices, terms))
}
