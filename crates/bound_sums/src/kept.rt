//! Values of duties that are kept from one price set to the next.
ghost use Rattle.std.specs.Prelude.{◌≡◌, ◌≤◌, ◌<◌, ◌^◌, IfOk, IsTrue, MatchOption, length};
ghost use Rattle.std.specs.Int.RustNames.{unsigned_abs};
ghost use Rattle.break_rules.specs.Sums.{int_sum_by};
ghost use Rattle.shift_instance.specs.Problem.{below, shift_list};
ghost use Rattle.shift_instance.specs.Rota.{lists_of};
ghost use Rattle.shift_instance.specs.Valid.{IsValid};
ghost use Rattle.head_splits.specs.Bound.{are_prices, bound_of, is_nil, term};
ghost use Rattle.bound_sums.specs.Kept.{IsKept, KeepsEach, has_prefix_cut};
ghost use Rattle.bound_sums.specs.Values.{AreValues};

use crate::bounds::{DayValues, found_term};
use crate::changes::take_prices;
use crate::totals::bound_of;
use break_rules::NoMemory;
use head_splits::{Cuts, Prices};
use price_sums::LANES;
use shift_instance::Instance;
use std::alloc::Global;
use std::marker::Model;
use std::snapshot::Snapshot;

/// What the duties of an instance's shifts are worth at the prices of slots, kept from one price set to the next: a shift is
/// valued anew only where the price of a slot changed in which some duty of it may work, or where a cut bounds duties of it that begin
/// with some break.
#[derive(Drop)]
pub struct KeptValues {
    slots: Vec<i64>,
    values: Vec<Option<[i128; LANES]>>,
    instance: Snapshot<Instance>,
}

impl Model for KeptValues {
    ghost use Rattle.shift_instance.specs.Problem.{Problem};

    ghost Value = { Problem };

    ghost view = { λ k. k.instance.value };

    ghost use Rattle.bound_sums.specs.Kept.{AreKept};

    ghost invariant = { λ k. AreKept k.instance.value k.slots.items k.values.items };
}

/// Whether some cut bounds duties of a shift that begin with some break: only then the prices of cuts add to what its duties are
/// worth.
pub fn has_prefix_cut(cuts: &Cuts, shift: u16) -> bool
    ensures { result ≡ has_prefix_cut cuts.now shift }
{
    cuts.as_slice().iter().any(|cut| !cut.class.prefix.as_slice().is_empty()
        && shift == cut.class.shift)
}

/// The greatest reduced values of the duties of a shift on each day: those that are known, where no cut bounds duties of it that
/// begin with some break, and else those that are found. What is found where there is no such cut is known from then on.
fn values_of<V: DayValues>(
    alloc: Global,
    values: &mut V,
    known: &mut Option<[i128; LANES]>,
    instance: &Instance,
    cuts: &Cuts,
    prices: &Prices,
    shift: u16,
) -> Result<Option<[i128; LANES]>, NoMemory>
    requires shift { shift < length (shift_list instance.now) }
    requires serves { V.serves values.old instance.now cuts.now prices.now }
    requires few { length cuts.now ≤ 2 ^ 33 }
    requires passes { IsTrue (are_prices instance.now cuts.now prices.now) }
    requires kept { IsKept instance.now prices.now.slots shift known.old }
    ensures values { IfOk result (λ found. MatchOption found (IsTrue (is_nil (lists_of instance.now shift))) (λ values. AreValues instance.now cuts.now prices.now shift instance.now.days values)) }
    ensures serves { V.serves values.new instance.now cuts.now prices.now }
    ensures kept { IsKept instance.now prices.now.slots shift known.new }
{
    if has_prefix_cut(cuts, shift) {
        return values.of_shift(alloc, instance, cuts, prices, shift);
    }
    if known.is_some() {
        return Ok(*known);
    }
    let found = values.of_shift(alloc, instance, cuts, prices, shift)?;
    *known = found;
    Ok(found)
}

/// The sum of the terms of all shifts, by the values that are known and those that are found.
fn kept_terms<V: DayValues>(
    alloc: Global,
    values: &mut V,
    known: &mut [Option<[i128; LANES]>],
    instance: &Instance,
    cuts: &Cuts,
    prices: &Prices,
) -> Result<i128, NoMemory>
    requires serves { V.serves values.old instance.now cuts.now prices.now }
    requires few { length cuts.now ≤ 2 ^ 33 }
    requires passes { IsTrue (are_prices instance.now cuts.now prices.now) }
    requires places { length known.old ≡ length (shift_list instance.now) }
    requires kept { KeepsEach instance.now prices.now.slots known.old }
    ensures serves { V.serves values.new instance.now cuts.now prices.now }
    ensures places { length known.new ≡ length known.old }
    ensures kept { KeepsEach instance.now prices.now.slots known.new }
    ensures terms { IfOk result (λ z. z ≡ int_sum_by (term instance.now cuts.now prices.now) (below (length (shift_list instance.now)))) }
    ensures small { IfOk result (λ z. unsigned_abs z ≤ 2 ^ 104) }
{
    let mut sum = 0;
    for shift in 0..instance.shifts().len() as u16 {
        let entry = &mut known[usize::from(shift)];
        let found = values_of(alloc, values, entry, instance, cuts, prices, shift)?;
        sum += found_term(instance, cuts, prices, shift, found);
    }
    Ok(sum)
}

impl KeptValues {
    /// No values of an instance's shifts, which are kept as price sets are bounded. It takes no memory.
    pub fn new(alloc: Global, instance: &Instance) -> KeptValues
        ensures instance { result ≡ instance.now }
    {
        KeptValues {
            slots: Vec::new(alloc),
            values: Vec::new(alloc),
            instance: Snapshot::of(instance),
        }
    }

    /// The bound of a price set as [`bound_by`](crate::bound_by) finds it, with the values that are kept, and all others found in some
    /// way, which then serves as before.
    pub fn bound_by<V: DayValues>(
        &mut self,
        alloc: Global,
        values: &mut V,
        instance: &Instance,
        cuts: &Cuts,
        prices: &Prices,
    ) -> Result<u64, NoMemory>
        requires valid { IsValid instance.now }
        requires instance { self.old ≡ instance.now }
        requires serves { V.serves values.old instance.now cuts.now prices.now }
        requires few { length cuts.now ≤ 2 ^ 33 }
        requires passes { IsTrue (are_prices instance.now cuts.now prices.now) }
        ensures bound { IfOk result (λ b. b ≡ bound_of instance.now cuts.now prices.now) }
        ensures instance { self.new ≡ self.old }
        ensures serves { V.serves values.new instance.now cuts.now prices.now }
    {
        take_prices(
            alloc,
            &mut self.slots,
            &mut self.values,
            instance,
            prices.slots.as_slice(),
        )?;
        let terms = kept_terms(alloc, values, &mut self.values, instance, cuts, prices)?;
        Ok(bound_of(instance, cuts, prices, terms))
    }
}
