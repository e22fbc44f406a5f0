//! The values of the duties of shifts, by pricing.
ghost use Rattle.std.specs.Prelude.{◌≡◌, ◌≤◌, ◌<◌, ◌^◌, List, false, IfOk, MatchOption, IsTrue, length};
ghost use Rattle.std.specs.Option.{option_map};
ghost use Rattle.break_rules.specs.declared.Break.{Break};
ghost use Rattle.shift_instance.specs.Problem.{shift_list};
ghost use Rattle.shift_instance.specs.Rota.{is_list_of, lists_of};
ghost use Rattle.shift_instance.specs.Valid.{IsValid};
ghost use Rattle.head_splits.specs.Bound.{are_prices, bound_of, is_nil};
ghost use Rattle.pricing.specs.Days.{AreMostByDay};
ghost use Rattle.bound_sums.specs.Values.{AreValues, IsValue};

use crate::best_lists::best_of_day;
use bound_sums::{DayValues, KeptValues, has_prefix_cut, values_of_lane};
use break_rules::{Breaks, NoMemory};
use head_splits::{Cuts, Prices};
use price_sums::{DaySums, LANES, Lane};
use pricing::most_by_day;
use shift_instance::Instance;
use std::alloc::Global;

/// The value of what was found.
fn value_of(found: Option<(Breaks, i128)>) -> Option<i128>
    ensures { result ≡ option_map (λ p. p.1) found }
{
    match found {
        Some((_, value)) => Some(value),
        None => None,
    }
}

/// The greatest reduced value of a duty of a shift on a day, and `None` where no break list is legal.
fn best_value(
    alloc: Global,
    instance: &Instance,
    cuts: &Cuts,
    prices: &Prices,
    shift: u16,
    day: u8,
) -> Result<Option<i128>, NoMemory>
    requires valid { IsValid instance.now }
    requires shift { shift < length (shift_list instance.now) }
    requires few { length cuts.now ≤ 2 ^ 33 }
    requires passes { IsTrue (are_prices instance.now cuts.now prices.now) }
    ensures { IfOk result (λ found. MatchOption found (IsTrue (is_nil (lists_of instance.now shift))) (IsValue instance.now cuts.now prices.now shift day)) }
{
    let found = best_of_day(alloc, instance, cuts, prices, shift, day)?;
    Ok(value_of(found))
}

/// The greatest reduced values of the duties of a shift on the first days, each at the place of its day and by the best break
/// list of it, and `None` only where no break list is legal.
fn values_by_lists(
    alloc: Global,
    instance: &Instance,
    cuts: &Cuts,
    prices: &Prices,
    shift: u16,
    days: u8,
) -> Result<Option<[i128; LANES]>, NoMemory>
    requires valid { IsValid instance.now }
    requires days { days ≤ 8 }
    requires shift { shift < length (shift_list instance.now) }
    requires few { length cuts.now ≤ 2 ^ 33 }
    requires passes { IsTrue (are_prices instance.now cuts.now prices.now) }
    ensures { IfOk result (λ found. MatchOption found (IsTrue (is_nil (lists_of instance.now shift))) (AreValues instance.now cuts.now prices.now shift days)) }
{
    let mut values = [0; LANES];
    for day in 0..days {
        let value = match best_value(alloc, instance, cuts, prices, shift, day)? {
            Some(value) => value,
            None => return Ok(None),
        };
        values[usize::from(day)] = value;
    }
    Ok(Some(values))
}

/// What the best duties of a shift earn at the prices that the sums are of, each at the place of its day, and `None` where no
/// break list is legal. All days are priced in one walk.
fn values_by_walk(
    alloc: Global,
    instance: &Instance,
    shift: u16,
    sums: &DaySums,
    lanes: &mut Vec<Lane>,
) -> Result<Option<[i128; LANES]>, NoMemory>
    requires valid { IsValid instance.now }
    requires shift { shift < length (shift_list instance.now) }
    requires sums { sums.now.instance ≡ instance.now }
    ensures { IfOk result (λ found. MatchOption found ((list : List Break) → is_list_of instance.now shift list ≡ false) (AreMostByDay instance.now shift sums.now.prices instance.now.days)) }
{
    match most_by_day(alloc, instance, shift, sums, lanes)? {
        Some(most) => Ok(Some(values_of_lane(&most))),
        None => Ok(None),
    }
}

/// The greatest reduced values of the duties of a shift, each at the place of its day, and `None` where no break list is legal. The
/// sums are those of the slots' prices. Where no cut bounds duties of the shift that begin with some break, all days are priced in
/// one walk, and otherwise each by its best break list.
fn best_values(
    alloc: Global,
    instance: &Instance,
    cuts: &Cuts,
    prices: &Prices,
    sums: &DaySums,
    shift: u16,
    lanes: &mut Vec<Lane>,
) -> Result<Option<[i128; LANES]>, NoMemory>
    requires shift { shift < length (shift_list instance.now) }
    requires few { length cuts.now ≤ 2 ^ 33 }
    requires passes { IsTrue (are_prices instance.now cuts.now prices.now) }
    requires sums { sums.now ≡ record { instance = instance.now; prices = prices.now.slots } }
    ensures values { IfOk result (λ found. MatchOption found (IsTrue (is_nil (lists_of instance.now shift))) (AreValues instance.now cuts.now prices.now shift instance.now.days)) }
{
    let days = instance.days();
    if has_prefix_cut(cuts, shift) {
        return values_by_lists(alloc, instance, cuts, prices, shift, days);
    }
    values_by_walk(alloc, instance, shift, sums, lanes)
}

/// The values of duties by pricing, at slot prices with these sums, and lanes whose memory is used for each shift.
#[derive(Drop)]
struct ByPricing {
    sums: DaySums,
    lanes: Vec<Lane>,
}

impl DayValues for ByPricing {
    ghost use Rattle.std.specs.Prelude.{◌≡◌};

    ghost serves = { λ values i _ prices. values.sums ≡ record { instance = i; prices = prices.slots } };

    fn of_shift(
        &mut self,
        alloc: Global,
        instance: &Instance,
        cuts: &Cuts,
        prices: &Prices,
        shift: u16,
    ) -> Result<Option<[i128; LANES]>, NoMemory> {
        best_values(
            alloc,
            instance,
            cuts,
            prices,
            &self.sums,
            shift,
            &mut self.lanes,
        )
    }
}

/// The bound of a price set, with the values of duties that are kept, and the others by pricing. The memory of the lanes is used,
/// and serves again.
pub(crate) fn bound_by_pricing(
    alloc: Global,
    kept: &mut KeptValues,
    instance: &Instance,
    cuts: &Cuts,
    prices: &Prices,
    lanes: &mut Vec<Lane>,
) -> Result<u64, NoMemory>
    requires valid { IsValid instance.now }
    requires instance { kept.old ≡ instance.now }
    requires few { length cuts.now ≤ 2 ^ 33 }
    requires passes { IsTrue (are_prices instance.now cuts.now prices.now) }
    ensures bound { IfOk result (λ b. b ≡ bound_of instance.now cuts.now prices.now) }
    ensures instance { kept.new ≡ kept.old }
{
    let sums = DaySums::new(alloc, instance, prices.slots.as_slice())?;
    let mut values = ByPricing {
        sums,
        lanes: std::mem::replace(lanes, Vec::new(alloc)),
    };
    let bound = kept.bound_by(alloc, &mut values, instance, cuts, prices);
    *lanes = values.lanes;
    bound
}
