//! The total of a price set, and the bound that it gives.
ghost use Rattle.std.specs.Prelude.{◌≡◌, ℕ, ◌≤◌, ◌<◌, ◌^◌, IsTrue, length, min, pos, ◌*ℤ◌, slice_index};
ghost use Rattle.std.specs.List.{zip};
ghost use Rattle.std.specs.Int.RustNames.{unsigned_abs};
ghost use Rattle.break_rules.specs.Sums.{int_sum_by, rounded_up};
ghost use Rattle.shift_instance.specs.Problem.{below, shift_list, slots};
ghost use Rattle.shift_instance.specs.Worth.{price_of};
ghost use Rattle.shift_instance.specs.Valid.{IsValid};
ghost use Rattle.head_splits.specs.Bound.{are_prices, bound_of, cut_worth, term, total, wanted_at, worth_at};

use crate::prices::signed_price;
use head_splits::{Cut, Cuts, Prices};
use shift_instance::{Instance, TOP};

/// The wanted employees of a slot for which a price counts: the most of them where it is below 0, and else the need.
fn wanted(instance: &Instance, t: usize, price: i64) -> u32
    requires { t < slots instance.now }
    ensures wanted { result ≡ wanted_at instance.now t price }
    ensures limit { result ≤ 10000 }
{
    if price < 0 {
        instance.need_max(t)
    } else {
        instance.need(t)
    }
}

/// What a price is worth at a number of employees.
fn worth_of(price: i64, number: u32) -> i128
    requires price { unsigned_abs price ≤ 10000000000 }
    requires number { number ≤ 10000 }
    ensures worth { result ≡ price *ℤ pos number }
    ensures small { unsigned_abs result ≤ 10 ^ 14 }
{
    i128::from(price) * i128::from(number)
}

/// What a price is worth at a slot.
fn slot_worth(instance: &Instance, t: usize, price: i64) -> i128
    requires slot { t < slots instance.now }
    requires price { unsigned_abs price ≤ 10000000000 }
    ensures worth { result ≡ worth_at instance.now t price }
    ensures small { unsigned_abs result ≤ 10 ^ 14 }
{
    worth_of(price, wanted(instance, t, price))
}

/// What the slots' prices are worth.
fn slots_worth(instance: &Instance, prices: &[i64]) -> i128
    requires valid { IsValid instance.now }
    requires count { length prices.now ≡ slots instance.now }
    requires small { (t : ℕ) → unsigned_abs (price_of prices.now t) ≤ 10000000000 }
    ensures worth { result ≡ int_sum_by (λ t. worth_at instance.now t (price_of prices.now t)) (below (slots instance.now)) }
    ensures small { unsigned_abs result ≤ 2 ^ 60 }
{
    let mut sum = 0;
    for (t, price) in prices.iter().enumerate() {
        sum += slot_worth(instance, t, *price);
    }
    sum
}

/// What a number of duties is worth at a signed price.
fn number_worth(price: i64, number: u16) -> i128
    requires { unsigned_abs price ≤ 1000000000000 }
    ensures worth { result ≡ price *ℤ pos number }
    ensures small { unsigned_abs result ≤ 2 ^ 56 }
{
    i128::from(price) * i128::from(number)
}

/// What a cut's price is worth at the cut's number.
fn cut_worth(cut: &Cut, price: u64) -> i128
    requires { price ≤ 1000000000000 }
    ensures worth { result ≡ cut_worth (cut.now, price) }
    ensures small { unsigned_abs result ≤ 2 ^ 56 }
{
    number_worth(signed_price(cut.side, price), cut.m)
}

/// What the cuts' prices are worth at the cuts' numbers.
fn cuts_worth(cuts: &[Cut], prices: &[u64]) -> i128
    requires count { length prices.now ≡ length cuts.now }
    requires few { length cuts.now ≤ 2 ^ 33 }
    requires small { (k : ℕ) → slice_index prices.now k ≤ 1000000000000 }
    ensures worth { result ≡ int_sum_by cut_worth (zip cuts.now prices.now) }
    ensures small { unsigned_abs result ≤ 2 ^ 90 }
{
    let mut sum = 0;
    for (k, cut) in cuts.iter().enumerate() {
        sum += cut_worth(cut, prices[k]);
    }
    sum
}

/// The total of a price set, by the sum of the terms of all shifts.
fn total(instance: &Instance, cuts: &Cuts, prices: &Prices, terms: i128) -> i128
    requires valid { IsValid instance.now }
    requires few { length cuts.now ≤ 2 ^ 33 }
    requires passes { IsTrue (are_prices instance.now cuts.now prices.now) }
    requires terms { terms ≡ int_sum_by (term instance.now cuts.now prices.now) (below (length (shift_list instance.now))) }
    requires small { unsigned_abs terms ≤ 2 ^ 104 }
    ensures total { result ≡ total instance.now cuts.now prices.now }
    ensures small { unsigned_abs result ≤ 2 ^ 110 }
{
    let slots = slots_worth(instance, prices.slots.as_slice());
    let cuts = cuts_worth(cuts.as_slice(), prices.cuts.as_slice());
    slots + cuts + terms
}

/// The least whole number that, times the scale, is no less than a total, and `TOP` where that is greater.
fn rounded(q: u16, total: i128) -> u64
    requires scale { 1 ≤ q }
    requires small { unsigned_abs total ≤ 2 ^ 110 }
    ensures { result ≡ min TOP (rounded_up q total) }
{
    if total <= 0 {
        return 0;
    }
    let least = (total.unsigned_abs() + u128::from(q - 1)) / u128::from(q);
    least.min(u128::from(TOP)) as u64
}

/// The bound of a price set, by the sum of the terms of all shifts.
pub(crate) fn bound_of(instance: &Instance, cuts: &Cuts, prices: &Prices, terms: i128) -> u64
    requires valid { IsValid instance.now }
    requires few { length cuts.now ≤ 2 ^ 33 }
    requires passes { IsTrue (are_prices instance.now cuts.now prices.now) }
    requires terms { terms ≡ int_sum_by (term instance.now cuts.now prices.now) (below (length (shift_list instance.now))) }
    requires small { unsigned_abs terms ≤ 2 ^ 104 }
    ensures { result ≡ bound_of instance.now cuts.now prices.now }
{
    rounded(prices.q, total(instance, cuts, prices, terms))
}
