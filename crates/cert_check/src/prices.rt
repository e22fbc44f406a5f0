//! Whether prices are a price set for some cuts.

ghost use Rattle.std.specs.Prelude.{◌≡◌, length};
ghost use Rattle.std.specs.List.{list_all, zip};
ghost use Rattle.shift_instance.specs.Valid.{IsValid};
ghost use Rattle.head_splits.specs.Bound.{are_prices, is_cut_price, is_slot_price};

use bound_sums::{is_cut_price, is_slot_price};
use head_splits::{Cut, Cuts, Prices};
use shift_instance::Instance;

/// Whether the price of each slot keeps to its range.
fn are_slot_prices(instance: &Instance, q: u16, prices: &[i64]) -> bool
    ensures { result ≡ list_all (is_slot_price instance.now q) prices.now }
{
    let (excess, shortage, _) = instance.weights();
    prices
        .iter()
        .all(|price| is_slot_price(q, excess, shortage, *price))
}

/// Whether the price of each cut keeps to its range.
fn are_cut_prices(cuts: &[Cut], prices: &[u64]) -> bool
    requires { length prices.now ≡ length cuts.now }
    ensures { result ≡ list_all is_cut_price (zip cuts.now prices.now) }
{
    for (k, cut) in cuts.iter().enumerate() {
        if !is_cut_price(cut, prices[k]) {
            return false;
        }
    }
    true
}

/// Whether prices are a price set for some cuts: the scale, the number of the slots' prices and each one, and the number
/// of the cuts' prices and each one keep to their ranges. It takes no memory.
pub fn are_prices(instance: &Instance, cuts: &Cuts, prices: &Prices) -> bool
    ensures prices { result ≡ are_prices instance.now cuts.now prices.now }
    ensures valid { IsValid instance.now }
{
    let slots = instance.slots();
    let of_slots = prices.slots.as_slice();
    let of_cuts = prices.cuts.as_slice();
    if prices.q < 1 || 10_000 < prices.q || of_slots.len() != slots {
        return false;
    }
    if !are_slot_prices(instance, prices.q, of_slots) || of_cuts.len() != cuts.len() {
        return false;
    }
    are_cut_prices(cuts.as_slice(), of_cuts)
}
