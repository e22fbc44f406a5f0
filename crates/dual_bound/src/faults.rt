//! The faults of a price set, one after another.
ghost use Rattle.std.specs.Prelude.{◌≡◌, length};
ghost use Rattle.break_rules.specs.Causes.{first_cause};
ghost use Rattle.shift_instance.specs.Valid.{IsValid};
ghost use Rattle.dual_bound.specs.Faults.{size_causes, slot_causes, cut_causes, price_causes};

use crate::PriceFault;
use bound_sums::{is_cut_price, is_slot_price};
use head_splits::{Cut, Cuts, Prices};
use shift_instance::Instance;

/// The first fault of the scale and of the number of the slots' prices.
fn judge_sizes(instance: &Instance, prices: &Prices) -> Option<PriceFault>
    ensures fault { result ≡ first_cause (size_causes instance.now prices.now) }
    ensures valid { IsValid instance.now }
{
    let slots = instance.slots();
    if prices.q < 1 || 10_000 < prices.q {
        return Some(PriceFault::Scale);
    }
    if prices.slots.as_slice().len() != slots {
        return Some(PriceFault::SlotCount);
    }
    None
}

/// The first price outside its slot's range.
fn judge_slots(instance: &Instance, q: u16, prices: &[i64]) -> Option<PriceFault>
    ensures { result ≡ first_cause (slot_causes instance.now q prices.now) }
{
    let (excess, shortage, _) = instance.weights();
    for (slot, price) in prices.iter().enumerate() {
        if !is_slot_price(q, excess, shortage, *price) {
            return Some(PriceFault::SlotPrice { slot: slot as u64 });
        }
    }
    None
}

/// The first price outside its cut's range.
fn judge_cuts(cuts: &[Cut], prices: &[u64]) -> Option<PriceFault>
    requires { length prices.now ≡ length cuts.now }
    ensures { result ≡ first_cause (cut_causes cuts.now prices.now) }
{
    for (k, cut) in cuts.iter().enumerate() {
        if !is_cut_price(cut, prices[k]) {
            return Some(PriceFault::CutPrice { cut: k as u64 });
        }
    }
    None
}

/// The first fault of prices that are to be a price set for cuts.
pub fn first_fault(instance: &Instance, cuts: &Cuts, prices: &Prices) -> Option<PriceFault>
    ensures fault { result ≡ first_cause (price_causes instance.now cuts.now prices.now) }
    ensures valid { IsValid instance.now }
{
    match judge_sizes(instance, prices) {
        Some(fault) => return Some(fault),
        None => {}
    }
    match judge_slots(instance, prices.q, prices.slots.as_slice()) {
        Some(fault) => return Some(fault),
        None => {}
    }
    if prices.cuts.as_slice().len() != cuts.len() {
        return Some(PriceFault::CutCount);
    }
    judge_cuts(cuts.as_slice(), prices.cuts.as_slice())
}
