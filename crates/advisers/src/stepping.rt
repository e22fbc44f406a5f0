//! Prices after a step, by the solution that they choose.
ghost use Rattle.std.specs.Prelude.{◌≡◌, ℕ, ◌<◌, ◌≤◌, ◌+◌, ◌*◌, ◌^◌, pos, neg_ℤ, ◌+ℤ◌, ◌-ℤ◌, ◌*ℤ◌, IfOk, List, length, map, slice_index, if◌then◌else◌};
ghost use Rattle.std.specs.List.{zip};
ghost use Rattle.std.specs.Int.RustNames.{unsigned_abs};
ghost use Rattle.shift_instance.specs.declared.Duty.{Duty};
ghost use Rattle.shift_instance.specs.Problem.{below, shift_list, slots};
ghost use Rattle.shift_instance.specs.Rota.{cover, duty_of, rota_of, works};
ghost use Rattle.shift_instance.specs.Worth.{price_of};
ghost use Rattle.advisers.specs.Chosen.{AreRows, IsFor};
ghost use Rattle.advisers.specs.Subgradient.{brought_into, next_cut_price, next_prices, next_slot_price, stepped, target_at};

use crate::choosing::solution;
use break_rules::NoMemory;
use dual_bound::Pricer;
use head_splits::{CUT_PRICE_MAX, Cut, CutPrices, Cuts, Prices, Side, SlotPrices, duties_in_class};
use patterns::works;
use shift_instance::{Instance, Row};
use std::alloc::Global;

/// Adds so many duties like a row's to the counts of the slots in which they work.
fn add_duties(instance: &Instance, row: &Row, count: u32, counts: &mut [u32])
    requires shift { row.now.shift < length (shift_list instance.now) }
    requires count { count ≤ 65535 }
    requires slots { slots instance.now ≤ length counts.old }
    requires room { (t : ℕ) → t < slots instance.now → slice_index counts.old t ≤ 2 ^ 31 }
    ensures { (t : ℕ) → t < slots instance.now → slice_index counts.new t ≡ slice_index counts.old t + (if works instance.now (duty_of row.now) t then count else 0) }
{
    let len = instance.shift(row.shift).len;
    let rule = instance.rule_of(row.shift);
    for offset in 0..len {
        if works(rule, len, row.breaks.as_slice(), offset) {
            let slot = instance.slot_of(row.shift, row.day, offset);
            counts[slot] += count;
        }
    }
}

/// Counts the duties of the rows that work in each slot.
fn count_rows(instance: &Instance, rows: &[Row], counts: &mut [u32])
    requires rows { AreRows instance.now rows.now }
    requires slots { length counts.old ≡ slots instance.now }
    requires blank { (t : ℕ) → t < slots instance.now → slice_index counts.old t ≡ 0 }
    ensures { (t : ℕ) → t < slots instance.now → slice_index counts.new t ≡ cover instance.now (rota_of rows.now) t }
{
    for row in rows {
        add_duties(instance, row, u32::from(row.count), counts);
    }
}

/// How many duties of the rows work in each slot.
fn covers(alloc: Global, instance: &Instance, rows: &[Row]) -> Result<Vec<u32>, NoMemory>
    requires { AreRows instance.now rows.now }
    ensures slots { IfOk result (λ counts. length counts.items ≡ slots instance.now) }
    ensures cover { IfOk result (λ counts. (t : ℕ) → t < slots instance.now → slice_index counts.items t ≡ cover instance.now (rota_of rows.now) t) }
{
    let mut counts = vec![in alloc; 0u32; instance.slots()]?;
    count_rows(instance, rows, &mut counts);
    Ok(counts)
}

/// The number of a slot's band that its price moves towards, where that many duties of the solution work: the need for a price
/// above 0, the most wanted employees for one below 0, and for price 0 the number that is nearest to how many work.
fn target(instance: &Instance, t: usize, price: i64, working: u32) -> u32
    requires { t < slots instance.now }
    ensures { result ≡ target_at instance.now t price working }
{
    let (least, most) = (instance.need(t), instance.need_max(t));
    if 0 < price {
        least
    } else if price < 0 {
        most
    } else {
        working.max(least).min(most)
    }
}

/// A price that grew by the step for each employee too few, or fell by it for each one too many.
fn moved(price: i64, step: u16, target: u32, working: u32) -> i64
    requires { unsigned_abs price ≤ 10000000000 }
    ensures { result ≡ price +ℤ pos step *ℤ (pos target -ℤ pos working) }
{
    price + i64::from(step) * (i64::from(target) - i64::from(working))
}

/// A price brought into the range of a slot's prices, by a scale and the costs of an employee too many and too few.
fn in_range(price: i64, q: u16, excess: u32, shortage: u32) -> i64
    ensures { result ≡ brought_into (neg_ℤ (pos (q * excess))) (pos (q * shortage)) price }
{
    let q = i64::from(q);
    price.clamp(-(q * i64::from(excess)), q * i64::from(shortage))
}

/// The next price of a slot where that many duties of the solution work.
fn next_slot_price(
    instance: &Instance,
    q: u16,
    step: u16,
    t: usize,
    price: i64,
    working: u32,
) -> i64
    requires slot { t < slots instance.now }
    requires price { unsigned_abs price ≤ 10000000000 }
    ensures { (rota : List Duty) → working ≡ cover instance.now rota t → result ≡ next_slot_price instance.now q step rota t price }
{
    let (excess, shortage, _) = instance.weights();
    let target = target(instance, t, price, working);
    let price = moved(price, step, target, working);
    in_range(price, q, excess, shortage)
}

/// The next prices of the slots.
fn next_slot_prices(
    alloc: Global,
    instance: &Instance,
    step: u16,
    rows: &[Row],
    q: u16,
    prices: &[i64],
) -> Result<Vec<i64>, NoMemory>
    requires rows { AreRows instance.now rows.now }
    requires count { length prices.now ≡ slots instance.now }
    requires small { (t : ℕ) → unsigned_abs (price_of prices.now t) ≤ 10000000000 }
    ensures { IfOk result (λ next. next.items ≡ map (λ t. next_slot_price instance.now q step (rota_of rows.now) t (price_of prices.now t)) (below (slots instance.now))) }
{
    let counts = covers(alloc, instance, rows)?;
    let mut next = Vec::with_capacity(alloc, instance.slots())?;
    for t in 0..instance.slots() {
        next.push(next_slot_price(instance, q, step, t, prices[t], counts[t]))?;
    }
    Ok(next)
}

/// A cut's price after a step, before it is brought into its range from above.
fn stepped(side: Side, step: u16, m: u16, count: u64, price: u64) -> u64
    requires count { count ≤ 2 ^ 29 }
    requires price { price ≤ 1000000000000 }
    ensures { result ≡ stepped side step m count price }
{
    let wanted = u64::from(step) * u64::from(m);
    let had = u64::from(step) * count;
    match side {
        Side::AtLeast => (price + wanted).saturating_sub(had),
        Side::AtMost => (price + had).saturating_sub(wanted),
    }
}

/// The next price of a cut.
fn next_cut_price(step: u16, rows: &[Row], cut: &Cut, price: u64) -> u64
    requires few { length rows.now ≤ 7168 }
    requires price { price ≤ 1000000000000 }
    ensures { result ≡ next_cut_price step (rota_of rows.now) (cut.now, price) }
{
    if cut.class.prefix.as_slice().is_empty() {
        return price;
    }
    let count = duties_in_class(rows, &cut.class) as u64;
    stepped(cut.side, step, cut.m, count, price).min(CUT_PRICE_MAX)
}

/// The next prices of the cuts.
fn next_cut_prices(
    alloc: Global,
    step: u16,
    rows: &[Row],
    cuts: &[Cut],
    prices: &[u64],
) -> Result<Vec<u64>, NoMemory>
    requires few { length rows.now ≤ 7168 }
    requires count { length prices.now ≡ length cuts.now }
    requires small { (k : ℕ) → slice_index prices.now k ≤ 1000000000000 }
    ensures { IfOk result (λ next. next.items ≡ map (next_cut_price step (rota_of rows.now)) (zip cuts.now prices.now)) }
{
    let mut next = Vec::with_capacity(alloc, cuts.len())?;
    for (k, cut) in cuts.iter().enumerate() {
        next.push(next_cut_price(step, rows, cut, prices[k]))?;
    }
    Ok(next)
}

/// The prices after a step from those of a pricer.
pub(crate) fn next_prices(
    alloc: Global,
    instance: &Instance,
    cuts: &Cuts,
    step: u16,
    pricer: &Pricer,
) -> Result<Prices, NoMemory>
    requires { IsFor pricer.now instance.now cuts.now }
    ensures { IfOk result (λ next. next ≡ next_prices instance.now cuts.now step pricer.now.prices) }
{
    let chosen = solution(alloc, instance, cuts, pricer)?;
    let rows = chosen.as_slice();
    let prices = pricer.prices();
    let slots = next_slot_prices(
        alloc,
        instance,
        step,
        rows,
        prices.q,
        prices.slots.as_slice(),
    )?;
    let cuts = next_cut_prices(alloc, step, rows, cuts.as_slice(), prices.cuts.as_slice())?;
    Ok(Prices {
        q: prices.q,
        slots: SlotPrices::new(slots),
        cuts: CutPrices::new(cuts),
    })
}
