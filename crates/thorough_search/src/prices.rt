//! Prices as they are advised, and as a climb reads them.

use advice::Ask;
use break_rules::NoMemory;
use head_splits::{CUT_PRICE_MAX, Prices};
use price_climb::Ranges;
use shift_tables::ShiftTables;
use std::alloc::Global;
use std::num::{
    nearest_i64_to_f64, nearest_u64_to_f64, saturating_f64_to_i64, saturating_f64_to_u64,
};

/// The scale of the prices that are advised.
pub(crate) const SCALE: u16 = 10_000;

/// The scale as a float.
const SCALE_FLOAT: f64 = 10000.0;

/// A price as a whole number, within what a slot's price may be.
fn whole(tables: &ShiftTables, price: f64) -> i64 {
    let scaled = (price * SCALE_FLOAT).round();
    let least = -tables.excess * SCALE_FLOAT;
    saturating_f64_to_i64(scaled.max(least).min(tables.shortage * SCALE_FLOAT))
}

/// The prices of the slots, rounded to whole numbers over the scale.
pub(crate) fn slot_prices(
    alloc: Global,
    tables: &ShiftTables,
    prices: &[f64],
) -> Result<Vec<i64>, NoMemory> {
    let mut list = Vec::with_capacity(alloc, tables.slots)?;
    for price in prices.iter().take(tables.slots) {
        list.push(whole(tables, *price))?;
    }
    Ok(list)
}

/// The prices of so many cuts, rounded to whole numbers over the scale: 0 but for those on duties of certain breaks, whose prices
/// stand behind those of the slots.
pub(crate) fn cut_prices(
    alloc: Global,
    tables: &ShiftTables,
    ranges: &Ranges,
    prices: &[f64],
    count: usize,
) -> Result<Vec<u64>, NoMemory> {
    let mut list = vec![in alloc; 0; count]?;
    for (cut, price) in ranges.fronts().iter().zip(prices.iter().skip(tables.slots)) {
        if let Some(place) = list.get_mut(cut.place) {
            *place = saturating_f64_to_u64((*price * SCALE_FLOAT).round()).min(CUT_PRICE_MAX);
        }
    }
    Ok(list)
}

/// The prices to begin with where nothing is known: what an employee too few costs in each slot with a need, and else 0.
fn first_prices(alloc: Global, tables: &ShiftTables) -> Result<Vec<f64>, NoMemory> {
    let mut list = Vec::with_capacity(alloc, tables.slots)?;
    for need in &tables.need {
        let price = if 0 < *need { tables.shortage } else { 0.0 };
        list.push(price)?;
    }
    Ok(list)
}

/// The prices of a hint as a climb reads them: those of the slots, and behind them those of the cuts on duties of certain breaks.
fn hinted_prices(
    alloc: Global,
    tables: &ShiftTables,
    ranges: &Ranges,
    hinted: &Prices,
) -> Result<Vec<f64>, NoMemory> {
    let scale = f64::from(hinted.q.max(1));
    let mut list = Vec::with_capacity(alloc, tables.slots)?;
    for price in hinted.slots.as_slice().iter().take(tables.slots) {
        list.push(nearest_i64_to_f64(*price) / scale)?;
    }
    list.resize(tables.slots, 0.0)?;
    for cut in ranges.fronts() {
        let price = hinted.cuts.as_slice().get(cut.place).copied();
        list.push(nearest_u64_to_f64(price.unwrap_or(0)) / scale)?;
    }
    Ok(list)
}

/// The prices to begin a climb with: the hint's below cuts, where it has some, and else the first ones.
pub(crate) fn begin_prices(
    alloc: Global,
    tables: &ShiftTables,
    ranges: &Ranges,
    ask: &Ask,
) -> Result<Vec<f64>, NoMemory> {
    match &ask.hint.prices {
        Some(hinted) if !ask.cuts.is_empty() => hinted_prices(alloc, tables, ranges, hinted),
        _ => first_prices(alloc, tables),
    }
}
