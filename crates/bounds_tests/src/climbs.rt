//! Climbs, and what the prices prove that they end at.
ghost use Rattle.std.specs.Prelude.{◌≤◌, length};

use crate::days::{BANDED, LONG, first_break};
use advice::Never;
use break_rules::NoMemory;
use dual_bound::prove;
use fixtures::instance_of;
use head_splits::{Cut, CutPrices, Cuts, Prices, SlotPrices};
use instance_json::generate;
use price_climb::{Climb, Limits, Ranges};
use shift_instance::Instance;
use shift_tables::ShiftTables;
use std::alloc::Global;
use std::num::{nearest_u64_to_f64, saturating_f64_to_i64, saturating_f64_to_u64};
use std::test::Fail;

/// What a climb gives: the value, and the bound that its prices prove, rounded to whole numbers over 10,000.
#[derive(Clone, Copy)]
struct Climbed {
    value: f64,
    bound: u64,
}

/// The prices of so many hours, and behind them those of cuts, in whole numbers over 10,000.
fn whole(alloc: Global, hours: usize, prices: &[f64]) -> Result<Prices, NoMemory> {
    let mut slots = Vec::new(alloc);
    let mut cuts = Vec::new(alloc);
    for (place, price) in prices.iter().enumerate() {
        let scaled = (*price * 10000.0).round();
        if place < hours {
            slots.push(saturating_f64_to_i64(scaled))?;
        } else {
            cuts.push(saturating_f64_to_u64(scaled))?;
        }
    }
    Ok(Prices {
        q: 10_000,
        slots: SlotPrices::new(slots),
        cuts: CutPrices::new(cuts),
    })
}

/// A climb of some rounds below some cuts, from the greatest price of each hour on: the value, and the best prices.
fn climb_in(
    alloc: Global,
    tables: &ShiftTables,
    cuts: &[Cut],
    rounds: u32,
) -> Result<(f64, Vec<f64>), NoMemory> {
    let ranges = Ranges::new(alloc, tables, cuts)?;
    let start = vec![in alloc; tables.shortage; tables.slots]?;
    let limits = Limits {
        rounds,
        goal: 1000000.0,
        stalls: 8,
        step: 0.1,
    };
    let mut climb = Climb::new(alloc, tables)?;
    let value = climb.climb(tables, &ranges, &start, limits, &Never)?;
    Ok((value, Vec::from_slice(alloc, climb.best())?))
}

/// The value and the prices of a climb of some rounds below some cuts.
fn prices_of(
    alloc: Global,
    instance: &Instance,
    cuts: &[Cut],
    rounds: u32,
) -> Result<(f64, Prices), NoMemory> {
    let tables = ShiftTables::new(alloc, instance)?;
    let (value, best) = climb_in(alloc, &tables, cuts, rounds)?;
    Ok((value, whole(alloc, tables.slots, &best)?))
}

/// A climb of some rounds below some cuts.
fn climb(alloc: Global, instance: &Instance, cuts: Cuts, rounds: u32) -> Result<Climbed, Fail>
    requires { length cuts ≤ 1 }
{
    let (value, prices) = prices_of(alloc, instance, cuts.as_slice(), rounds)?;
    let bound = prove(alloc, instance, cuts, prices)?.bound();
    Ok(Climbed { value, bound })
}

/// A climb on a day below a cut to at least one duty whose break lies at this offset.
fn below(alloc: Global, day: &str, start: u16) -> Result<Climbed, Fail> {
    let instance = instance_of(alloc, day)?;
    climb(alloc, &instance, first_break(alloc, start)?, 40)
}

/// A climb on an instance of many shifts.
fn generated(alloc: Global, number: u32) -> Result<Climbed, Fail> {
    let instance = generate(alloc, number)?;
    climb(alloc, &instance, Cuts::new(Vec::new(alloc)), 40)
}

impl Climbed {
    /// Whether the bound is the value, rounded up, but for what the rounding of prices takes.
    fn is_proved(self) -> bool {
        let bound = nearest_u64_to_f64(self.bound);
        self.value - 0.05 <= bound && bound <= self.value + 1.05
    }
}

// The best break, from 11 to 12, costs nothing. One from 10 to 11 leaves nobody there, and one employee too many from 11 on.
#[test]
fn a_cut_on_a_break_has_a_price(rt: HostRuntime) -> Result<(), Fail> {
    let best = below(rt.alloc(), LONG, 3)?;
    assert_eq!(rt; (best.value, best.bound), (3.0, 3));
    let other = below(rt.alloc(), LONG, 2)?;
    assert!(rt; other.is_proved());
    assert_eq!(rt; other.bound, 6);
    Ok(())
}

// With its break from 10 to 11 the one duty leaves nobody there and is within the band from 11 on: that plan costs 5.
#[test]
fn a_cut_within_a_band_has_a_price(rt: HostRuntime) -> Result<(), Fail> {
    let best = below(rt.alloc(), BANDED, 3)?;
    assert_eq!(rt; (best.value, best.bound), (3.0, 3));
    let other = below(rt.alloc(), BANDED, 2)?;
    assert!(rt; other.is_proved());
    assert!(rt; other.bound <= 5);
    assert!(rt; 3 < other.bound);
    Ok(())
}

#[test]
fn values_are_what_prices_prove(rt: HostRuntime) -> Result<(), Fail> {
    for number in 0..4 {
        let found = generated(rt.alloc(), number)?;
        assert!(rt; found.is_proved(), "of instance {number}");
    }
    Ok(())
}
