//! Tables of a shift on each day, kept while the prices of slots and cuts change.
ghost use Rattle.std.specs.Prelude.{◌≡◌, ◌<◌, ◌≤◌, ◌^◌, All, IfOk, OnOk, IsTrue, List, MatchOption, length, map, false};
ghost use Rattle.std.specs.Int.RustNames.{unsigned_abs};
ghost use Rattle.std.specs.List.{zip, enumerate_from};
ghost use Rattle.break_rules.specs.declared.Break.{Break};
ghost use Rattle.shift_instance.specs.Problem.{shift_list};
ghost use Rattle.shift_instance.specs.Rota.{is_list_of};
ghost use Rattle.shift_instance.specs.Valid.{IsValid};
ghost use Rattle.shift_instance.specs.Worth.{IsBest};
ghost use Rattle.head_splits.specs.Bound.{are_prices, entries_of};
ghost use Rattle.price_sums.specs.Along.{AreSmallPrices};
ghost use Rattle.pricing.specs.Tables.{MeanTheSame};
ghost use Rattle.dual_bound.specs.KeptTables.{AreAllKept, AreAllTables, AreKept, AreTablesAt, IsAt, IsKept, have_prefix, place_of};

use crate::best_lists::entries;
use bound_sums::has_prefix_cut;
use break_rules::{Breaks, NoMemory};
use head_splits::{Cuts, Prices};
use pricing::{Steps, Tables};
use shift_instance::Instance;
use std::alloc::Global;
use std::sync::ledger::Ledger;

/// Tables of a shift on a day, with the prefixes and the signed prices of the cuts that they were made for.
#[derive(Drop)]
pub(crate) struct DayTables {
    /// The number of the shift.
    pub(crate) shift: u16,
    /// The day.
    pub(crate) day: u8,
    /// The prefixes of the cuts, each with its signed price.
    pub(crate) entries: Vec<(Breaks, i64)>,
    /// The tables.
    pub(crate) tables: Tables,
}

/// The prefixes of the cuts of a shift on a day, each with its signed price.
fn day_entries(
    alloc: Global,
    instance: &Instance,
    cuts: &Cuts,
    prices: &Prices,
    shift: u16,
    day: u8,
) -> Result<Vec<(Breaks, i64)>, NoMemory>
    requires few { length cuts.now ≤ 2 ^ 33 }
    requires passes { IsTrue (are_prices instance.now cuts.now prices.now) }
    ensures entries { IfOk result (λ list. list.items ≡ entries_of (zip cuts.now prices.now.cuts) shift day) }
    ensures few { IfOk result (λ list. length list.items ≤ 2 ^ 33) }
    ensures small { IfOk result (λ list. All (λ e. unsigned_abs e.1 ≤ 1000000000000) list.items) }
{
    let _ = instance;
    entries(alloc, cuts.as_slice(), prices.cuts.as_slice(), shift, day)
}

/// Whether two lists of entries are the same. It may only say so where they are.
fn are_same(kept: &[(Breaks, i64)], entries: &[(Breaks, i64)]) -> bool
    ensures { IsTrue result → kept.now ≡ entries.now }
{
    if kept.len() != entries.len() {
        return false;
    }
    for (k, entry) in kept.iter().enumerate() {
        if entry.1 != entries[k].1 || !entry.0.is_same(&entries[k].0) {
            return false;
        }
    }
    true
}

/// The changes of prices that give these: all of them, as kept tables may stand at different prices after a refusal.
pub(crate) fn changes_to(alloc: Global, prices: &[i64]) -> Result<Vec<(u32, i64)>, NoMemory>
    requires count { length prices.now < 4294967296 }
    requires small { AreSmallPrices prices.now }
    ensures { IfOk result (λ changes. changes.items ≡ enumerate_from 0 prices.now) }
{
    let mut changes = Vec::with_capacity(alloc, prices.len())?;
    for (slot, price) in prices.iter().enumerate() {
        changes.push((slot as u32, *price))?;
    }
    Ok(changes)
}

impl DayTables {
    /// The tables of a shift on a day at some prices.
    fn new<L: Ledger>(
        alloc: Global,
        instance: &Instance,
        cuts: &Cuts,
        prices: &Prices,
        shift: u16,
        day: u8,
        steps: &mut Steps<L>,
    ) -> Result<DayTables, NoMemory>
        requires valid { IsValid instance.now }
        requires shift { shift < length (shift_list instance.now) }
        requires few { length cuts.now ≤ 2 ^ 33 }
        requires passes { IsTrue (are_prices instance.now cuts.now prices.now) }
        ensures place { IfOk result (λ t. place_of t ≡ (shift, day)) }
        ensures kept { IfOk result (IsKept instance.now) }
        ensures at { IfOk result (IsAt cuts.now prices.now) }
    {
        let entries = day_entries(alloc, instance, cuts, prices, shift, day)?;
        let slots = prices.slots.as_slice();
        let tables = Tables::new(
            alloc,
            instance,
            shift,
            day,
            slots,
            entries.as_slice(),
            steps,
        )?;
        Ok(DayTables {
            shift,
            day,
            entries,
            tables,
        })
    }

    /// Brings the tables to other prices. They are made anew where the price of a cut of the shift on the day changed.
    fn reprice<L: Ledger>(
        &mut self,
        alloc: Global,
        instance: &Instance,
        cuts: &Cuts,
        prices: &Prices,
        changes: &[(u32, i64)],
        steps: &mut Steps<L>,
    ) -> Result<(), NoMemory>
        requires valid { IsValid instance.now }
        requires few { length cuts.now ≤ 2 ^ 33 }
        requires passes { IsTrue (are_prices instance.now cuts.now prices.now) }
        requires changes { changes.now ≡ enumerate_from 0 prices.now.slots }
        requires kept { IsKept instance.now self.old }
        ensures place { place_of self.new ≡ place_of self.old }
        ensures kept { IsKept instance.now self.new }
        ensures at { OnOk result (IsAt cuts.now prices.now self.new) }
    {
        let (shift, day) = (self.shift, self.day);
        let entries = day_entries(alloc, instance, cuts, prices, shift, day)?;
        if are_same(self.entries.as_slice(), entries.as_slice()) {
            self.tables.reprice(instance, changes, steps)?;
            return Ok(());
        }
        *self = DayTables::new(alloc, instance, cuts, prices, shift, day, steps)?;
        Ok(())
    }
}

/// The best list of tables with its value, and `None` where no list is legal.
pub(crate) fn best_of_tables(
    alloc: Global,
    day: &DayTables,
) -> Result<Option<(Breaks, i128)>, NoMemory>
    requires { MeanTheSame day.now.tables.bonus day.now.entries.items }
    ensures { IfOk result (λ found. MatchOption found ((list : List Break) → is_list_of day.now.tables.instance day.now.tables.shift list ≡ false) (λ b. IsBest day.now.tables.instance day.now.tables.shift day.now.tables.day day.now.tables.prices day.now.entries.items b.0 b.1)) }
{
    match day.tables.best() {
        Some((list, value)) => {
            let copy = Vec::from_slice(alloc, list)?;
            Ok(Some((Breaks::new(copy), value)))
        }
        None => Ok(None),
    }
}

/// The tables of a shift on all days at some prices.
fn shift_tables<L: Ledger>(
    alloc: Global,
    instance: &Instance,
    cuts: &Cuts,
    prices: &Prices,
    shift: u16,
    steps: &mut Steps<L>,
) -> Result<Vec<DayTables>, NoMemory>
    requires valid { IsValid instance.now }
    requires shift { shift < length (shift_list instance.now) }
    requires few { length cuts.now ≤ 2 ^ 33 }
    requires passes { IsTrue (are_prices instance.now cuts.now prices.now) }
    ensures kept { IfOk result (λ tables. AreKept instance.now shift instance.now.days tables.items) }
    ensures at { IfOk result (λ tables. AreTablesAt instance.now cuts.now prices.now shift tables.items) }
{
    let days = instance.days();
    let mut tables = Vec::with_capacity(alloc, usize::from(days))?;
    for day in 0..days {
        tables.push(DayTables::new(alloc, instance, cuts, prices, shift, day, steps)?)?;
    }
    Ok(tables)
}

/// Whether tables are kept of a shift: where some cut bounds duties of it that begin with some break, and the instance keeps its
/// graph.
fn keeps_tables(instance: &Instance, cuts: &Cuts, shift: u16) -> bool
    requires { shift < length (shift_list instance.now) }
    ensures { IsTrue result → IsTrue (have_prefix cuts.now shift) }
{
    has_prefix_cut(cuts, shift) && instance.graph(shift).is_some()
}

/// The tables of all shifts at some prices. A shift has none where no cut bounds duties of it that begin with some break, or where
/// the instance keeps no graph of it.
pub(crate) fn kept_tables<L: Ledger>(
    alloc: Global,
    instance: &Instance,
    cuts: &Cuts,
    prices: &Prices,
    steps: &mut Steps<L>,
) -> Result<Vec<Vec<DayTables>>, NoMemory>
    requires valid { IsValid instance.now }
    requires few { length cuts.now ≤ 2 ^ 33 }
    requires passes { IsTrue (are_prices instance.now cuts.now prices.now) }
    ensures kept { IfOk result (λ tables. AreAllKept instance.now tables.items) }
    ensures at { IfOk result (λ tables. AreAllTables instance.now cuts.now prices.now tables.items) }
{
    let mut all = Vec::with_capacity(alloc, instance.shifts().len())?;
    for shift in 0..instance.shifts().len() as u16 {
        let tables = if keeps_tables(instance, cuts, shift) {
            shift_tables(alloc, instance, cuts, prices, shift, steps)?
        } else {
            Vec::new(alloc)
        };
        all.push(tables)?;
    }
    Ok(all)
}

/// Brings the tables of a shift to other prices. After running out of memory some may have been brought there.
fn reprice_days<L: Ledger>(
    days: &mut [DayTables],
    alloc: Global,
    instance: &Instance,
    cuts: &Cuts,
    prices: &Prices,
    changes: &[(u32, i64)],
    steps: &mut Steps<L>,
) -> Result<(), NoMemory>
    requires valid { IsValid instance.now }
    requires few { length cuts.now ≤ 2 ^ 33 }
    requires passes { IsTrue (are_prices instance.now cuts.now prices.now) }
    requires changes { changes.now ≡ enumerate_from 0 prices.now.slots }
    requires kept { All (IsKept instance.now) days.old }
    ensures places { map place_of days.new ≡ map place_of days.old }
    ensures kept { All (IsKept instance.now) days.new }
    ensures at { OnOk result (All (IsAt cuts.now prices.now) days.new) }
{
    for day in days.iter_mut() {
        day.reprice(alloc, instance, cuts, prices, changes, steps)?;
    }
    Ok(())
}

/// Brings the tables of all shifts to other prices. After running out of memory some may have been brought there.
pub(crate) fn reprice_tables<L: Ledger>(
    all: &mut [Vec<DayTables>],
    alloc: Global,
    instance: &Instance,
    cuts: &Cuts,
    prices: &Prices,
    changes: &[(u32, i64)],
    steps: &mut Steps<L>,
) -> Result<(), NoMemory>
    requires valid { IsValid instance.now }
    requires few { length cuts.now ≤ 2 ^ 33 }
    requires passes { IsTrue (are_prices instance.now cuts.now prices.now) }
    requires changes { changes.now ≡ enumerate_from 0 prices.now.slots }
    requires kept { AreAllKept instance.now all.old }
    ensures kept { AreAllKept instance.now all.new }
    ensures at { OnOk result (AreAllTables instance.now cuts.now prices.now all.new) }
{
    for days in all.iter_mut() {
        reprice_days(days, alloc, instance, cuts, prices, changes, steps)?;
    }
    Ok(())
}
