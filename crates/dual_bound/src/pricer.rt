//! Prices with the best break lists at them, kept while the prices change.
ghost use Rattle.std.specs.Prelude.{◌≡◌, ◌≤◌, ◌<◌, ◌^◌, ℕ, All, IfOk, OnOk, OnErr, IsTrue, List, MatchOption, MatchResult, None, Some, false, length, pos, slice_index_or};
ghost use Rattle.break_rules.specs.declared.Break.{Break};
ghost use Rattle.break_rules.specs.Causes.{first_cause};
ghost use Rattle.shift_instance.specs.Problem.{shift_list};
ghost use Rattle.shift_instance.specs.Rota.{is_list_of, lists_of};
ghost use Rattle.shift_instance.specs.Valid.{IsValid};
ghost use Rattle.head_splits.specs.Bound.{are_prices, bound_of, is_nil};
ghost use Rattle.pricing.specs.Days.{AreBestByDay, best_at};
ghost use Rattle.dual_bound.specs.BestLists.{IsBestOn};
ghost use Rattle.dual_bound.specs.Faults.{Answers, price_causes};
ghost use Rattle.dual_bound.specs.KeptTables.{AreAllKept, AreAllTables, AreKeptOrNone, AreTablesAt, IsAt};
ghost use Rattle.dual_bound.specs.Pricer.{AreAllBests, AreBests, AreBestsOf, IsPriced};

use crate::PriceFault;
use crate::best_lists::best_of_day;
use crate::day_tables::{DayTables, best_of_tables, changes_to, kept_tables, reprice_tables};
use crate::faults::first_fault;
use bound_sums::{DayValues, bound_by, has_prefix_cut};
use break_rules::{Break, Breaks, NoMemory, Sequence};
use head_splits::{Cuts, Prices};
use price_sums::{DaySums, LANES};
use pricing::{Steps, best_by_day};
use shift_instance::Instance;
use std::alloc::Global;
use std::marker::Model;
use std::snapshot::Snapshot;
use std::sync::ledger::Ledger;

/// The best break lists of a shift, day by day, each with its reduced value.
type ShiftBests = Sequence<(Breaks, i128)>;

/// The best break lists of all shifts, one shift after another, with `None` where no list is legal.
#[derive(Drop)]
struct Bests {
    shifts: Vec<Option<ShiftBests>>,
}

/// The best break lists of a shift on all days, each by the tables of its day, and `None` only where no list is legal.
fn bests_by_tables(
    alloc: Global,
    instance: &Instance,
    cuts: &Cuts,
    prices: &Prices,
    shift: u16,
    tables: &[DayTables],
) -> Result<Option<ShiftBests>, NoMemory>
    requires valid { IsValid instance.now }
    requires shift { shift < length (shift_list instance.now) }
    requires few { length cuts.now ≤ 2 ^ 33 }
    requires passes { IsTrue (are_prices instance.now cuts.now prices.now) }
    requires tables { AreTablesAt instance.now cuts.now prices.now shift tables.now }
    ensures { IfOk result (λ found. MatchOption found (IsTrue (is_nil (lists_of instance.now shift))) (AreBests instance.now cuts.now prices.now shift instance.now.days)) }
{
    let mut bests = Vec::with_capacity(alloc, tables.len())?;
    for day in tables {
        let best = match best_of_tables(alloc, day)? {
            Some(best) => best,
            None => return Ok(None),
        };
        bests.push(best)?;
    }
    Ok(Some(Sequence::new(bests)))
}

/// The best break lists of a shift on the first days, each by a search of its own, and `None` only where no list is legal.
fn bests_by_lists(
    alloc: Global,
    instance: &Instance,
    cuts: &Cuts,
    prices: &Prices,
    shift: u16,
    days: u8,
) -> Result<Option<ShiftBests>, NoMemory>
    requires valid { IsValid instance.now }
    requires shift { shift < length (shift_list instance.now) }
    requires few { length cuts.now ≤ 2 ^ 33 }
    requires passes { IsTrue (are_prices instance.now cuts.now prices.now) }
    ensures { IfOk result (λ found. MatchOption found (IsTrue (is_nil (lists_of instance.now shift))) (AreBests instance.now cuts.now prices.now shift days)) }
{
    let mut bests = Vec::with_capacity(alloc, usize::from(days))?;
    for day in 0..days {
        let best = match best_of_day(alloc, instance, cuts, prices, shift, day)? {
            Some(best) => best,
            None => return Ok(None),
        };
        bests.push(best)?;
    }
    Ok(Some(Sequence::new(bests)))
}

/// The best break lists of a shift on all days, where some cut bounds duties of it that begin with some break: by its tables, if
/// it has some, and else each by a search of its own.
fn bests_with_prefixes(
    alloc: Global,
    instance: &Instance,
    cuts: &Cuts,
    prices: &Prices,
    shift: u16,
    tables: &[DayTables],
) -> Result<Option<ShiftBests>, NoMemory>
    requires valid { IsValid instance.now }
    requires shift { shift < length (shift_list instance.now) }
    requires few { length cuts.now ≤ 2 ^ 33 }
    requires passes { IsTrue (are_prices instance.now cuts.now prices.now) }
    requires kept { AreKeptOrNone instance.now shift tables.now }
    requires at { All (IsAt cuts.now prices.now) tables.now }
    ensures { IfOk result (λ found. MatchOption found (IsTrue (is_nil (lists_of instance.now shift))) (AreBests instance.now cuts.now prices.now shift instance.now.days)) }
{
    let days = instance.days();
    if tables.is_empty() {
        return bests_by_lists(alloc, instance, cuts, prices, shift, days);
    }
    bests_by_tables(alloc, instance, cuts, prices, shift, tables)
}

/// The best break lists of a shift on all days, in one walk, where no cut bounds duties of it that begin with some break.
fn bests_by_walk(
    alloc: Global,
    instance: &Instance,
    shift: u16,
    sums: &DaySums,
) -> Result<Option<ShiftBests>, NoMemory>
    requires shift { shift < length (shift_list instance.now) }
    requires sums { sums.now.instance ≡ instance.now }
    ensures { IfOk result (λ found. MatchOption found ((list : List Break) → is_list_of instance.now shift list ≡ false) (AreBestByDay instance.now shift sums.now.prices instance.now.days)) }
{
    match best_by_day(alloc, instance, shift, sums)? {
        Some(bests) => Ok(Some(Sequence::new(bests))),
        None => Ok(None),
    }
}

/// The best break lists of a shift, and `None` where no list is legal. The sums are those of the slots' prices, and the tables
/// are those of the shift, if it has some. Where no cut bounds duties of it that begin with some break, none are needed.
fn shift_bests(
    alloc: Global,
    instance: &Instance,
    cuts: &Cuts,
    prices: &Prices,
    sums: &DaySums,
    tables: &[DayTables],
    shift: u16,
) -> Result<Option<ShiftBests>, NoMemory>
    requires valid { IsValid instance.now }
    requires shift { shift < length (shift_list instance.now) }
    requires few { length cuts.now ≤ 2 ^ 33 }
    requires passes { IsTrue (are_prices instance.now cuts.now prices.now) }
    requires sums { sums.now ≡ record { instance = instance.now; prices = prices.now.slots } }
    requires kept { AreKeptOrNone instance.now shift tables.now }
    requires at { All (IsAt cuts.now prices.now) tables.now }
    ensures bests { IfOk result (AreBestsOf instance.now cuts.now prices.now shift) }
{
    if has_prefix_cut(cuts, shift) {
        return bests_with_prefixes(alloc, instance, cuts, prices, shift, tables);
    }
    bests_by_walk(alloc, instance, shift, sums)
}

/// The best break lists of all shifts, with the tables at these prices.
fn all_bests(
    alloc: Global,
    instance: &Instance,
    cuts: &Cuts,
    prices: &Prices,
    tables: &[Vec<DayTables>],
) -> Result<Bests, NoMemory>
    requires valid { IsValid instance.now }
    requires few { length cuts.now ≤ 2 ^ 33 }
    requires passes { IsTrue (are_prices instance.now cuts.now prices.now) }
    requires tables { AreAllTables instance.now cuts.now prices.now tables.now }
    ensures { IfOk result (λ bests. AreAllBests instance.now cuts.now prices.now bests.shifts.items) }
{
    let sums = DaySums::new(alloc, instance, prices.slots.as_slice())?;
    let mut shifts = Vec::with_capacity(alloc, instance.shifts().len())?;
    for shift in 0..instance.shifts().len() as u16 {
        let days = tables[usize::from(shift)].as_slice();
        let bests = shift_bests(alloc, instance, cuts, prices, &sums, days, shift)?;
        shifts.push(bests)?;
    }
    Ok(Bests { shifts })
}

/// The values alone, each at the place of its day.
fn values_of(bests: &[(Breaks, i128)], days: u8) -> [i128; LANES]
    requires days { days ≤ 8 }
    requires count { length bests.now ≡ days }
    ensures { (day : ℕ) → day < days → slice_index_or result day (pos 0) ≡ (best_at bests.now day).1 }
{
    let mut values = [0; LANES];
    for day in 0..usize::from(days) {
        values[day] = bests[day].1;
    }
    values
}

impl DayValues for Bests {
    ghost use Rattle.dual_bound.specs.Pricer.{AreAllBests};

    ghost serves = { λ bests i cuts prices. AreAllBests i cuts prices bests.shifts.items };

    fn of_shift(
        &mut self,
        _alloc: Global,
        instance: &Instance,
        _cuts: &Cuts,
        _prices: &Prices,
        shift: u16,
    ) -> Result<Option<[i128; LANES]>, NoMemory> {
        let days = instance.days();
        match &self.shifts[usize::from(shift)] {
            Some(bests) => Ok(Some(values_of(bests.as_slice(), days))),
            None => Ok(None),
        }
    }
}

/// Best break lists with the bound that they give.
#[derive(Drop)]
struct Bounded {
    bound: u64,
    bests: Bests,
}

/// The best break lists of all shifts with the bound that they give.
fn bests_with_bound(
    alloc: Global,
    instance: &Instance,
    cuts: &Cuts,
    prices: &Prices,
    tables: &[Vec<DayTables>],
) -> Result<Bounded, NoMemory>
    requires valid { IsValid instance.now }
    requires few { length cuts.now ≤ 2 ^ 33 }
    requires passes { IsTrue (are_prices instance.now cuts.now prices.now) }
    requires tables { AreAllTables instance.now cuts.now prices.now tables.now }
    ensures { IfOk result (λ b. IsPriced (record { instance = instance.now; cuts = cuts.now; prices = prices.now }) b.bound b.bests.shifts.items) }
{
    let mut bests = all_bests(alloc, instance, cuts, prices, tables)?;
    let bound = bound_by(alloc, &mut bests, instance, cuts, prices)?;
    Ok(Bounded { bound, bests })
}

/// The tables of all shifts, with the best break lists and the bound that they give.
fn first_bests<L: Ledger>(
    alloc: Global,
    instance: &Instance,
    cuts: &Cuts,
    prices: &Prices,
    steps: &mut Steps<L>,
) -> Result<(Vec<Vec<DayTables>>, Bounded), NoMemory>
    requires valid { IsValid instance.now }
    requires few { length cuts.now ≤ 2 ^ 33 }
    requires passes { IsTrue (are_prices instance.now cuts.now prices.now) }
    ensures kept { IfOk result (λ r. AreAllKept instance.now r.0.items) }
    ensures priced { IfOk result (λ r. IsPriced (record { instance = instance.now; cuts = cuts.now; prices = prices.now }) r.1.bound r.1.bests.shifts.items) }
{
    let tables = kept_tables(alloc, instance, cuts, prices, steps)?;
    let bounded = bests_with_bound(alloc, instance, cuts, prices, &tables)?;
    Ok((tables, bounded))
}

/// Brings the tables of all shifts to other prices, and answers the best break lists and the bound that they give.
fn next_bests<L: Ledger>(
    tables: &mut [Vec<DayTables>],
    alloc: Global,
    instance: &Instance,
    cuts: &Cuts,
    prices: &Prices,
    steps: &mut Steps<L>,
) -> Result<Bounded, NoMemory>
    requires valid { IsValid instance.now }
    requires few { length cuts.now ≤ 2 ^ 33 }
    requires passes { IsTrue (are_prices instance.now cuts.now prices.now) }
    requires kept { AreAllKept instance.now tables.old }
    ensures kept { AreAllKept instance.now tables.new }
    ensures priced { IfOk result (λ b. IsPriced (record { instance = instance.now; cuts = cuts.now; prices = prices.now }) b.bound b.bests.shifts.items) }
{
    let changes = changes_to(alloc, prices.slots.as_slice())?;
    reprice_tables(tables, alloc, instance, cuts, prices, &changes, steps)?;
    bests_with_bound(alloc, instance, cuts, prices, tables)
}

/// Refuses prices that aren't a price set for the cuts, with their first fault.
fn judge(instance: &Instance, cuts: &Cuts, prices: &Prices) -> Result<(), PriceFault>
    ensures valid { IsValid instance.now }
    ensures fault { MatchResult result (λ _. first_cause (price_causes instance.now cuts.now prices.now) ≡ None) (λ e. first_cause (price_causes instance.now cuts.now prices.now) ≡ Some e) }
{
    match first_fault(instance, cuts, prices) {
        Some(fault) => Err(fault),
        None => Ok(()),
    }
}

/// The cuts once more.
fn copy_of(cuts: &Cuts) -> Result<Cuts, NoMemory>
    ensures { IfOk result (λ copy. copy ≡ cuts.now) }
{
    let copy = cuts.clone()?;
    Ok(copy)
}

/// A price set for the cuts of a node, with its bound and with the best break list of each shift on each day at it. The prices
/// may be changed, for the same cuts, and then all of it is of the new ones.
#[derive(Drop)]
pub struct Pricer {
    alloc: Global,
    cuts: Cuts,
    prices: Prices,
    bound: u64,
    bests: Bests,
    tables: Vec<Vec<DayTables>>,
    instance: Snapshot<Instance>,
}

impl Model for Pricer {
    ghost use Rattle.dual_bound.specs.KeptTables.{AreAllKept};
    ghost use Rattle.dual_bound.specs.Pricer.{IsPriced, Pricing};

    ghost Value = { Pricing };

    ghost view = { λ p. record { instance = p.instance.value; cuts = p.cuts; prices = p.prices } };

    ghost invariant = { λ p. IsPriced (record { instance = p.instance.value; cuts = p.cuts; prices = p.prices }) p.bound p.bests.shifts.items × AreAllKept p.instance.value p.tables.items };
}

impl Pricer {
    /// Prices an instance's duties for some cuts. It answers the first fault of the prices, in the order of
    /// [`prove`](crate::prove), and where none applies the only refusal left is running out of memory.
    pub fn new<L: Ledger>(
        alloc: Global,
        instance: &Instance,
        cuts: &Cuts,
        prices: Prices,
        steps: &mut Steps<L>,
    ) -> Result<Pricer, PriceFault>
        requires { length cuts.now ≤ 2 ^ 33 }
        ensures ok { IfOk result (λ p. p ≡ record { instance = instance.now; cuts = cuts.now; prices = prices }) }
        ensures fault { MatchResult result (λ _. first_cause (price_causes instance.now cuts.now prices) ≡ None) (λ e. Answers e (first_cause (price_causes instance.now cuts.now prices))) }
    {
        judge(instance, cuts, &prices)?;
        let Ok((tables, bounded)) = first_bests(alloc, instance, cuts, &prices, steps) else {
            return Err(PriceFault::NoMemory);
        };
        let Ok(cuts) = copy_of(cuts) else {
            return Err(PriceFault::NoMemory);
        };
        let Bounded { bound, bests } = bounded;
        Ok(Pricer {
            alloc,
            cuts,
            prices,
            bound,
            bests,
            tables,
            instance: Snapshot::of(instance),
        })
    }

    /// Changes the prices. It answers their first fault as [`new`](Pricer::new) does, and then nothing has changed.
    pub fn reprice<L: Ledger>(
        &mut self,
        instance: &Instance,
        prices: Prices,
        steps: &mut Steps<L>,
    ) -> Result<(), PriceFault>
        requires { self.old.instance ≡ instance.now }
        ensures ok { OnOk result (self.new ≡ record self.old { prices = prices }) }
        ensures fault { MatchResult result (λ _. first_cause (price_causes instance.now self.old.cuts prices) ≡ None) (λ e. Answers e (first_cause (price_causes instance.now self.old.cuts prices))) }
        ensures unchanged { OnErr result (self.new ≡ self.old) }
    {
        judge(instance, &self.cuts, &prices)?;
        let tables = &mut self.tables;
        match next_bests(tables, self.alloc, instance, &self.cuts, &prices, steps) {
            Ok(bounded) => {
                let Bounded { bound, bests } = bounded;
                self.prices = prices;
                self.bound = bound;
                self.bests = bests;
                Ok(())
            }
            Err(_) => Err(PriceFault::NoMemory),
        }
    }

    /// The prices, which are a price set for the cuts.
    pub fn prices(&self) -> &Prices
        ensures prices { result.now ≡ self.now.prices }
        ensures passes { IsTrue (are_prices self.now.instance self.now.cuts self.now.prices) }
    {
        &self.prices
    }

    /// The bound of the prices. It takes no memory.
    pub fn value(&self) -> u64
        ensures { result ≡ bound_of self.now.instance self.now.cuts self.now.prices }
    {
        self.bound
    }

    /// The break list of greatest reduced value of a duty of a shift on a day, the least among equals, with that value, and
    /// `None` where no list is legal. It takes no memory.
    pub fn best(&self, shift: u16, day: u8) -> Option<(&[Break], i128)>
        requires shift { shift < length (shift_list self.now.instance) }
        requires day { day < self.now.instance.days }
        ensures best { MatchOption result (IsTrue (is_nil (lists_of self.now.instance shift))) (λ b. IsBestOn self.now.instance self.now.cuts self.now.prices shift day b.0.now b.1) }
    {
        match &self.bests.shifts[usize::from(shift)] {
            Some(bests) => {
                let (list, value) = &bests.as_slice()[usize::from(day)];
                Some((list.as_slice(), *value))
            }
            None => None,
        }
    }
}
