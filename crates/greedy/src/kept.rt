//! What is kept from round to round: a shift is valued anew only on days on which a price of its slots changed.
ghost use Rattle.std.specs.Prelude.{◌≡◌, ◌<◌, ℕ, [], All, None, Some, IfOk, OnOk, length, replicate, slice_get};
ghost use Rattle.break_rules.specs.declared.Rule.{Rule};
ghost use Rattle.price_sums.specs.Along.{sum_at};
ghost use Rattle.shift_instance.specs.declared.Shift.{Shift};
ghost use Rattle.shift_instance.specs.Problem.{shift_list};
ghost use Rattle.shift_instance.specs.Valid.{IsValid};
ghost use Rattle.greedy.specs.Bounds.{AreBounds};
ghost use Rattle.greedy.specs.Greedy.{marginal_prices};
ghost use Rattle.greedy.specs.Kept.{AreKept, AreKnown, AreNoHigher, KeepsEach, price_total};

use crate::bounds::opening_bounds;
use crate::known::KnownDays;
use crate::prices::marginal_prices;
use break_rules::NoMemory;
use price_sums::{DaySums, LANES, Lane, lane_at, lane_difference};
use rota_cost::Cover;
use shift_instance::Instance;
use std::alloc::Global;

/// What is kept from round to round.
#[derive(Drop)]
pub(crate) struct KeptGains {
    /// Bounds of the gains of all shifts.
    pub(crate) bounds: Vec<i64>,
    /// The marginal prices of all slots.
    pub(crate) prices: Vec<i64>,
    /// The sums of these prices.
    pub(crate) sums: DaySums,
    /// What is known of the values of each shift at these prices.
    pub(crate) known: Vec<KnownDays>,
}

/// The sum of the prices of a shift's slots on each day.
fn price_totals(sums: &DaySums, instance: &Instance, shift: u16) -> Lane
    requires sums { sums.now.instance ≡ instance.now }
    requires shift { shift < length (shift_list instance.now) }
    ensures { (x : Shift × Rule) → slice_get (shift_list instance.now) shift ≡ Some x → (day : ℕ) → day < instance.now.days → sum_at result day ≡ price_total instance.now x.0 day sums.now.prices }
{
    let lanes = sums.along(instance, shift);
    let len = usize::from(instance.shift(shift).len);
    lane_difference(lane_at(lanes, len), lane_at(lanes, 0))
}

/// Forgets the values of a shift on the days on which a price of its slots fell. No price rose, so one of them fell where their sum
/// did.
fn forget_days(instance: &Instance, shift: u16, old: &DaySums, new: &DaySums, known: &mut KnownDays)
    requires valid { IsValid instance.now }
    requires old { old.now.instance ≡ instance.now }
    requires new { new.now.instance ≡ instance.now }
    requires falling { AreNoHigher instance.now new.now.prices old.now.prices }
    requires shift { shift < length (shift_list instance.now) }
    requires known { AreKnown instance.now old.now.prices shift known.old }
    ensures { AreKnown instance.now new.now.prices shift known.new }
{
    let before = price_totals(old, instance, shift);
    let now = price_totals(new, instance, shift);
    for day in 0..LANES {
        if before[day] != now[day] {
            known[day] = None;
        }
    }
}

/// Forgets the values of all shifts on the days on which a price of their slots fell.
fn forget_fallen(instance: &Instance, old: &DaySums, new: &DaySums, known: &mut [KnownDays])
    requires valid { IsValid instance.now }
    requires old { old.now.instance ≡ instance.now }
    requires new { new.now.instance ≡ instance.now }
    requires falling { AreNoHigher instance.now new.now.prices old.now.prices }
    requires known { KeepsEach instance.now old.now.prices known.old }
    ensures { KeepsEach instance.now new.now.prices known.new }
{
    for shift in 0..instance.shifts().len() as u16 {
        forget_days(instance, shift, old, new, &mut known[usize::from(shift)]);
    }
}

/// What is known of so many shifts before any value is found.
fn nothing_known(alloc: Global, shifts: usize) -> Result<Vec<KnownDays>, NoMemory>
    ensures count { IfOk result (λ known. length known.items ≡ shifts) }
    ensures nothing { IfOk result (λ known. All (λ days. days ≡ replicate 8 None) known.items) }
{
    let mut known = Vec::with_capacity(alloc, shifts)?;
    'shifts: for _shift in 0..shifts {
        known.push([None; LANES])?;
    }
    Ok(known)
}

impl KeptGains {
    /// What is kept before the first round, in which all values have to be found.
    pub(crate) fn opening(
        alloc: Global,
        instance: &Instance,
        cover: &Cover,
    ) -> Result<KeptGains, NoMemory>
        requires valid { IsValid instance.now }
        requires instance { cover.now.instance ≡ instance.now }
        requires duties { cover.now.duties ≡ [] }
        ensures bounds { IfOk result (λ k. AreBounds instance.now cover.now.duties k.bounds.items) }
        ensures kept { IfOk result (λ k. AreKept instance.now cover.now.duties k.prices.items k.sums k.known.items) }
    {
        let bounds = opening_bounds(alloc, instance)?;
        let prices = marginal_prices(alloc, instance, cover)?;
        let sums = DaySums::new(alloc, instance, &prices)?;
        let known = nothing_known(alloc, instance.shifts().len())?;
        Ok(KeptGains {
            bounds,
            prices,
            sums,
            known,
        })
    }

    /// Takes the marginal prices of a plan with more duties, of which none is higher than before, and forgets what isn't known to
    /// hold at them. The bounds stay.
    pub(crate) fn take_prices(
        &mut self,
        alloc: Global,
        instance: &Instance,
        cover: &Cover,
    ) -> Result<(), NoMemory>
        requires valid { IsValid instance.now }
        requires instance { cover.now.instance ≡ instance.now }
        requires sums { self.old.sums.instance ≡ instance.now }
        requires falling { AreNoHigher instance.now (marginal_prices instance.now cover.now.duties) self.old.sums.prices }
        requires known { KeepsEach instance.now self.old.sums.prices self.old.known.items }
        ensures bounds { self.new.bounds ≡ self.old.bounds }
        ensures kept { OnOk result (AreKept instance.now cover.now.duties self.new.prices.items self.new.sums self.new.known.items) }
    {
        let prices = marginal_prices(alloc, instance, cover)?;
        let sums = DaySums::new(alloc, instance, &prices)?;
        forget_fallen(instance, &self.sums, &sums, &mut self.known);
        self.prices = prices;
        self.sums = sums;
        Ok(())
    }
}
