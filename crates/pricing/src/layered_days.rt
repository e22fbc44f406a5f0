//! The best break lists of a shift on all days, and what they earn, by layers of spots.

ghost use Rattle.std.specs.Prelude.{◌≡◌, ◌<◌, ◌≤◌, ℕ, List, [], IfOk, MatchOption, length, false};
ghost use Rattle.break_rules.specs.declared.Break.{Break};
ghost use Rattle.break_rules.specs.Breaks.{is_legal};
ghost use Rattle.break_rules.specs.Ranges.{IsRule};
ghost use Rattle.shift_instance.specs.Problem.{shift_list};
ghost use Rattle.shift_instance.specs.Rota.{is_list_of};
ghost use Rattle.price_sums.specs.Along.{AreSums};
ghost use Rattle.price_sums.specs.Days.{sums_on};
ghost use Rattle.break_layers.specs.Rests.{IsMostEarned};
ghost use Rattle.pricing.specs.Days.{AreBestByDay, AreMostByDay, IsBestBy, best_at};

use break_layers::{LayerValues, most_by_lane};
use break_rules::{Breaks, NoMemory, Rule, Spot};
use price_sums::{DaySums, Lane};
use shift_instance::Instance;
use std::alloc::Global;

/// The sums of a day, of those of all days side by side.
pub fn sums_of_day(alloc: Global, lanes: &[Lane], day: usize) -> Result<Vec<i64>, NoMemory>
    requires { day < 8 }
    ensures { IfOk result (λ sums. sums.items ≡ sums_on day lanes.now) }
{
    let mut sums = Vec::with_capacity(alloc, lanes.len())?;
    for lane in lanes {
        sums.push(lane[day])?;
    }
    Ok(sums)
}

/// The best list for a rule and a length by sums of prices, with what it earns, and `None` where no list is legal.
fn best_by_layers(
    alloc: Global,
    rule: &Rule,
    len: u16,
    sums: Vec<i64>,
) -> Result<Option<(Breaks, i128)>, NoMemory>
    requires rule { IsRule rule.now }
    requires sums { AreSums len sums.items }
    ensures { IfOk result (λ found. MatchOption found ((list : List Break) → is_legal rule.now len list ≡ false) (IsBestBy rule.now len sums.items)) }
{
    let values = LayerValues::new(alloc, rule, len, sums)?;
    match values.best_list(alloc)? {
        Some((list, value)) => Ok(Some((list, i128::from(value)))),
        None => Ok(None),
    }
}

/// The best lists for a rule and a length on the first days, each with what it earns, and `None` only where no list is legal.
fn bests_of_days(
    alloc: Global,
    rule: &Rule,
    len: u16,
    lanes: &[Lane],
    days: u8,
) -> Result<Option<Vec<(Breaks, i128)>>, NoMemory>
    requires days { days ≤ 8 }
    requires rule { IsRule rule.now }
    requires sums { (day : ℕ) → day < days → AreSums len (sums_on day lanes.now) }
    ensures { IfOk result (λ found. MatchOption found ((list : List Break) → is_legal rule.now len list ≡ false) (λ bests. (length bests.items ≡ days) × ((day : ℕ) → day < days → IsBestBy rule.now len (sums_on day lanes.now) (best_at bests.items day)))) }
{
    let mut bests = Vec::with_capacity(alloc, usize::from(days))?;
    for day in 0..days {
        let sums = sums_of_day(alloc, lanes, usize::from(day))?;
        let best = match best_by_layers(alloc, rule, len, sums)? {
            Some(best) => best,
            None => return Ok(None),
        };
        bests.push(best)?;
    }
    Ok(Some(bests))
}

/// The best list of a shift on each day, with what it earns, each by its own search, and `None` where no list is legal.
pub fn bests_by_layers(
    alloc: Global,
    instance: &Instance,
    shift: u16,
    sums: &DaySums,
) -> Result<Option<Vec<(Breaks, i128)>>, NoMemory>
    requires shift { shift < length (shift_list instance.now) }
    requires sums { sums.now.instance ≡ instance.now }
    ensures { IfOk result (λ found. MatchOption found ((list : List Break) → is_list_of instance.now shift list ≡ false) (λ bests. AreBestByDay instance.now shift sums.now.prices instance.now.days bests.items)) }
{
    let rule = instance.rule_of(shift);
    let len = instance.shift(shift).len;
    let lanes = sums.along(instance, shift);
    match bests_of_days(alloc, rule, len, lanes, instance.days())? {
        Some(bests) => Ok(Some(bests)),
        None => Ok(None),
    }
}

/// What the best list for a rule and a length earns by sums of prices, and `None` where no list is legal.
pub fn most_of_lists(
    alloc: Global,
    rule: &Rule,
    len: u16,
    sums: Vec<i64>,
) -> Result<Option<i64>, NoMemory>
    requires rule { IsRule rule.now }
    requires sums { AreSums len sums.items }
    ensures { IfOk result (λ found. MatchOption found ((list : List Break) → is_legal rule.now len list ≡ false) (IsMostEarned rule.now len sums.items [])) }
{
    let values = LayerValues::new(alloc, rule, len, sums)?;
    Ok(values.value_at(Spot::opening()))
}

/// What the best list of a shift earns on each day, without the list, and `None` where no list is legal. The values of spots are
/// found in the memory of `lanes`, whatever stood there.
pub fn most_by_layers(
    alloc: Global,
    instance: &Instance,
    shift: u16,
    sums: &DaySums,
    lanes: &mut Vec<Lane>,
) -> Result<Option<Lane>, NoMemory>
    requires shift { shift < length (shift_list instance.now) }
    requires sums { sums.now.instance ≡ instance.now }
    ensures { IfOk result (λ found. MatchOption found ((list : List Break) → is_list_of instance.now shift list ≡ false) (λ most. AreMostByDay instance.now shift sums.now.prices instance.now.days most)) }
{
    let rule = instance.rule_of(shift);
    let len = instance.shift(shift).len;
    let sums = sums.along(instance, shift);
    match most_by_lane(alloc, rule, len, sums, lanes)? {
        Some(most) => Ok(Some(most)),
        None => Ok(None),
    }
}
