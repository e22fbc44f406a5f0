//! The best list of a shift on a day at slot prices.
ghost use Rattle.std.specs.Prelude.{◌≡◌, ◌<◌, [], IfOk, length};
ghost use Rattle.shift_instance.specs.Problem.{shift_list};
ghost use Rattle.greedy.specs.Greedy.{best_list};
ghost use Rattle.greedy.specs.Sizes.{ArePrices};

use break_rules::{Breaks, NoMemory};
use patterns::Pattern;
use pricing::best_pattern;
use shift_instance::Instance;
use std::alloc::Global;

/// The best list of a shift on a day, and `None` where no list is legal. Under a plain rule that is the empty list, the only
/// legal one.
pub(crate) fn best_list(
    alloc: Global,
    instance: &Instance,
    prices: &[i64],
    shift: u16,
    day: u8,
) -> Result<Option<Breaks>, NoMemory>
    requires prices { ArePrices instance.now prices.now }
    requires shift { shift < length (shift_list instance.now) }
    ensures { IfOk result (λ list. list ≡ best_list instance.now prices.now shift day) }
{
    if instance.rule_of(shift).is_plain() {
        return Ok(Some(Breaks::new(Vec::new(alloc))));
    }
    match best_pattern(alloc, instance, shift, day, prices, &[])? {
        Some((pattern, _)) => {
            let Pattern { list, .. } = pattern;
            Ok(Some(list))
        }
        None => Ok(None),
    }
}
