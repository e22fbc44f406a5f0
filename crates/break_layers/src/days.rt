//! What break lists earn at most on all days, side by side.

ghost use Rattle.std.specs.Prelude.{◌≡◌, ◌<◌, ℕ, List, [], IfOk, MatchOption, false};
ghost use Rattle.break_rules.specs.declared.Break.{Break};
ghost use Rattle.break_rules.specs.Breaks.{is_legal};
ghost use Rattle.break_rules.specs.Ranges.{IsRule};
ghost use Rattle.price_sums.specs.Along.{AreSums, sum_at};
ghost use Rattle.price_sums.specs.Days.{sums_on};
ghost use Rattle.break_layers.specs.Rests.{IsMostEarned};

use crate::layers::{place, set_layers};
use crate::windows::{NOTHING, number_at};
use break_rules::{NoMemory, Rule, Spot};
use price_sums::Lane;
use std::alloc::Global;

/// Returns what the best legal list for a rule in shifts of `len` slots earns on each day, without the list, and `None` where no
/// list is legal. The sums are those of the prices of the offsets below each one, all days side by side, and so are the values: the
/// first number of a lane is that of the first day, in the unit of the prices. What a day's number says holds where its sums are
/// those of small prices, so the days behind the last one may have any. The values of all spots are found in the memory of `table`,
/// whatever stood there, so that calls one after another need next to no new memory. The only refusal is running out of memory.
pub fn most_by_lane(
    alloc: Global,
    rule: &Rule,
    len: u16,
    sums: &[Lane],
    table: &mut Vec<Lane>,
) -> Result<Option<Lane>, NoMemory>
    requires rule { IsRule rule.now }
    requires sums { AreSums len (sums_on 0 sums.now) }
    ensures { IfOk result (λ found. MatchOption found ((list : List Break) → is_legal rule.now len list ≡ false) (λ most. (day : ℕ) → day < 8 → AreSums len (sums_on day sums.now) → IsMostEarned rule.now len (sums_on day sums.now) [] (sum_at most day))) }
{
    set_layers(alloc, rule, len, sums, table)?;
    let most = number_at(table, place(rule, len, Spot::opening()));
    if most[0] == NOTHING {
        Ok(None)
    } else {
        Ok(Some(most))
    }
}
