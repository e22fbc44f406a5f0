//! What the search for the best list asks of the best rests of break lists, however they are found.

ghost use Rattle.std.specs.Prelude.{◌≡◌, ◌*◌, ◌≤◌, ◌++◌, List, [], ◌∷◌, IfOk, MatchOption, false};
ghost use Rattle.std.specs.Int.RustNames.{unsigned_abs};
ghost use Rattle.break_rules.specs.declared.Break.{Break};
ghost use Rattle.break_rules.specs.Breaks.{is_legal};
ghost use Rattle.price_sums.specs.Along.{earned_from, price_in};
ghost use Rattle.break_layers.specs.Rests.{Priced, IsBestList};
ghost use Rattle.pricing.specs.Found.{IsLegal};
ghost use Rattle.pricing.specs.Keeping.{AreEnoughAround, better_way};

use crate::beginnings::Beginnings;
use break_rules::{Break, Breaks, NoMemory};
use std::alloc::Global;

/// The best rests of the break lists for a rule and a length at given prices.
pub trait Rests {
    /// The rule, the length and the sums of the prices.
    ghost priced: { Self → Priced };

    /// The prices of the offsets at which a duty with these breaks works. It takes no memory.
    fn earned(&self, list: &[Break]) -> i64
        requires { IsLegal (priced self.now) list.now }
        ensures earned { result ≡ earned_from (price_in (priced self.now).sums) (priced self.now).rule (priced self.now).len 0 list.now }
        ensures small { unsigned_abs result ≤ 10000000000 * 65535 };

    /// The best of all legal lists, with what it earns, and `None` where no list is legal.
    fn best(&self, alloc: Global) -> Result<Option<(Breaks, i64)>, NoMemory>
        ensures { IfOk result (λ found. MatchOption found ((list : List Break) → is_legal (priced self.now).rule (priced self.now).len list ≡ false) (IsBestList (priced self.now).rule (priced self.now).len (priced self.now).sums)) };

    /// Legal lists that begin with some breaks, among them the best one by prices of those whose next break leads to none of
    /// the named lists.
    fn around(
        &self,
        alloc: Global,
        front: &[Break],
        named: &Beginnings,
    ) -> Result<Vec<Breaks>, NoMemory>
        ensures { IfOk result (λ lists. AreEnoughAround (priced self.now) named.now front.now lists.items) };
}

/// The list of some breaks, and no other list.
pub fn alone(alloc: Global, front: &[Break]) -> Result<Vec<Breaks>, NoMemory>
    ensures { IfOk result (λ lists. lists.items ≡ front.now ∷ []) }
{
    let list = Vec::from_slice(alloc, front)?;
    let mut lists = Vec::new(alloc);
    lists.push(Breaks::new(list))?;
    Ok(lists)
}

/// Some breaks with one more behind them.
pub fn with_next(alloc: Global, front: &[Break], next: Break) -> Result<Vec<Break>, NoMemory>
    ensures { IfOk result (λ list. list.items ≡ front.now ++ next ∷ []) }
{
    let mut list = Vec::from_slice(alloc, front)?;
    list.push(next)?;
    Ok(list)
}

/// The better of the best way on so far and a later one, each with what the best rests reach by it.
pub fn better_way<W: Copy>(best: Option<(W, i64)>, way: W, reach: i64) -> Option<(W, i64)>
    ensures { result ≡ better_way best way reach }
{
    match best {
        Some((old, most)) => {
            if most < reach {
                Some((way, reach))
            } else {
                Some((old, most))
            }
        }
        None => Some((way, reach)),
    }
}
