//! The search for the best break list of a duty.

ghost use Rattle.std.specs.Prelude.{◌≡◌, ◌+◌, ◌^◌, ◌<◌, ◌≤◌, List, [], length, All, IfOk, IsSomeAnd, MatchOption, true, false, slice_get};
ghost use Rattle.std.specs.Int.RustNames.{unsigned_abs};
ghost use Rattle.break_rules.specs.declared.Break.{Break};
ghost use Rattle.break_rules.specs.Lists.{Has};
ghost use Rattle.break_graph.specs.Graph.{IsGraph};
ghost use Rattle.break_rules.specs.Bonuses.{bonus_of};
ghost use Rattle.shift_instance.specs.Problem.{shift_list, slots};
ghost use Rattle.shift_instance.specs.Rota.{is_list_of};
ghost use Rattle.shift_instance.specs.Worth.{IsBest};
ghost use Rattle.price_sums.specs.Along.{AreSmallPrices};
ghost use Rattle.pricing.specs.Found.{IsLegal, IsFound, Covers, Keeps, CoversFrom, CoversAlong, IsBestFound, leads_further};
ghost use Rattle.pricing.specs.Keeping.{AreBeginnings};

use crate::around::Rests;
use crate::beginnings::Beginnings;
use crate::found::{Found, better};
use crate::layer_rests::LayerRests;
use crate::rests::BestRests;
use crate::steps::Steps;
use break_graph::Graph;
use break_rules::{Break, Breaks, NoMemory};
use patterns::{Pattern, Trie};
use price_sums::price_sums;
use shift_instance::Instance;
use std::alloc::Global;
use std::sync::ledger::Ledger;

/// The best list of those so far and of some legal lists.
fn best_among<R: Rests>(
    rests: &R,
    trie: &Trie,
    lists: Vec<Breaks>,
    best: Option<Found>,
) -> Option<Found>
    requires legal { (list : List Break) → Has lists.items list → IsLegal (R.priced rests.now) list }
    requires found { IsFound (R.priced rests.now) trie.now.entries best }
    ensures found { IsFound (R.priced rests.now) trie.now.entries result }
    ensures keeps { Keeps (R.priced rests.now) trie.now.entries best result }
    ensures covers { (list : List Break) → Has lists.items list → Covers (R.priced rests.now) trie.now.entries result list }
{
    let mut best = best;
    let mut lists = lists;
    while let Some(list) = lists.pop() {
        best = better(rests, trie, list, best);
    }
    best
}

/// The best list of those so far and of those that go on from some breaks and leave all prefixes directly behind them.
fn best_around<R: Rests>(
    alloc: Global,
    rests: &R,
    trie: &Trie,
    beginnings: &Beginnings,
    front: &[Break],
    best: Option<Found>,
) -> Result<Option<Found>, NoMemory>
    requires beginnings { AreBeginnings trie.now.entries beginnings.now }
    requires found { IsFound (R.priced rests.now) trie.now.entries best }
    ensures found { IfOk result (IsFound (R.priced rests.now) trie.now.entries) }
    ensures keeps { IfOk result (Keeps (R.priced rests.now) trie.now.entries best) }
    ensures covers { IfOk result (λ r. CoversFrom (R.priced rests.now) trie.now.entries r front.now) }
{
    let lists = rests.around(alloc, front, beginnings)?;
    Ok(best_among(rests, trie, lists, best))
}

/// The best list of those so far and of those found from each beginning of some breaks.
fn best_along<R: Rests>(
    alloc: Global,
    rests: &R,
    trie: &Trie,
    beginnings: &Beginnings,
    prefix: &[Break],
    best: Option<Found>,
) -> Result<Option<Found>, NoMemory>
    requires beginnings { AreBeginnings trie.now.entries beginnings.now }
    requires found { IsFound (R.priced rests.now) trie.now.entries best }
    ensures found { IfOk result (IsFound (R.priced rests.now) trie.now.entries) }
    ensures keeps { IfOk result (Keeps (R.priced rests.now) trie.now.entries best) }
    ensures covers { IfOk result (λ r. CoversAlong (R.priced rests.now) trie.now.entries r prefix.now (length prefix.now)) }
{
    let mut best = best;
    for end in 0..prefix.len() {
        best = best_around(alloc, rests, trie, beginnings, &prefix[..end + 1], best)?;
    }
    Ok(best)
}

/// The best list by prices alone.
fn best_by_prices<R: Rests>(alloc: Global, rests: &R) -> Result<Option<Found>, NoMemory>
    ensures { IfOk result (IsBestFound (R.priced rests.now) []) }
{
    match rests.best(alloc)? {
        Some((list, value)) => {
            let value = i128::from(value);
            Ok(Some(Found { list, value }))
        }
        None => Ok(None),
    }
}

/// The bonuses by their prefixes.
pub fn trie_of(alloc: Global, bonus: &[(Breaks, i64)]) -> Result<Trie, NoMemory>
    requires few { length bonus.now ≤ 2 ^ 33 }
    requires small { All (λ e. unsigned_abs e.1 ≤ 1000000000000) bonus.now }
    ensures sums { IfOk result (λ t. (list : List Break) → bonus_of t.entries list ≡ bonus_of bonus.now list) }
    ensures prefixes { IfOk result (λ t. (front : List Break) → leads_further t.entries front ≡ true → leads_further bonus.now front ≡ true) }
    ensures kept { IfOk result (λ t. (front : List Break) → leads_further bonus.now front ≡ true → leads_further t.entries front ≡ true) }
{
    let mut trie = Trie::new(alloc)?;
    for (prefix, x) in bonus {
        trie.add(prefix.as_slice(), *x)?;
    }
    Ok(trie)
}

/// The best list by prices and by the bonuses of a trie that has no other prefixes than these.
fn best_with<R: Rests>(
    alloc: Global,
    rests: &R,
    trie: &Trie,
    beginnings: &Beginnings,
    bonus: &[(Breaks, i64)],
) -> Result<Option<Found>, NoMemory>
    requires beginnings { AreBeginnings trie.now.entries beginnings.now }
    requires prefixes { (front : List Break) → leads_further trie.now.entries front ≡ true → leads_further bonus.now front ≡ true }
    ensures { IfOk result (IsBestFound (R.priced rests.now) trie.now.entries) }
{
    let mut best = best_around(alloc, rests, trie, beginnings, &[], None)?;
    for (prefix, _) in bonus {
        best = best_along(alloc, rests, trie, beginnings, prefix.as_slice(), best)?;
    }
    Ok(best)
}

/// The best list where all lists get the same bonuses.
fn best_alike<R: Rests>(alloc: Global, rests: &R, trie: &Trie) -> Result<Option<Found>, NoMemory>
    requires { (list : List Break) → bonus_of trie.now.entries list ≡ bonus_of trie.now.entries [] }
    ensures { IfOk result (IsBestFound (R.priced rests.now) trie.now.entries) }
{
    match rests.best(alloc)? {
        Some((list, _)) => Ok(better(rests, trie, list, None)),
        None => Ok(None),
    }
}

/// The best list by prices and by the bonuses of a trie, with a step for each of the beginnings of its prefixes but the
/// empty one.
pub fn best_by_beginnings<R: Rests, L: Ledger>(
    alloc: Global,
    rests: &R,
    trie: &Trie,
    beginnings: &Beginnings,
    steps: &mut Steps<L>,
) -> Result<Option<Found>, NoMemory>
    requires beginnings { AreBeginnings trie.now.entries beginnings.now }
    ensures best { IfOk result (IsBestFound (R.priced rests.now) trie.now.entries) }
    ensures steps { steps.new ≤ steps.old + length beginnings.now }
{
    if beginnings.is_empty() {
        return best_alike(alloc, rests, trie);
    }
    let mut best = best_around(alloc, rests, trie, beginnings, &[], None)?;
    for front in beginnings.lists() {
        steps.tick();
        best = best_around(alloc, rests, trie, beginnings, front.as_slice(), best)?;
    }
    Ok(best)
}

/// The best list by prices and bonuses.
fn best_list<R: Rests>(
    alloc: Global,
    rests: &R,
    bonus: &[(Breaks, i64)],
) -> Result<Option<Found>, NoMemory>
    requires few { length bonus.now ≤ 2 ^ 33 }
    requires small { All (λ e. unsigned_abs e.1 ≤ 1000000000000) bonus.now }
    ensures { IfOk result (IsBestFound (R.priced rests.now) bonus.now) }
{
    if bonus.is_empty() {
        return best_by_prices(alloc, rests);
    }
    let trie = trie_of(alloc, bonus)?;
    let beginnings = Beginnings::of(alloc, bonus)?;
    best_with(alloc, rests, &trie, &beginnings, bonus)
}

/// The best list of a shift on a day by the nodes of the shift's graph.
fn best_over(
    alloc: Global,
    instance: &Instance,
    graph: &Graph,
    shift: u16,
    day: u8,
    prices: &[i64],
    bonus: &[(Breaks, i64)],
) -> Result<Option<(Pattern, i128)>, NoMemory>
    requires shift { shift < length (shift_list instance.now) }
    requires graph { IsSomeAnd (slice_get (shift_list instance.now) shift) (λ x. IsGraph x.1 x.0.len graph.now) }
    requires count { length prices.now ≡ slots instance.now }
    requires prices { AreSmallPrices prices.now }
    requires few { length bonus.now ≤ 2 ^ 33 }
    requires small { All (λ e. unsigned_abs e.1 ≤ 1000000000000) bonus.now }
    ensures best { IfOk result (λ found. MatchOption found ((list : List Break) → is_list_of instance.now shift list ≡ false) (λ p. IsBest instance.now shift day prices.now bonus.now p.0.list p.1)) }
    ensures len { IfOk result (λ found. MatchOption found (Unit {0}) (λ p. IsSomeAnd (slice_get (shift_list instance.now) shift) (λ x. p.0.len ≡ x.0.len))) }
{
    let rule = instance.rule_of(shift);
    let len = instance.shift(shift).len;
    let sums = price_sums(alloc, instance, shift, day, prices)?;
    let rests = BestRests::new(alloc, rule, len, graph, sums)?;
    match best_list(alloc, &rests, bonus)? {
        Some(found) => {
            let Found { list, value } = found;
            Ok(Some((Pattern { list, len }, value)))
        }
        None => Ok(None),
    }
}

/// The best list of a shift on a day by layers of spots.
fn best_without_graph(
    alloc: Global,
    instance: &Instance,
    shift: u16,
    day: u8,
    prices: &[i64],
    bonus: &[(Breaks, i64)],
) -> Result<Option<(Pattern, i128)>, NoMemory>
    requires shift { shift < length (shift_list instance.now) }
    requires count { length prices.now ≡ slots instance.now }
    requires prices { AreSmallPrices prices.now }
    requires few { length bonus.now ≤ 2 ^ 33 }
    requires small { All (λ e. unsigned_abs e.1 ≤ 1000000000000) bonus.now }
    ensures best { IfOk result (λ found. MatchOption found ((list : List Break) → is_list_of instance.now shift list ≡ false) (λ p. IsBest instance.now shift day prices.now bonus.now p.0.list p.1)) }
    ensures len { IfOk result (λ found. MatchOption found (Unit {0}) (λ p. IsSomeAnd (slice_get (shift_list instance.now) shift) (λ x. p.0.len ≡ x.0.len))) }
{
    let rule = instance.rule_of(shift);
    let len = instance.shift(shift).len;
    let sums = price_sums(alloc, instance, shift, day, prices)?;
    let rests = LayerRests::new(alloc, rule, len, sums)?;
    match best_list(alloc, &rests, bonus)? {
        Some(found) => {
            let Found { list, value } = found;
            Ok(Some((Pattern { list, len }, value)))
        }
        None => Ok(None),
    }
}

/// The least legal break list of greatest reduced value of a shift on a day, with that value: the prices of the slots in
/// which a duty with it works, and the numbers of the bonuses with whose prefix it begins. Of lists of one value the least
/// in the order of lists is meant (break by break, a proper prefix first). `None` where no list is legal. There is a price
/// for each slot of the planning period, of at most 10^10 in size, and a bonus is at most 10^12 in size. Where the instance
/// keeps no graph of the shift, lists are valued by layers of spots.
pub fn best_pattern(
    alloc: Global,
    instance: &Instance,
    shift: u16,
    day: u8,
    prices: &[i64],
    bonus: &[(Breaks, i64)],
) -> Result<Option<(Pattern, i128)>, NoMemory>
    requires shift { shift < length (shift_list instance.now) }
    requires count { length prices.now ≡ slots instance.now }
    requires prices { AreSmallPrices prices.now }
    requires few { length bonus.now ≤ 2 ^ 33 }
    requires small { All (λ e. unsigned_abs e.1 ≤ 1000000000000) bonus.now }
    ensures best { IfOk result (λ found. MatchOption found ((list : List Break) → is_list_of instance.now shift list ≡ false) (λ p. IsBest instance.now shift day prices.now bonus.now p.0.list p.1)) }
    ensures len { IfOk result (λ found. MatchOption found (Unit {0}) (λ p. IsSomeAnd (slice_get (shift_list instance.now) shift) (λ x. p.0.len ≡ x.0.len))) }
{
    match instance.graph(shift) {
        Some(kept) => best_over(alloc, instance, kept, shift, day, prices, bonus),
        None => best_without_graph(alloc, instance, shift, day, prices, bonus),
    }
}
