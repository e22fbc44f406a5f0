//! Which spots lead on to a legal list, whether a list of breaks is live, and the least legal list.

ghost use Rattle.std.specs.Prelude.{◌≡◌, ◌+◌, ◌-◌, ◌*◌, ◌<◌, ◌≤◌, ◌++◌, List, [], ◌∷◌, Bool, false, IfOk, IsTrue, MatchOption, length, slice_get, slice_index_or};
ghost use Rattle.std.specs.List.{find};
ghost use Rattle.break_rules.specs.Breaks.{is_legal, is_live, legal_lists};
ghost use Rattle.break_rules.specs.Ranges.{IsRule};
ghost use Rattle.break_rules.specs.Walk.{nexts_of, spot_of, is_walk};
ghost use Rattle.break_rules.specs.Live.{place_of, AreKnown, AreLive, IsLeastLegal};

use crate::legality::{follows, total};
use crate::places::{place, spot_at};
use crate::walking::{after, ends, nexts};
use crate::{Break, Breaks, NoMemory, Rule, Spot};
use std::alloc::Global;
use std::marker::Model;
use std::snapshot::Snapshot;

/// For each spot that a walk by the next breaks of a rule reaches in a shift of some length, whether some legal list
/// begins with the breaks of that walk. It is made once for a rule and a length.
#[derive(Drop)]
pub struct LiveSpots {
    len: u16,
    table: Vec<bool>,
    rule: Snapshot<Rule>,
}

impl Model for LiveSpots {
    ghost use Rattle.break_rules.specs.Live.{Setting, AreLive};
    ghost use Rattle.break_rules.specs.Ranges.{IsRule};

    ghost Value = { Setting };

    ghost view = { λ s. record { rule = s.rule.value; len = s.len } };

    ghost invariant = { λ s. IsRule s.rule.value × AreLive s.rule.value s.len s.table.items };
}

/// What a table says of a spot.
fn is_live_in(table: &[bool], len: u16, spot: Spot) -> bool
    ensures { result ≡ slice_index_or table.now (place_of len spot) false }
{
    table.get(place(len, spot)).copied().unwrap_or(false)
}

/// The first break that may come next and behind which a legal list can be reached, by what a table says of later spots.
fn first_live(rule: &Rule, len: u16, spot: Spot, table: &[bool]) -> Option<Break>
    requires rule { IsRule rule.now }
    requires known { AreKnown rule.now len (place_of len spot) table.now }
    ensures { (list : List Break) → IsTrue (is_walk rule.now len list) → spot ≡ spot_of rule.now list → result ≡ find (λ b. is_live rule.now len (list ++ b ∷ [])) (nexts_of rule.now len spot) }
{
    for next in nexts(rule, len, spot) {
        if is_live_in(table, len, after(rule, spot, next)) {
            return Some(next);
        }
    }
    None
}

/// Whether a legal list can be reached from a spot, by what a table says of later spots.
fn leads_on(rule: &Rule, len: u16, spot: Spot, table: &[bool]) -> bool
    requires rule { IsRule rule.now }
    requires known { AreKnown rule.now len (place_of len spot) table.now }
    ensures { (list : List Break) → IsTrue (is_walk rule.now len list) → spot ≡ spot_of rule.now list → result ≡ is_live rule.now len list }
{
    ends(rule, len, spot) || first_live(rule, len, spot, table).is_some()
}

/// The table of all spots, those of later offsets first.
fn live_table(alloc: Global, rule: &Rule, len: u16) -> Result<Vec<bool>, NoMemory>
    requires { IsRule rule.now }
    ensures { IfOk result (λ table. AreLive rule.now len table.items) }
{
    let mut table = Vec::new(alloc);
    for place in 0..256 * (usize::from(len) + 1) {
        let spot = spot_at(len, place);
        let live = leads_on(rule, len, spot, &table);
        table.push(live)?;
    }
    Ok(table)
}

impl LiveSpots {
    /// The spots of this rule in shifts of `len` slots. The time it takes is in the order of the spots times the breaks
    /// that may come next at one.
    pub fn new(alloc: Global, rule: &Rule, len: u16) -> Result<LiveSpots, NoMemory>
        requires { IsRule rule.now }
        ensures { IfOk result (λ spots. (spots.rule ≡ rule.now) × (spots.len ≡ len)) }
    {
        let table = live_table(alloc, rule, len)?;
        Ok(LiveSpots {
            len,
            table,
            rule: Snapshot::of(rule),
        })
    }

    /// Whether some legal list begins with the breaks of a walk that reaches the spot. It takes no memory.
    pub fn is_live(&self, spot: Spot) -> bool
        ensures { (list : List Break) → IsTrue (is_walk self.now.rule self.now.len list) → spot ≡ spot_of self.now.rule list → result ≡ is_live self.now.rule self.now.len list }
    {
        is_live_in(&self.table, self.len, spot)
    }

    /// The first break that may come next at the spot of a walk and behind which a legal list can be reached, and `None`
    /// where there is none. It takes no memory.
    pub fn first_next(&self, rule: &Rule, spot: Spot) -> Option<Break>
        requires rule { IsRule rule.now }
        requires same { rule.now ≡ self.now.rule }
        ensures { (list : List Break) → IsTrue (is_walk rule.now self.now.len list) → spot ≡ spot_of rule.now list → result ≡ find (λ b. is_live rule.now self.now.len (list ++ b ∷ [])) (nexts_of rule.now self.now.len spot) }
    {
        first_live(rule, self.len, spot, &self.table)
    }
}

/// The spot behind a list of breaks, if the list is a walk by next breaks.
fn spot_behind(rule: &Rule, len: u16, list: &[Break]) -> Option<Spot>
    requires { IsRule rule.now }
    ensures { MatchOption result (is_walk rule.now len list.now ≡ false) (λ spot. IsTrue (is_walk rule.now len list.now) × (spot ≡ spot_of rule.now list.now)) }
{
    let total = total(rule, len);
    let mut spot = Spot::opening();
    for next in list {
        if !follows(
            rule,
            len,
            total,
            u32::from(spot.offset),
            u32::from(spot.used),
            next,
        ) {
            return None;
        }
        spot = after(rule, spot, *next);
    }
    Some(spot)
}

/// Whether some legal list for a shift of `len` slots begins with these breaks.
pub fn live(alloc: Global, rule: &Rule, len: u16, list: &[Break]) -> Result<bool, NoMemory>
    requires { IsRule rule.now }
    ensures { IfOk result (λ answer. answer ≡ is_live rule.now len list.now) }
{
    match spot_behind(rule, len, list) {
        Some(spot) => Ok(LiveSpots::new(alloc, rule, len)?.is_live(spot)),
        None => Ok(false),
    }
}

/// The least legal list for a shift of `len` slots, in the order of lists (break by break, a proper prefix first), and
/// `None` where no list is legal.
pub fn least(alloc: Global, rule: &Rule, len: u16) -> Result<Option<Breaks>, NoMemory>
    requires { IsRule rule.now }
    ensures first { IfOk result (λ found. found ≡ slice_get (legal_lists rule.now len) 0) }
    ensures least { IfOk result (λ found. MatchOption found ((list : List Break) → is_legal rule.now len list ≡ false) (λ list. IsLeastLegal rule.now len list)) }
{
    let spots = LiveSpots::new(alloc, rule, len)?;
    let mut spot = Spot::opening();
    if !spots.is_live(spot) {
        return Ok(None);
    }
    let mut list = Vec::new(alloc);
    while let Some(next) = spots.first_next(rule, spot) {
        list.push(next)?;
        spot = after(rule, spot, next);
    }
    Ok(Some(Breaks::new(list)))
}
