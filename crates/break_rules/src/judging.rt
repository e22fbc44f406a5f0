//! The faults of a break rule, one after another.
ghost use Rattle.std.specs.Prelude.{◌≡◌, ◌||◌, nat_lt, nat_le, length, drop};
ghost use Rattle.std.specs.List.{list_all, list_any, zip};
ghost use Rattle.break_rules.specs.Causes.{first_cause};
ghost use Rattle.break_rules.specs.RuleFaults.{rule_causes, is_range, rise_strictly, are_lunches_in_order, has_room, is_large_total, is_large_lunch, is_too_large};

use crate::{Lunch, Rule, RuleFault};

/// Whether two numbers are a range from 1 on up to a limit.
fn spans(low: u16, high: u16, limit: u16) -> bool
    ensures { result ≡ is_range low high limit }
{
    1 <= low && low <= high && high <= limit
}

/// Whether the lengths from which totals count rise strictly.
fn totals_rise(totals: &[(u16, u16)]) -> bool
    ensures { result ≡ rise_strictly totals.now }
{
    totals
        .iter()
        .zip(totals.iter().skip(1))
        .all(|(entry, next)| entry.0 < next.0)
}

/// Whether a lunch has a size, and room for it.
fn has_place(lunch: Lunch) -> bool
    ensures { result ≡ has_room lunch }
{
    0 < lunch.size && u32::from(lunch.first) + u32::from(lunch.size) <= u32::from(lunch.last)
}

/// Whether each lunch has a size and room for it.
fn all_placed(lunches: &[Lunch]) -> bool
    ensures { result ≡ list_all has_room lunches.now }
{
    lunches.iter().all(|lunch| has_place(*lunch))
}

/// Whether each lunch begins no earlier than the one before it ends.
fn lunches_follow(lunches: &[Lunch]) -> bool
    ensures { result ≡ list_all (λ p. nat_le p.0.last p.1.first) (zip lunches.now (drop 1 lunches.now)) }
{
    lunches
        .iter()
        .zip(lunches.iter().skip(1))
        .all(|(lunch, next)| lunch.last <= next.first)
}

/// Whether the lunches have room and are in order.
fn lunches_in_order(lunches: &[Lunch]) -> bool
    ensures { result ≡ are_lunches_in_order lunches.now }
{
    all_placed(lunches) && lunches_follow(lunches)
}

/// Whether an entry of the totals is too large.
fn large_total(entry: (u16, u16)) -> bool
    ensures { result ≡ is_large_total entry }
{
    288 < entry.0 || 48 < entry.1
}

/// Whether some entry of the totals is too large.
fn any_large_total(totals: &[(u16, u16)]) -> bool
    ensures { result ≡ list_any is_large_total totals.now }
{
    totals.iter().any(|entry| large_total(*entry))
}

/// Whether a lunch is too large.
fn large_lunch(lunch: Lunch) -> bool
    ensures { result ≡ is_large_lunch lunch }
{
    288 < lunch.from_len || 288 < lunch.last
}

/// Whether some lunch is too large.
fn any_large_lunch(lunches: &[Lunch]) -> bool
    ensures { result ≡ list_any is_large_lunch lunches.now }
{
    lunches.iter().any(|lunch| large_lunch(*lunch))
}

/// Whether a number of the rule outside its lists is too large.
fn large_number(rule: &Rule) -> bool
    ensures { result ≡ (nat_lt 288 rule.now.lead || nat_lt 288 rule.now.tail || nat_lt 288 rule.now.long_work || nat_lt 48 rule.now.long_rest) }
{
    288 < rule.lead || 288 < rule.tail || 288 < rule.long_work || 48 < rule.long_rest
}

/// Whether a number or a list of the rule is too large.
fn too_large(rule: &Rule) -> bool
    ensures { result ≡ is_too_large rule.now }
{
    let totals = rule.totals.as_slice();
    let lunches = rule.lunches.as_slice();
    large_number(rule)
        || any_large_total(totals)
        || any_large_lunch(lunches)
        || 16 < totals.len()
        || 2 < lunches.len()
}

/// The first fault of a rule.
#[tactic(auto, unfolding(crate::specs::RuleFaults::rule_causes))]
pub(crate) fn first_fault(rule: &Rule) -> Option<RuleFault>
    ensures { result ≡ first_cause (rule_causes rule.now) }
{
    if !spans(rule.work_min, rule.work_max, 288) {
        return Some(RuleFault::WorkRange);
    }
    if !spans(rule.size_min, rule.size_max, 48) {
        return Some(RuleFault::SizeRange);
    }
    if !totals_rise(rule.totals.as_slice()) {
        return Some(RuleFault::TotalsOrder);
    }
    if !lunches_in_order(rule.lunches.as_slice()) {
        return Some(RuleFault::LunchOrder);
    }
    if 1 < rule.resettle || rule.work_min < rule.resettle {
        return Some(RuleFault::Resettle);
    }
    if too_large(rule) {
        return Some(RuleFault::TooLarge);
    }
    None
}
