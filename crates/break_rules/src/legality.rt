//! Whether a list of breaks is legal, by one walk from break to break.

ghost use Rattle.std.specs.Prelude.{◌≡◌, ◌==◌, ◌&&◌, ◌+◌, ◌^◌, ◌<◌, ◌≤◌, nat_le, sum_by};
ghost use Rattle.std.specs.List.{list_all, list_any};
ghost use Rattle.break_rules.specs.Breaks.{total_in, total_of, end_of, keeps_ends, has_work, is_rested, has_size, is_lunch, is_lunched, is_legal};
ghost use Rattle.break_rules.specs.Walk.{may_follow, may_end, end_of_all};

use crate::{Break, Lunch, Rule};

/// The first offset after a break.
fn end(b: &Break) -> u32
    ensures value { result ≡ end_of b.now }
    ensures small { result < 2 ^ 17 }
{
    u32::from(b.start) + u32::from(b.len)
}

/// The break time that a table of totals has for a length: that of the last entry from a length on that it reaches, and
/// else 0. It takes no memory.
pub fn total_among(totals: &[(u16, u16)], len: u16) -> u16
    ensures total { result ≡ total_in totals.now len }
{
    let mut total = 0;
    for entry in totals {
        if entry.0 <= len {
            total = entry.1;
        }
    }
    total
}

/// The total break time of a shift.
pub(crate) fn total(rule: &Rule, len: u16) -> u16
    ensures { result ≡ total_of rule.now len }
{
    total_among(rule.totals.as_slice(), len)
}

/// Whether a break keeps its distance from both ends of the shift.
fn keeps_distance(rule: &Rule, len: u16, b: &Break) -> bool
    ensures { result ≡ keeps_ends rule.now len b.now }
{
    rule.lead <= b.start && end(b) + u32::from(rule.tail) <= u32::from(len)
}

/// Whether a work period may be that long.
pub(crate) fn may_work(rule: &Rule, from: u32, to: u32) -> bool
    ensures { result ≡ has_work rule.now (from, to) }
{
    let worked = to.saturating_sub(from);
    u32::from(rule.work_min) <= worked && worked <= u32::from(rule.work_max)
}

/// Whether a break is long enough for the work period before it.
fn rests_enough(rule: &Rule, from: u32, b: &Break) -> bool
    ensures { result ≡ is_rested rule.now ((from, b.now.start), b.now) }
{
    u32::from(b.start).saturating_sub(from) <= u32::from(rule.long_work) || rule.long_rest <= b.len
}

/// Whether a break may be that long.
fn may_rest(rule: &Rule, b: &Break) -> bool
    ensures { result ≡ has_size rule.now b.now }
{
    rule.size_min <= b.len && b.len <= rule.size_max
}

/// Whether a break may come next, behind an offset and after that much break time.
pub(crate) fn follows(rule: &Rule, len: u16, total: u16, offset: u32, used: u32, b: &Break) -> bool
    requires used { used < 2 ^ 16 }
    requires total { total ≡ total_of rule.now len }
    ensures { result ≡ may_follow rule.now len offset used b.now }
{
    offset <= u32::from(b.start)
        && 0 < b.len
        && keeps_distance(rule, len, b)
        && may_work(rule, offset, u32::from(b.start))
        && rests_enough(rule, offset, b)
        && may_rest(rule, b)
        && used + u32::from(b.len) <= u32::from(total)
}

/// Whether a break meets a lunch entry.
pub(crate) fn meets(entry: &Lunch, b: &Break) -> bool
    ensures { result ≡ is_lunch entry.now b.now }
{
    b.len == entry.size && entry.first <= b.start && end(b) <= u32::from(entry.last)
}

/// Whether some break meets a lunch entry.
fn has_lunch(list: &[Break], entry: &Lunch) -> bool
    ensures { result ≡ list_any (is_lunch entry.now) list.now }
{
    list.iter().any(|b| meets(entry, b))
}

/// Whether a lunch entry doesn't apply, or some break meets it.
fn is_met(len: u16, list: &[Break], entry: &Lunch) -> bool
    ensures { result ≡ is_lunched len list.now entry.now }
{
    len < entry.from_len || has_lunch(list, entry)
}

/// Whether each lunch entry that applies is met.
fn all_met(len: u16, list: &[Break], entries: &[Lunch]) -> bool
    ensures { result ≡ list_all (is_lunched len list.now) entries.now }
{
    entries.iter().all(|entry| is_met(len, list, entry))
}

/// Whether a shift may end with a work period from an offset on, after that much break time.
pub(crate) fn may_stop(rule: &Rule, len: u16, total: u16, offset: u32, used: u32) -> bool
    requires total { total ≡ total_of rule.now len }
    ensures { result ≡ (nat_le offset len && has_work rule.now (offset, len) && (used == total_of rule.now len)) }
{
    offset <= u32::from(len) && may_work(rule, offset, u32::from(len)) && used == u32::from(total)
}

/// Whether the breaks may be followed by work up to the end of the shift.
fn may_finish(rule: &Rule, len: u16, total: u16, offset: u32, used: u32, list: &[Break]) -> bool
    requires offset { offset ≡ end_of_all list.now }
    requires used { used ≡ sum_by (λ b. b.len) list.now }
    requires total { total ≡ total_of rule.now len }
    ensures { result ≡ may_end rule.now len list.now }
{
    may_stop(rule, len, total, offset, used) && all_met(len, list, rule.lunches.as_slice())
}

/// Whether a list of breaks is legal for a shift of `len` slots. It takes no memory.
pub fn legal(rule: &Rule, len: u16, list: &[Break]) -> bool
    ensures { result ≡ is_legal rule.now len list.now }
{
    let total = total(rule, len);
    let mut offset = 0;
    let mut used = 0;
    for b in list {
        if !follows(rule, len, total, offset, used, b) {
            return false;
        }
        offset = end(b);
        used += u32::from(b.len);
    }
    may_finish(rule, len, total, offset, used, list)
}
