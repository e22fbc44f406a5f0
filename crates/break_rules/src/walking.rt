//! The walk from break to break: the breaks that may come next, the spot behind one, and whether a list may end there.

ghost use Rattle.std.specs.Prelude.{◌≡◌, ◌+◌, ◌^◌, ◌<◌, ◌≤◌, List, [], ◌∷◌, ◌++◌, MatchOption, IsTrue, length, Bool, ℕ, ◌||◌, nat_lt};
ghost use Rattle.std.specs.List.{list_all};
ghost use Rattle.std.specs.Iterator.{YieldsFirst, item_count};
ghost use Rattle.break_rules.specs.Breaks.{is_lunch, is_legal};
ghost use Rattle.break_rules.specs.Ranges.{IsRule};
ghost use Rattle.break_rules.specs.Walk.{nexts_of, spot_of, is_walk, bits_of};
ghost use Rattle.break_rules.specs.Next.{IsNext, shortest_of};

use crate::legality::{may_stop, meets, total};
use crate::{Break, Lunch, Rule, Spot};
use std::marker::Model;

/// The breaks that may come next at a spot, by start and then by length.
#[derive(Drop)]
pub struct NextBreaks<'a> {
    rule: &'a Rule,
    len: u16,
    offset: u16,
    used: u16,
    /// The start from which on no break may come.
    stop: u32,
    /// The offset by which breaks end.
    latest: u32,
    /// The greatest length of a break.
    longest: u32,
    start: u32,
    size: u32,
}

impl<'a> Model for NextBreaks<'a> {
    ghost use Rattle.std.specs.Prelude.{List};
    ghost use Rattle.break_rules.specs.declared.Break.{Break};

    ghost Value = { List Break };

    ghost use Rattle.std.specs.Prelude.{filter};
    ghost use Rattle.break_rules.specs.Walk.{may_follow, breaks_left};
    ghost use Rattle.break_rules.specs.Next.{IsAt};

    ghost view = { λ n. filter (may_follow n.rule.now n.len n.offset n.used) (breaks_left n.start n.size n.len) };

    ghost invariant = { λ n. IsAt n.rule.now n.len n.offset n.used n.stop n.latest n.longest n.start n.size };
}

/// The least length of a break that starts there, behind an offset.
fn shortest(rule: &Rule, offset: u32, start: u32) -> u32
    ensures { result ≡ shortest_of rule.now offset start }
{
    if start.saturating_sub(offset) <= u32::from(rule.long_work) {
        u32::from(rule.size_min)
    } else {
        u32::from(rule.size_min.max(rule.long_rest))
    }
}

/// The breaks that may come next at a spot, in rising order and each once: those that keep their distance from both ends
/// of the shift, after a work period of a length that the rule has, long enough for that period, of a length that the
/// rule has, and within the total break time. It takes no memory.
pub fn nexts(rule: &Rule, len: u16, spot: Spot) -> NextBreaks<'_>
    requires { IsRule rule.now }
    ensures { result ≡ nexts_of rule.now len spot }
{
    let offset = u32::from(spot.offset);
    let longest = rule
        .size_max
        .min(total(rule, len).saturating_sub(spot.used));
    let latest = u32::from(len.saturating_sub(rule.tail));
    let stop = if longest < rule.size_min {
        0
    } else {
        latest.min(offset + u32::from(rule.work_max) + 1)
    };
    let start = u32::from(rule.lead).max(offset + u32::from(rule.work_min));
    NextBreaks {
        rule,
        len,
        offset: spot.offset,
        used: spot.used,
        stop,
        latest,
        longest: u32::from(longest),
        start,
        size: shortest(rule, offset, start),
    }
}

impl<'a> NextBreaks<'a> {
    /// The next one.
    fn next_break(&mut self) -> Option<Break>
        ensures { MatchOption result ((self.old ≡ []) × (self.new ≡ [])) (λ b. self.old ≡ b ∷ self.new) }
    {
        while self.start < self.stop {
            if self.size <= self.longest && self.start + self.size <= self.latest {
                let next = Break {
                    start: self.start as u16,
                    len: self.size as u16,
                };
                self.size += 1;
                return Some(next);
            }
            self.start += 1;
            self.size = shortest(self.rule, u32::from(self.offset), self.start);
        }
        None
    }
}

impl<'a> Iterator for NextBreaks<'a> {
    type Item = Break;

    ghost next_gives = { YieldsFirst (λ s. s) };

    ghost remaining = { item_count (λ s. s) };

    fn next(&mut self) -> Option<Break> {
        self.next_break()
    }
}

/// The bits of the lunch entries that a break meets, the lowest for the first entry. It takes no memory.
pub fn lunches_met(entries: &[Lunch], b: &Break) -> u8
    requires few { length entries.now ≤ 2 }
    ensures bits { result ≡ bits_of (λ e. is_lunch e b.now) entries.now }
{
    let mut bits = 0;
    let mut bit = 1;
    for entry in entries {
        if meets(entry, b) {
            bits += bit;
        }
        bit *= 2;
    }
    bits
}

/// The spot behind a break that [`nexts`] gives at a spot. It takes no memory.
pub fn after(rule: &Rule, spot: Spot, next: Break) -> Spot
    requires { IsRule rule.now }
    ensures { (list : List Break) → spot ≡ spot_of rule.now list → IsNext rule.now spot next → result ≡ spot_of rule.now (list ++ next ∷ []) }
{
    Spot {
        offset: next.start.saturating_add(next.len),
        used: spot.used.saturating_add(next.len),
        lunches: spot.lunches | lunches_met(rule.lunches.as_slice(), &next),
    }
}

/// Whether each lunch entry that applies to a length has its bit.
fn all_lunched(entries: &[Lunch], len: u16, bits: u8) -> bool
    ensures { (met : Lunch → Bool) → bits ≡ bits_of met entries.now → result ≡ list_all (λ e. nat_lt len e.from_len || met e) entries.now }
{
    let mut rest = bits;
    for entry in entries {
        if entry.from_len <= len && rest % 2 == 0 {
            return false;
        }
        rest /= 2;
    }
    true
}

/// Whether the list of breaks behind which a spot stands is legal, for a spot that a walk from the opening spot reaches
/// by [`nexts`] and [`after`]. It takes no memory.
pub fn ends(rule: &Rule, len: u16, spot: Spot) -> bool
    requires { IsRule rule.now }
    ensures { (list : List Break) → IsTrue (is_walk rule.now len list) → spot ≡ spot_of rule.now list → result ≡ is_legal rule.now len list }
{
    let total = total(rule, len);
    may_stop(
        rule,
        len,
        total,
        u32::from(spot.offset),
        u32::from(spot.used),
    ) && all_lunched(rule.lunches.as_slice(), len, spot.lunches)
}
