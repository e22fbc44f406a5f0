//! Break patterns: in which of its slots a duty works.
#![tactic(auto)]

mod trie;

ghost use Rattle.std.specs.Prelude.{◌≡◌, ◌+◌, ◌^◌, ◌<◌};
ghost use Rattle.std.specs.List.{list_any};
ghost use Rattle.break_rules.specs.Breaks.{end_of, is_off, works_at};

use break_rules::{Break, Breaks, Rule};
pub use trie::Trie;

/// The breaks of a duty, with the length of its shift in slots.
#[derive(Clone, Drop)]
pub struct Pattern {
    /// The breaks, in the order of time.
    pub list: Breaks,
    /// The length of the shift.
    pub len: u16,
}

/// The slots after a break that don't count as cover.
fn resettle_of(rule: &Rule) -> u16
    ensures { result ≡ rule.now.resettle }
{
    rule.resettle
}

/// The first offset after a break.
fn end(b: &Break) -> u32
    ensures value { result ≡ end_of b.now }
    ensures small { result < 2 ^ 17 }
{
    u32::from(b.start) + u32::from(b.len)
}

/// Whether an offset lies in a break or among the resettling slots after it.
fn rests(rule: &Rule, offset: u16, b: &Break) -> bool
    ensures { result ≡ is_off rule.now offset b.now }
{
    b.start <= offset && u32::from(offset) < end(b) + u32::from(resettle_of(rule))
}

/// Whether an offset lies in one of some breaks or among the resettling slots after one.
fn is_resting(rule: &Rule, list: &[Break], offset: u16) -> bool
    ensures { result ≡ list_any (is_off rule.now offset) list.now }
{
    list.iter().any(|b| rests(rule, offset, b))
}

/// Whether a duty with these breaks works at an offset of its shift, which has `len` slots: the offset lies inside the
/// shift, in no break, and not among the resettling slots after one. Offsets are counted from 0. It takes no memory.
pub fn works(rule: &Rule, len: u16, list: &[Break], offset: u16) -> bool
    ensures { result ≡ works_at rule.now len list.now offset }
{
    offset < len && !is_resting(rule, list, offset)
}
