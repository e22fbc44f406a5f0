//! Which breaks a layer has: their lengths, the work that they may follow, and the lunches that they meet.

ghost use Rattle.std.specs.Prelude.{◌≡◌, ◌==◌, ◌<◌, ◌≤◌, Bool, true, List, length};
ghost use Rattle.std.specs.List.{list_any};
ghost use Rattle.break_rules.specs.declared.Break.{Break};
ghost use Rattle.break_rules.specs.declared.Lunch.{Lunch};
ghost use Rattle.break_rules.specs.Breaks.{is_lunch};
ghost use Rattle.break_rules.specs.Ranges.{IsRule};
ghost use Rattle.break_rules.specs.Walk.{bits_of};
ghost use Rattle.break_rules.specs.Lists.{Has};
ghost use Rattle.break_layers.specs.Layered.{layer_of, longest_work_of, size_limit_of, AreSizesIn};

use crate::layers::Layer;
use break_rules::{Lunch, Rule, total_among};

/// A range of lengths of breaks.
#[derive(Clone, Copy, Drop)]
pub(crate) struct Sizes {
    /// The least.
    pub(crate) from: u16,
    /// One more than the greatest.
    pub(crate) to: u16,
}

/// Whether a layer has no lunches but those of some entries, and break time for each of them.
pub(crate) fn has_time(entries: &[Lunch], layer: Layer) -> bool
    ensures { (met : Lunch → Bool) → layer.lunches ≡ bits_of met entries.now → ((e : Lunch) → Has entries.now e → met e ≡ true → e.size ≤ layer.used) → result ≡ true }
{
    let mut rest = layer.lunches;
    for entry in entries {
        if rest % 2 == 1 && layer.used < entry.size {
            return false;
        }
        rest /= 2;
    }
    rest == 0
}

/// The greatest length of a break in a layer, and 0 where no spot lies in it.
fn longest(rule: &Rule, len: u16, layer: Layer) -> u16
    requires { IsRule rule.now }
    ensures most { result ≤ size_limit_of rule.now len layer }
    ensures all { (list : List Break) → layer ≡ layer_of rule.now list → result ≡ size_limit_of rule.now len layer }
{
    if !has_time(rule.lunches.as_slice(), layer) {
        return 0;
    }
    let total = total_among(rule.totals.as_slice(), len);
    rule.size_max.min(total.saturating_sub(layer.used))
}

/// The longest work period that a break of that length may follow.
pub(crate) fn longest_work(rule: &Rule, size: u16) -> u16
    ensures { result ≡ longest_work_of rule.now size }
{
    if rule.long_rest <= size {
        rule.work_max
    } else {
        rule.work_max.min(rule.long_work)
    }
}

/// The lengths of the breaks of a layer: those that may not follow long work, and those that may follow any.
pub(crate) fn layer_sizes(rule: &Rule, len: u16, layer: Layer) -> (Sizes, Sizes)
    requires { IsRule rule.now }
    ensures short { AreSizesIn rule.now len layer result.0 }
    ensures long { AreSizesIn rule.now len layer result.1 }
    ensures least { result.0.from ≡ rule.now.size_min }
    ensures rise { (result.0.from ≤ result.0.to) × (result.0.to ≤ result.1.to) }
    ensures meet { result.1.from ≡ result.0.to }
    ensures all { (list : List Break) → layer ≡ layer_of rule.now list → size_limit_of rule.now len layer < result.1.to }
{
    let from = rule.size_min;
    let to = from.max(longest(rule, len, layer) + 1);
    let split = from.max(to.min(rule.long_rest));
    (Sizes { from, to: split }, Sizes { from: split, to })
}

/// Whether some lunch entry has a length.
fn some_has(entries: &[Lunch], size: u16) -> bool
    ensures { result ≡ list_any (λ e. e.size == size) entries.now }
{
    entries.iter().any(|entry| entry.size == size)
}

/// The lunch entries if one of them has a length, and else none.
pub(crate) fn lunches_of(entries: &[Lunch], size: u16) -> &[Lunch]
    ensures few { length result.now ≤ length entries.now }
    ensures bits { (stop : Break) → stop.len ≡ size → bits_of (λ e. is_lunch e stop) result.now ≡ bits_of (λ e. is_lunch e stop) entries.now }
{
    if some_has(entries, size) {
        entries
    } else {
        &entries[..0]
    }
}
