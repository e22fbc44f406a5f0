//! The types none of whose lengths has a legal break list, and the part of their rule that forbids them all; the types whose
//! totals say nothing of their shifts.
ghost use Rattle.std.specs.Prelude.{◌≡◌, IfOk};
ghost use Rattle.break_rules.specs.Ranges.{IsRule};
ghost use Rattle.shift_instance.specs.Listing.{IsListed};
ghost use Rattle.instance_warnings.specs.Breaks.{has_lists, has_lists_of_total, has_lists_without, is_out_of_reach, lacks_totals, has_plain_fields, forgets_totals, culprit};

use crate::relaxing::{Part, relaxed, with_total};
use break_rules::{NoMemory, Rule, live};
use shift_instance::TypeParts;
use std::alloc::Global;

/// Whether some length of a type has a legal break list, by a rule in place of the type's.
pub(crate) fn has_lists(alloc: Global, kind: &TypeParts, rule: &Rule) -> Result<bool, NoMemory>
    requires listed { IsListed kind.now }
    requires rule { IsRule rule.now }
    ensures { IfOk result (λ has. has ≡ has_lists kind.now rule.now) }
{
    let low = kind.len_min;
    let high = kind.len_max + 1;
    for len in low..high {
        if live(alloc, rule, len, &[])? {
            return Ok(true);
        }
    }
    Ok(false)
}

/// Whether some total break time gives one of a type's lengths a legal break list.
fn has_lists_of_total(alloc: Global, kind: &TypeParts) -> Result<bool, NoMemory>
    requires listed { IsListed kind.now }
    requires rule { IsRule kind.now.rule }
    ensures { IfOk result (λ has. has ≡ has_lists_of_total kind.now) }
{
    for total in 0u16..49 {
        let rule = with_total(alloc, &kind.rule, total)?;
        if has_lists(alloc, kind, &rule)? {
            return Ok(true);
        }
    }
    Ok(false)
}

/// Whether some length of a type has a legal break list where one part of its rule is left out.
fn has_lists_without(alloc: Global, kind: &TypeParts, part: Part) -> Result<bool, NoMemory>
    requires listed { IsListed kind.now }
    requires rule { IsRule kind.now.rule }
    ensures { IfOk result (λ has. has ≡ has_lists_without kind.now part) }
{
    if part == Part::Totals {
        return has_lists_of_total(alloc, kind);
    }
    let rule = relaxed(alloc, &kind.rule, part)?;
    has_lists(alloc, kind, &rule)
}

/// Whether an entry of totals holds for no shift of a type.
fn is_out_of_reach(kind: &TypeParts, entry: (u16, u16)) -> bool
    ensures { result ≡ is_out_of_reach kind.now entry }
{
    kind.len_max < entry.0
}

/// Whether no entry of totals holds for a shift of a type.
pub(crate) fn lacks_totals(kind: &TypeParts) -> bool
    ensures { result ≡ lacks_totals kind.now }
{
    let totals = kind.rule.totals.as_slice();
    totals.iter().all(|entry| is_out_of_reach(kind, *entry))
}

/// Whether a rule is the plain one.
fn is_plain(rule: &Rule) -> bool
    ensures { result ≡ has_plain_fields rule.now }
{
    rule.is_plain()
}

/// Whether a type has a break rule, and no entry of its totals holds for a shift of the type.
pub(crate) fn forgets_totals(kind: &TypeParts) -> bool
    ensures { result ≡ forgets_totals kind.now }
{
    lacks_totals(kind) && !is_plain(&kind.rule)
}

/// The first part of a type's rule without which some length has a legal break list, if one alone does. Totals that say
/// nothing of the type's shifts come first.
pub(crate) fn culprit(alloc: Global, kind: &TypeParts) -> Result<Option<Part>, NoMemory>
    requires listed { IsListed kind.now }
    requires rule { IsRule kind.now.rule }
    ensures { IfOk result (λ part. part ≡ culprit kind.now) }
{
    if lacks_totals(kind) && has_lists_of_total(alloc, kind)? {
        return Ok(Some(Part::Totals));
    }
    if has_lists_without(alloc, kind, Part::Ends)? {
        return Ok(Some(Part::Ends));
    }
    if has_lists_without(alloc, kind, Part::Lunches)? {
        return Ok(Some(Part::Lunches));
    }
    if has_lists_without(alloc, kind, Part::Work)? {
        return Ok(Some(Part::Work));
    }
    if has_lists_without(alloc, kind, Part::Rest)? {
        return Ok(Some(Part::Rest));
    }
    if has_lists_without(alloc, kind, Part::Sizes)? {
        return Ok(Some(Part::Sizes));
    }
    if has_lists_without(alloc, kind, Part::Totals)? {
        return Ok(Some(Part::Totals));
    }
    Ok(None)
}
