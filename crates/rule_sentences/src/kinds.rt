//! What is said of a shift type, part by part.
ghost use Rattle.std.specs.Prelude.{◌≡◌, ◌&&◌, ◌||◌, ◌++◌, [], ◌∷◌, nat_lt, nat_le, IfOk, OnOk};
ghost use Rattle.std.specs.List.{flat_map, list_any};
ghost use Rattle.break_rules.specs.Breaks.{total_of};
ghost use Rattle.rule_sentences.specs.Clauses.{is_later, has_no_break, later_total, limits_sizes, sizes, applies, lunch_clause, lunch_clauses, lunchless, most_work, least_work, rest, ends, resettling, work_clauses, break_clauses, clauses_of};

use break_rules::{Lunch, NoMemory, total_among};
use shift_instance::TypeParts;
use std::alloc::Global;

/// A part of what is said of a shift type. All numbers are slots.
#[derive(Clone, Copy, PartialEq, Eq, Drop)]
pub enum Clause {
    /// The first and the last slot at which shifts start, counted from the midnight of their day.
    Starts {
        first: u16,
        last: u16,
    },
    /// The lengths of shifts.
    Lengths {
        least: u16,
        greatest: u16,
    },
    /// No shift has a break.
    NoBreaks,
    /// The break time of the shortest shifts.
    Total {
        total: u16,
    },
    /// The break time of shifts from a length on.
    TotalFrom {
        from: u16,
        total: u16,
    },
    /// The lengths of breaks.
    Sizes {
        least: u16,
        greatest: u16,
    },
    /// A break may have every length.
    AnySize,
    /// A lunch of that length that begins and ends between two offsets.
    LunchBreak {
        size: u16,
        first: u16,
        last: u16,
    },
    /// The same, in shifts from a length on.
    LunchBreakFrom {
        from: u16,
        size: u16,
        first: u16,
        last: u16,
    },
    /// No lunch is asked for.
    NoLunch,
    /// The longest work without a break.
    MostWork {
        most: u16,
    },
    /// Work without a break may last as long as a shift.
    AnyMostWork,
    /// The shortest work before, between and after breaks.
    LeastWork {
        least: u16,
    },
    /// Work may be as short as a slot.
    AnyLeastWork,
    /// After longer work than that a break has that length at least.
    Rest {
        work: u16,
        rest: u16,
    },
    /// Any break may follow any work.
    NoRest,
    /// How long there is no break behind the start and before the end.
    Ends {
        lead: u16,
        tail: u16,
    },
    /// A break may lie at either end.
    AnyEnds,
    /// How long whoever comes back from a break doesn't count yet.
    Resettling {
        slots: u16,
    },
}

/// The break time of the shortest shifts of a type.
fn first_total(kind: &TypeParts) -> u16
    ensures { result ≡ total_of kind.now.rule kind.now.len_min }
{
    total_among(kind.rule.totals.as_slice(), kind.len_min)
}

/// Whether an entry of totals begins to hold at a length of the type, and not at its least one.
fn is_later(kind: &TypeParts, entry: (u16, u16)) -> bool
    ensures { result ≡ is_later kind.now entry }
{
    kind.len_min < entry.0 && entry.0 <= kind.len_max
}

/// Whether an entry of totals begins to hold at a length of the type but its least one, with more than so much break time.
fn is_later_above(kind: &TypeParts, above: u16, entry: (u16, u16)) -> bool
    ensures { result ≡ (is_later kind.now entry && nat_lt above entry.1) }
{
    is_later(kind, entry) && above < entry.1
}

/// Whether some length of the type but its least one begins to have more than so much break time.
fn has_later_total(kind: &TypeParts, above: u16) -> bool
    ensures { result ≡ list_any (λ e. is_later kind.now e && nat_lt above e.1) kind.now.rule.totals }
{
    let totals = kind.rule.totals.as_slice();
    totals
        .iter()
        .any(|entry| is_later_above(kind, above, *entry))
}

/// Whether no shift of a type has a break.
pub fn has_no_break(kind: &TypeParts) -> bool
    ensures { result ≡ has_no_break kind.now }
{
    first_total(kind) == 0 && !has_later_total(kind, 0)
}

/// Adds the break times of shifts that are longer than the shortest.
fn push_totals(
    kind: &TypeParts,
    totals: &[(u16, u16)],
    list: &mut Vec<Clause>,
) -> Result<(), NoMemory>
    ensures { OnOk result (list.new.items ≡ list.old.items ++ flat_map (later_total kind.now) totals.now) }
{
    for entry in totals {
        if is_later(kind, *entry) {
            list.push(Clause::TotalFrom {
                from: entry.0,
                total: entry.1,
            })?;
        }
    }
    Ok(())
}

/// The lengths of a type's breaks.
fn sizes(kind: &TypeParts) -> Clause
    ensures { result ≡ sizes kind.now }
{
    let least = kind.rule.size_min;
    let greatest = kind.rule.size_max;
    if 1 < least || greatest < first_total(kind) || has_later_total(kind, greatest) {
        Clause::Sizes { least, greatest }
    } else {
        Clause::AnySize
    }
}

/// Whether a lunch entry applies to shifts of a type.
fn applies(kind: &TypeParts, lunch: &Lunch) -> bool
    ensures { result ≡ applies kind.now lunch.now }
{
    lunch.from_len <= kind.len_max
}

/// A lunch of a type.
fn lunch_clause(kind: &TypeParts, lunch: &Lunch) -> Clause
    ensures { result ≡ lunch_clause kind.now lunch.now }
{
    let Lunch {
        from_len: from,
        size,
        first,
        last,
    } = *lunch;
    if kind.len_min < from {
        Clause::LunchBreakFrom {
            from,
            size,
            first,
            last,
        }
    } else {
        Clause::LunchBreak { size, first, last }
    }
}

/// Adds the lunches of a type.
fn push_lunches(kind: &TypeParts, lunches: &[Lunch], list: &mut Vec<Clause>) -> Result<(), NoMemory>
    ensures { OnOk result (list.new.items ≡ list.old.items ++ flat_map (lunch_clauses kind.now) lunches.now) }
{
    for lunch in lunches {
        if applies(kind, lunch) {
            list.push(lunch_clause(kind, lunch))?;
        }
    }
    Ok(())
}

/// Whether a lunch is asked for in some shift of a type.
fn has_lunch(kind: &TypeParts) -> bool
    ensures { result ≡ list_any (applies kind.now) kind.now.rule.lunches }
{
    let lunches = kind.rule.lunches.as_slice();
    lunches.iter().any(|lunch| applies(kind, lunch))
}

/// Adds that no lunch is asked for, where none is.
fn push_lunchless(kind: &TypeParts, list: &mut Vec<Clause>) -> Result<(), NoMemory>
    ensures { OnOk result (list.new.items ≡ list.old.items ++ lunchless kind.now) }
{
    if !has_lunch(kind) {
        list.push(Clause::NoLunch)?;
    }
    Ok(())
}

/// The longest work without a break.
fn most_work(kind: &TypeParts) -> Clause
    ensures { result ≡ most_work kind.now }
{
    let most = kind.rule.work_max;
    if most < kind.len_max {
        Clause::MostWork { most }
    } else {
        Clause::AnyMostWork
    }
}

/// The shortest work before, between and after breaks.
fn least_work(kind: &TypeParts) -> Clause
    ensures { result ≡ least_work kind.now }
{
    let least = kind.rule.work_min;
    if 1 < least {
        Clause::LeastWork { least }
    } else {
        Clause::AnyLeastWork
    }
}

/// The break after long work.
fn rest(kind: &TypeParts) -> Clause
    ensures { result ≡ rest kind.now }
{
    let work = kind.rule.long_work;
    let rest = kind.rule.long_rest;
    let longest = kind.rule.work_max.min(kind.len_max);
    if work < longest && kind.rule.size_min < rest {
        Clause::Rest { work, rest }
    } else {
        Clause::NoRest
    }
}

/// The ends of a shift without a break.
fn ends(kind: &TypeParts) -> Clause
    ensures { result ≡ ends kind.now }
{
    let lead = kind.rule.lead;
    let tail = kind.rule.tail;
    if 0 < lead || 0 < tail {
        Clause::Ends { lead, tail }
    } else {
        Clause::AnyEnds
    }
}

/// Adds what is said of work, and of the ends of shifts.
fn push_work(kind: &TypeParts, list: &mut Vec<Clause>) -> Result<(), NoMemory>
    ensures { OnOk result (list.new.items ≡ list.old.items ++ work_clauses kind.now) }
{
    list.push(most_work(kind))?;
    list.push(rest(kind))?;
    list.push(least_work(kind))?;
    list.push(ends(kind))?;
    Ok(())
}

/// Adds how long whoever comes back from a break doesn't count, if at all.
fn push_resettling(kind: &TypeParts, list: &mut Vec<Clause>) -> Result<(), NoMemory>
    ensures { OnOk result (list.new.items ≡ list.old.items ++ resettling kind.now) }
{
    let slots = kind.rule.resettle;
    if 0 < slots {
        list.push(Clause::Resettling { slots })?;
    }
    Ok(())
}

/// Adds what is said of breaks where some shift of a type has one.
fn push_breaks(kind: &TypeParts, list: &mut Vec<Clause>) -> Result<(), NoMemory>
    ensures { OnOk result (list.new.items ≡ list.old.items ++ break_clauses kind.now) }
{
    list.push(Clause::Total {
        total: first_total(kind),
    })?;
    push_totals(kind, kind.rule.totals.as_slice(), list)?;
    list.push(sizes(kind))?;
    push_lunches(kind, kind.rule.lunches.as_slice(), list)?;
    push_lunchless(kind, list)?;
    push_work(kind, list)?;
    push_resettling(kind, list)
}

/// What is said of a shift type: its starts and lengths, and of its breaks each part of the rule, also that it limits nothing
/// where no shift of the type could break it. A type without breaks has the one clause that says so.
pub fn clauses(alloc: Global, kind: &TypeParts) -> Result<Vec<Clause>, NoMemory>
    ensures { IfOk result (λ list. list.items ≡ clauses_of kind.now) }
{
    let mut list = Vec::new(alloc);
    list.push(Clause::Starts {
        first: kind.start_min,
        last: kind.start_max,
    })?;
    list.push(Clause::Lengths {
        least: kind.len_min,
        greatest: kind.len_max,
    })?;
    if has_no_break(kind) {
        list.push(Clause::NoBreaks)?;
    } else {
        push_breaks(kind, &mut list)?;
    }
    Ok(list)
}
