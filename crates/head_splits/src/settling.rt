//! Which class to split at a node, or what its cuts leave.
ghost use Rattle.std.specs.Prelude.{◌≡◌, ◌+◌, ◌*◌, ◌<◌, ◌≤◌, ◌/◌, ◌&&◌, ◌==◌, ◌++◌, ◌∷◌, [], length, map, nat_lt, nat_le, IsTrue, IfOk, OnOk, None, Some, if◌then◌else◌};
ghost use Rattle.std.specs.List.{find, list_all};
ghost use Rattle.shift_instance.specs.Problem.{shift_list};
ghost use Rattle.shift_instance.specs.Rota.{rota_of, heads_on};
ghost use Rattle.head_splits.specs.Below.{IsWalked, StandsOn, IsClear, duties_below, shift_duties, is_open};
ghost use Rattle.head_splits.specs.Cuts.{low, high, meets};
ghost use Rattle.head_splits.specs.Ranges.{AreRanges, class_at};
ghost use Rattle.head_splits.specs.Settled.{class_of, prefixes, is_settled, settled_rows};
ghost use Rattle.shift_instance.specs.AllDuties.{all_duties};
ghost use Rattle.head_splits.specs.Settling.{IsSettle};

use crate::table::{Place, RangeTable};
use crate::{Class, Cuts, Settle, meets};
use break_rules::{Breaks, NoMemory};
use list_walks::{ListWalks, Standing};
use shift_instance::{Duty, Instance, Row, Rows};
use std::alloc::Global;

/// A walk over the legal duties in order: the duties below which it stands, and the rows of those that it has passed.
#[derive(Drop)]
struct Walk {
    place: Place,
    rows: Vec<Row>,
}

/// Passes the duties of a whole legal list, whose number is in this range. Where that isn't fixed, the duty is given.
fn pass(walk: &mut Walk, low: u16, high: u16) -> Result<Option<Duty>, NoMemory>
    ensures found { IfOk result (λ found. found ≡ (if nat_lt low high then Some (record { shift = walk.old.place.shift; day = walk.old.place.day; breaks = walk.old.place.prefix.items }) else None)) }
    ensures rows { IfOk result (λ found. found ≡ None → walk.new.rows.items ≡ walk.old.rows.items ++ (if nat_lt 0 low then record { shift = walk.old.place.shift; day = walk.old.place.day; breaks = walk.old.place.prefix.items; count = low } ∷ [] else [])) }
    ensures place { IfOk result (λ _. (walk.new.place.shift ≡ walk.old.place.shift) × (walk.new.place.day ≡ walk.old.place.day) × (walk.new.place.prefix.items ≡ walk.old.place.prefix.items)) }
{
    if low < high {
        return Ok(Some(Duty {
            shift: walk.place.shift,
            day: walk.place.day,
            breaks: Breaks::new(walk.place.prefix.clone()?),
        }));
    }
    if low == 0 {
        return Ok(None);
    }
    walk.rows.push(Row {
        shift: walk.place.shift,
        day: walk.place.day,
        breaks: Breaks::new(walk.place.prefix.clone()?),
        count: low,
    })?;
    Ok(None)
}

/// Walks over the legal duties below the walk's breaks, which stand there, to the first one whose number isn't fixed.
fn walk_below(
    alloc: Global,
    instance: &Instance,
    cuts: &Cuts,
    table: &RangeTable,
    lists: &ListWalks<'_>,
    at: Standing,
    walk: &mut Walk,
) -> Result<Option<Duty>, NoMemory>
    requires table { AreRanges instance.now cuts.now table.now }
    requires stands { StandsOn instance.now walk.old.place.shift lists.now at walk.old.place.prefix.items }
    requires clear { IsClear instance.now cuts.now walk.old.place.shift walk.old.place.day walk.old.place.prefix.items }
    ensures walked { IfOk result (λ found. IsWalked instance.now cuts.now (duties_below instance.now walk.old.place.shift walk.old.place.day walk.old.place.prefix.items) found walk.old.rows.items walk.new.rows.items) }
    ensures place { IfOk result (λ found. found ≡ None → (walk.new.place.shift ≡ walk.old.place.shift) × (walk.new.place.day ≡ walk.old.place.day) × (walk.new.place.prefix.items ≡ walk.old.place.prefix.items)) }
{
    let (low, high) = table.range_of(&walk.place);
    if high == 0 {
        return Ok(None);
    }
    let onward = lists.ways(alloc, at)?;
    let ways = onward.as_slice();
    if ways.is_empty() {
        return pass(walk, low, high);
    }
    for way in ways {
        walk.place.prefix.push(way.stop)?;
        let found = walk_below(alloc, instance, cuts, table, lists, way.at, walk)?;
        if found.is_some() {
            return Ok(found);
        }
        walk.place.prefix.pop();
    }
    Ok(None)
}

/// Walks over the legal duties of the walk's shift, day by day, to the first one whose number isn't fixed.
fn walk_days(
    alloc: Global,
    instance: &Instance,
    cuts: &Cuts,
    table: &RangeTable,
    lists: &ListWalks<'_>,
    opening: Standing,
    walk: &mut Walk,
) -> Result<Option<Duty>, NoMemory>
    requires table { AreRanges instance.now cuts.now table.now }
    requires opening { StandsOn instance.now walk.old.place.shift lists.now opening [] }
    requires start { walk.old.place.prefix.items ≡ [] }
    ensures walked { IfOk result (λ found. IsWalked instance.now cuts.now (shift_duties instance.now walk.old.place.shift) found walk.old.rows.items walk.new.rows.items) }
    ensures start { IfOk result (λ found. found ≡ None → walk.new.place.prefix.items ≡ []) }
{
    for day in 0..instance.days() {
        walk.place.day = day;
        let found = walk_below(alloc, instance, cuts, table, lists, opening, walk)?;
        if found.is_some() {
            return Ok(found);
        }
    }
    Ok(None)
}

/// Walks over the legal duties of the walk's shift to the first one whose number isn't fixed.
fn walk_shift(
    alloc: Global,
    instance: &Instance,
    cuts: &Cuts,
    table: &RangeTable,
    walk: &mut Walk,
) -> Result<Option<Duty>, NoMemory>
    requires table { AreRanges instance.now cuts.now table.now }
    requires shift { walk.old.place.shift < length (shift_list instance.now) }
    requires start { walk.old.place.prefix.items ≡ [] }
    ensures walked { IfOk result (λ found. IsWalked instance.now cuts.now (shift_duties instance.now walk.old.place.shift) found walk.old.rows.items walk.new.rows.items) }
    ensures start { IfOk result (λ found. found ≡ None → walk.new.place.prefix.items ≡ []) }
{
    let lists = ListWalks::of_shift(alloc, instance, walk.place.shift)?;
    match lists.opening() {
        Some(opening) => walk_days(alloc, instance, cuts, table, &lists, opening, walk),
        None => Ok(None),
    }
}

/// Walks over all legal duties to the first one whose number isn't fixed.
fn walk_shifts(
    alloc: Global,
    instance: &Instance,
    cuts: &Cuts,
    table: &RangeTable,
    walk: &mut Walk,
) -> Result<Option<Duty>, NoMemory>
    requires table { AreRanges instance.now cuts.now table.now }
    requires start { walk.old.place.prefix.items ≡ [] }
    ensures walked { IfOk result (λ found. IsWalked instance.now cuts.now (all_duties instance.now) found walk.old.rows.items walk.new.rows.items) }
{
    for shift in 0..instance.shifts().len() {
        walk.place.shift = shift as u16;
        let found = walk_shift(alloc, instance, cuts, table, walk)?;
        if found.is_some() {
            return Ok(found);
        }
    }
    Ok(None)
}

/// The class of the shortest prefix of a duty's breaks whose number isn't fixed.
fn open_place(
    alloc: Global,
    instance: &Instance,
    cuts: &Cuts,
    table: &RangeTable,
    duty: &Duty,
) -> Result<Place, NoMemory>
    requires table { AreRanges instance.now cuts.now table.now }
    requires duty { IsTrue (is_open instance.now cuts.now duty.now) }
    ensures first { IfOk result (λ place. find (λ c. nat_lt (low cuts.now c) (high instance.now cuts.now c)) (map (class_of duty.now.shift duty.now.day) (prefixes duty.now.breaks)) ≡ Some (class_at place)) }
{
    let mut place = Place {
        shift: duty.shift,
        day: duty.day,
        prefix: Vec::new(alloc),
    };
    for stop in duty.breaks.as_slice() {
        let (low, high) = table.range_of(&place);
        if low < high {
            return Ok(place);
        }
        place.prefix.push(*stop)?;
    }
    Ok(place)
}

/// Half of two numbers together, rounded down.
fn middle(low: u16, high: u16) -> u16
    ensures { result ≡ (low + high) / 2 }
{
    ((u32::from(low) + u32::from(high)) / 2) as u16
}

/// The class to split for a duty, the first whose number isn't fixed, and the number by which.
fn split(
    alloc: Global,
    instance: &Instance,
    cuts: &Cuts,
    table: &RangeTable,
    duty: &Duty,
) -> Result<(Class, u16), NoMemory>
    requires table { AreRanges instance.now cuts.now table.now }
    requires duty { IsTrue (is_open instance.now cuts.now duty.now) }
    ensures class { IfOk result (λ r. find (λ c. nat_lt (low cuts.now c) (high instance.now cuts.now c)) (map (class_of duty.now.shift duty.now.day) (prefixes duty.now.breaks)) ≡ Some r.0) }
    ensures m { IfOk result (λ r. r.1 ≡ (low cuts.now r.0 + high instance.now cuts.now r.0) / 2) }
{
    let place = open_place(alloc, instance, cuts, table, duty)?;
    let (low, high) = table.range_of(&place);
    let class = Class {
        shift: place.shift,
        day: place.day,
        prefix: Breaks::new(place.prefix),
    };
    Ok((class, middle(low, high)))
}

/// How many duties of a shift and a day the rows have.
fn heads(rows: &[Row], shift: u16, day: u8) -> u128
    ensures heads { result ≡ heads_on (rota_of rows.now) shift day }
    ensures few { result ≤ 65535 * length rows.now }
{
    let mut sum = 0u128;
    for row in rows {
        if row.shift == shift && row.day == day {
            sum += u128::from(row.count);
        }
    }
    sum
}

/// Whether no shift of the rows has more duties on a day than there may be.
fn are_few(heads_most: u16, rows: &[Row]) -> bool
    ensures { result ≡ list_all (λ r. nat_le (heads_on (rota_of rows.now) r.shift r.day) heads_most) rows.now }
{
    rows.iter().all(|row| heads(rows, row.shift, row.day) <= u128::from(heads_most))
}

/// Whether no shift of the rows has more duties on a day than there may be, and they meet the cuts.
fn is_plan(instance: &Instance, cuts: &Cuts, rows: &Rows) -> bool
    ensures { result ≡ (list_all (λ r. nat_le (heads_on (rota_of rows.now) r.shift r.day) instance.now.heads) rows.now && meets (rota_of rows.now) cuts.now) }
{
    are_few(instance.heads(), rows.as_slice()) && meets(instance, rows, cuts)
}

/// What the rows of a settled node are: its plan, or none where they aren't legal or don't meet the cuts.
fn judge(instance: &Instance, cuts: &Cuts, rows: Rows) -> Settle
    requires settled { IsTrue (is_settled instance.now cuts.now) }
    requires rows { rows ≡ settled_rows instance.now cuts.now }
    ensures { IsSettle instance.now cuts.now result }
{
    if is_plan(instance, cuts, &rows) {
        Settle::Plan(rows)
    } else {
        Settle::Empty
    }
}

/// The class to split at a node with these cuts, or, where they fix the number of each legal duty, their plan. The walk
/// goes only into classes that the cuts leave open, and ends at the first legal duty whose number isn't fixed. The cuts
/// are gone through once, into a table that the walk and the split look their classes up in, and once more to see whether
/// the plan meets them.
pub fn settled(alloc: Global, instance: &Instance, cuts: &Cuts) -> Result<Settle, NoMemory>
    ensures { IfOk result (λ s. IsSettle instance.now cuts.now s) }
{
    let table = RangeTable::new(alloc, instance, cuts)?;
    let place = Place {
        shift: 0,
        day: 0,
        prefix: Vec::new(alloc),
    };
    let mut walk = Walk {
        place,
        rows: Vec::new(alloc),
    };
    match walk_shifts(alloc, instance, cuts, &table, &mut walk)? {
        Some(duty) => {
            let (class, m) = split(alloc, instance, cuts, &table, &duty)?;
            Ok(Settle::Unsettled { class, m })
        }
        None => Ok(judge(instance, cuts, Rows::new(walk.rows))),
    }
}
