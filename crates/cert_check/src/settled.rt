//! Whether a node is settled, and its floor where it is: a plain walk over the break lists of each shift on each day.

ghost use Rattle.std.specs.Prelude.{◌≡◌, ◌<◌, ◌++◌, ◌∷◌, [], length, nat_lt, not, true, IfOk, None, Some, if◌then◌else◌};
ghost use Rattle.shift_instance.specs.Problem.{shift_list};
ghost use Rattle.head_splits.specs.Below.{IsClear, StandsOn, duties_below, shift_duties};
ghost use Rattle.head_splits.specs.Nodes.{settled_floor};
ghost use Rattle.head_splits.specs.Settled.{class_of, is_settled, settled_rows};
ghost use Rattle.shift_instance.specs.AllDuties.{all_duties};
ghost use Rattle.cert_check.specs.Passed.{IsPassed};

use crate::below::longer;
use break_rules::{Break, Breaks, NoMemory};
use head_splits::{Class, Cuts, meets, range};
use list_walks::{ListWalks, Standing};
use rota_cost::{legal_rows, recount};
use shift_instance::{Instance, Row, Rows, TOP};
use std::alloc::Global;

/// The class of those duties of a class whose breaks go on with one more.
fn extended(alloc: Global, class: &Class, next: Break) -> Result<Class, NoMemory>
    ensures { IfOk result (λ longer. longer ≡ class_of class.now.shift class.now.day (class.now.prefix ++ next ∷ [])) }
{
    let prefix = longer(alloc, class.prefix.as_slice(), next)?;
    Ok(Class {
        shift: class.shift,
        day: class.day,
        prefix: Breaks::new(prefix),
    })
}

/// Whether a range fixes the number of the duties with a whole legal list. If so, their row is added, where there are any.
fn pass(class: &Class, low: u16, high: u16, rows: &mut Vec<Row>) -> Result<bool, NoMemory>
    ensures fixed { IfOk result (λ fixed. fixed ≡ not (nat_lt low high)) }
    ensures rows { IfOk result (λ fixed. fixed ≡ true → rows.new.items ≡ rows.old.items ++ (if nat_lt 0 low then record { shift = class.now.shift; day = class.now.day; breaks = class.now.prefix; count = low } ∷ [] else [])) }
{
    if low < high {
        return Ok(false);
    }
    if low == 0 {
        return Ok(true);
    }
    rows.push(Row {
        shift: class.shift,
        day: class.day,
        breaks: class.prefix.clone()?,
        count: low,
    })?;
    Ok(true)
}

/// Whether the cuts fix the number of each legal duty of a class, whose prefix stands there. If so, the rows of those duties
/// are added.
fn pass_class(
    alloc: Global,
    instance: &Instance,
    cuts: &Cuts,
    lists: &ListWalks<'_>,
    at: Standing,
    class: &Class,
    rows: &mut Vec<Row>,
) -> Result<bool, NoMemory>
    requires stands { StandsOn instance.now class.now.shift lists.now at class.now.prefix }
    requires clear { IsClear instance.now cuts.now class.now.shift class.now.day class.now.prefix }
    ensures { IfOk result (λ fixed. IsPassed instance.now cuts.now (duties_below instance.now class.now.shift class.now.day class.now.prefix) fixed rows.old.items rows.new.items) }
{
    let (low, high) = range(instance, cuts, class);
    if high == 0 {
        return Ok(true);
    }
    let onward = lists.ways(alloc, at)?;
    let ways = onward.as_slice();
    if ways.is_empty() {
        return pass(class, low, high, rows);
    }
    for way in ways {
        let longer = extended(alloc, class, way.stop)?;
        let fixed = pass_class(alloc, instance, cuts, lists, way.at, &longer, rows)?;
        if !fixed {
            return Ok(false);
        }
    }
    Ok(true)
}

/// The class of all duties of a shift on a day.
fn whole_class(alloc: Global, shift: u16, day: u8) -> Class
    ensures { result ≡ class_of shift day [] }
{
    Class {
        shift,
        day,
        prefix: Breaks::new(Vec::new(alloc)),
    }
}

/// Whether the cuts fix the number of each legal duty of a shift, day by day from where the empty list stands. If so, the rows
/// of those duties are added.
fn pass_days(
    alloc: Global,
    instance: &Instance,
    cuts: &Cuts,
    lists: &ListWalks<'_>,
    opening: Standing,
    shift: u16,
    rows: &mut Vec<Row>,
) -> Result<bool, NoMemory>
    requires { StandsOn instance.now shift lists.now opening [] }
    ensures { IfOk result (λ fixed. IsPassed instance.now cuts.now (shift_duties instance.now shift) fixed rows.old.items rows.new.items) }
{
    for day in 0..instance.days() {
        let class = whole_class(alloc, shift, day);
        let fixed = pass_class(alloc, instance, cuts, lists, opening, &class, rows)?;
        if !fixed {
            return Ok(false);
        }
    }
    Ok(true)
}

/// Whether the cuts fix the number of each legal duty of a shift. If so, the rows of those duties are added.
fn pass_shift(
    alloc: Global,
    instance: &Instance,
    cuts: &Cuts,
    shift: u16,
    rows: &mut Vec<Row>,
) -> Result<bool, NoMemory>
    requires shift { shift < length (shift_list instance.now) }
    ensures { IfOk result (λ fixed. IsPassed instance.now cuts.now (shift_duties instance.now shift) fixed rows.old.items rows.new.items) }
{
    let lists = ListWalks::of_shift(alloc, instance, shift)?;
    match lists.opening() {
        Some(opening) => pass_days(alloc, instance, cuts, &lists, opening, shift, rows),
        None => Ok(true),
    }
}

/// Whether the cuts fix the number of each legal duty. If so, the rows of those duties are added.
fn pass_shifts(
    alloc: Global,
    instance: &Instance,
    cuts: &Cuts,
    rows: &mut Vec<Row>,
) -> Result<bool, NoMemory>
    ensures { IfOk result (λ fixed. IsPassed instance.now cuts.now (all_duties instance.now) fixed rows.old.items rows.new.items) }
{
    for shift in 0..instance.shifts().len() {
        let fixed = pass_shift(alloc, instance, cuts, shift as u16, rows)?;
        if !fixed {
            return Ok(false);
        }
    }
    Ok(true)
}

/// What the plan of a settled node costs, by its rows, and `TOP` where the plan isn't legal or doesn't meet the cuts.
fn plan_cost(instance: &Instance, cuts: &Cuts, rows: &Rows) -> u64
    requires { rows.now ≡ settled_rows instance.now cuts.now }
    ensures { result ≡ settled_floor instance.now cuts.now }
{
    if legal_rows(instance, rows).is_err() {
        return TOP;
    }
    if !meets(instance, rows, cuts) {
        return TOP;
    }
    recount(instance, rows)
}

/// The floor of a settled node with these cuts: what its plan costs, and `TOP` where no legal rota meets the cuts; and
/// `None` where the node isn't settled. The walk goes only into classes that the cuts leave open, and ends at the first
/// legal duty whose number they don't fix.
pub fn settled_floor(
    alloc: Global,
    instance: &Instance,
    cuts: &Cuts,
) -> Result<Option<u64>, NoMemory>
    ensures { IfOk result (λ floor. floor ≡ (if is_settled instance.now cuts.now then Some (settled_floor instance.now cuts.now) else None)) }
{
    let mut rows = Vec::new(alloc);
    let fixed = pass_shifts(alloc, instance, cuts, &mut rows)?;
    if !fixed {
        return Ok(None);
    }
    Ok(Some(plan_cost(instance, cuts, &Rows::new(rows))))
}
