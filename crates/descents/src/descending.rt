//! Moves that lower a plan's cost, for as long as there are any.
ghost use Rattle.std.specs.Prelude.{◌≡◌, ◌+◌, ◌<◌, ◌≤◌, ◌⊎◌, ℕ, IfOk, IsTrue, List, MatchBool, MatchOption, None, OnOk, length};
ghost use Rattle.std.specs.Bool.{OnFalse};
ghost use Rattle.break_rules.specs.declared.Break.{Break};
ghost use Rattle.shift_instance.specs.Problem.{shift_list};
ghost use Rattle.shift_instance.specs.Rota.{are_legal_rows, cost, duty_of, rota_of};
ghost use Rattle.local_moves.specs.declared.moves.Move.TheVariants.{Add, Rebreak, Reshift};
ghost use Rattle.local_moves.specs.declared.moves.MoveFault.TheVariants.{NoMemory};
ghost use Rattle.descents.specs.Descending.{IsBestRebreak, IsDutyOptimal, IsLocalOptimum, IsNoGain, IsOptimalAt, IsPlace, places};

use crate::best::best_duty;
use break_rules::{Breaks, NoMemory};
use local_moves::{Draft, Move, MoveFault};
use shift_instance::{Duty, Instance, Row, Rows};
use std::alloc::{AllocError, Global};

/// Where moves are looked for.
#[derive(Clone, Copy, Drop)]
enum Part {
    /// Among the duties of a row: one less of them, or other breaks for one.
    Rows,
    /// Among two shifts: all duties of the first go over to the second.
    Shifts,
    /// Among a shift and a day: one duty more.
    Days,
}

/// Breaks once more.
pub(crate) fn copy_of(alloc: Global, breaks: &Breaks) -> Result<Breaks, NoMemory>
    ensures { IfOk result (λ copy. copy ≡ breaks.now) }
{
    let list = Vec::from_slice(alloc, breaks.as_slice())?;
    Ok(Breaks::new(list))
}

/// The duty of a row.
pub(crate) fn duty_of(alloc: Global, row: &Row) -> Result<Duty, NoMemory>
    ensures { IfOk result (λ d. d ≡ duty_of row.now) }
{
    Ok(Duty {
        shift: row.shift,
        day: row.day,
        breaks: copy_of(alloc, &row.breaks)?,
    })
}

/// Passes running out of memory on, and nothing else for which a move is refused.
pub(crate) fn refused(fault: MoveFault) -> Result<(), NoMemory>
    ensures { OnOk result (fault ≡ NoMemory → ⊥) }
{
    match fault {
        MoveFault::NoMemory => Err(AllocError),
        _ => Ok(()),
    }
}

/// Applies a move where it lowers the plan's cost, and says whether it did.
fn improve_with(instance: &Instance, draft: &mut Draft, step: &Move) -> Result<bool, NoMemory>
    requires instance { draft.old.instance ≡ instance.now }
    ensures instance { OnOk result (draft.new.instance ≡ draft.old.instance) }
    ensures lower { IfOk result (λ b. MatchBool b (cost instance.now (rota_of draft.new.rows) < cost instance.now (rota_of draft.old.rows)) (draft.new ≡ draft.old)) }
    ensures none { IfOk result (λ b. OnFalse b (IsNoGain instance.now (rota_of draft.old.rows) step.now)) }
{
    let before = draft.cost();
    let done = match draft.apply(instance, step) {
        Ok(done) => done,
        Err(fault) => {
            refused(fault)?;
            return Ok(false);
        }
    };
    if draft.cost() < before {
        return Ok(true);
    }
    match draft.undo(instance, done) {
        Ok(()) => Ok(false),
        Err(_done) => Err(AllocError),
    }
}

/// The break list with which a duty of the plan costs least in place of its own, and what the plan costs with it; `None`
/// where no list is legal or the duty isn't there.
fn best_rebreak(
    instance: &Instance,
    draft: &mut Draft,
    duty: &Duty,
) -> Result<Option<(Breaks, u64)>, NoMemory>
    requires instance { draft.old.instance ≡ instance.now }
    requires shift { duty.now.shift < length (shift_list instance.now) }
    ensures kept { OnOk result (draft.new ≡ draft.old) }
    ensures best { IfOk result (λ found. MatchOption found ((list : List Break) → IsNoGain instance.now (rota_of draft.old.rows) (Rebreak duty.now.shift duty.now.day duty.now.breaks list)) (λ b. IsBestRebreak instance.now (rota_of draft.old.rows) duty.now b.0 b.1)) }
{
    let step = Move::Drop {
        shift: duty.shift,
        day: duty.day,
        breaks: copy_of(draft.allocator(), &duty.breaks)?,
    };
    let done = match draft.apply(instance, &step) {
        Ok(done) => done,
        Err(fault) => {
            refused(fault)?;
            return Ok(None);
        }
    };
    let best = best_duty(instance, draft, duty.shift, duty.day)?;
    match draft.undo(instance, done) {
        Ok(()) => Ok(best),
        Err(_done) => Err(AllocError),
    }
}

/// Takes a duty away or gives it other breaks where that lowers the plan's cost, and says whether it did.
fn improve_duty(instance: &Instance, draft: &mut Draft, duty: &Duty) -> Result<bool, NoMemory>
    requires instance { draft.old.instance ≡ instance.now }
    requires shift { duty.now.shift < length (shift_list instance.now) }
    ensures instance { OnOk result (draft.new.instance ≡ draft.old.instance) }
    ensures lower { IfOk result (λ b. MatchBool b (cost instance.now (rota_of draft.new.rows) < cost instance.now (rota_of draft.old.rows)) (draft.new ≡ draft.old)) }
    ensures none { IfOk result (λ b. OnFalse b (IsDutyOptimal instance.now (rota_of draft.old.rows) duty.now)) }
{
    let alloc = draft.allocator();
    let less = Move::Drop {
        shift: duty.shift,
        day: duty.day,
        breaks: copy_of(alloc, &duty.breaks)?,
    };
    let is_gone = improve_with(instance, draft, &less)?;
    if is_gone {
        return Ok(true);
    }
    let Some((to, cost)) = best_rebreak(instance, draft, duty)? else {
        return Ok(false);
    };
    if draft.cost() <= cost {
        return Ok(false);
    }
    let other = Move::Rebreak {
        shift: duty.shift,
        day: duty.day,
        from: copy_of(alloc, &duty.breaks)?,
        to,
    };
    improve_with(instance, draft, &other)
}

/// The same for a duty of the row with a number, if there is such a row.
fn improve_row(instance: &Instance, draft: &mut Draft, k: usize) -> Result<bool, NoMemory>
    requires instance { draft.old.instance ≡ instance.now }
    ensures instance { OnOk result (draft.new.instance ≡ draft.old.instance) }
    ensures lower { IfOk result (λ b. MatchBool b (cost instance.now (rota_of draft.new.rows) < cost instance.now (rota_of draft.old.rows)) (draft.new ≡ draft.old)) }
    ensures none { IfOk result (λ b. OnFalse b (IsOptimalAt instance.now draft.old.rows Part.Rows k)) }
{
    let rows = draft.rows().as_slice();
    if rows.len() <= k {
        return Ok(false);
    }
    let duty = duty_of(draft.allocator(), &rows[k])?;
    improve_duty(instance, draft, &duty)
}

/// Lets all duties of a shift go over to another one where that lowers the plan's cost, and says whether it did.
fn improve_reshift(
    instance: &Instance,
    draft: &mut Draft,
    from: u16,
    to: u16,
) -> Result<bool, NoMemory>
    requires instance { draft.old.instance ≡ instance.now }
    requires from { from < length (shift_list instance.now) }
    ensures instance { OnOk result (draft.new.instance ≡ draft.old.instance) }
    ensures lower { IfOk result (λ b. MatchBool b (cost instance.now (rota_of draft.new.rows) < cost instance.now (rota_of draft.old.rows)) (draft.new ≡ draft.old)) }
    ensures none { IfOk result (λ b. OnFalse b (IsNoGain instance.now (rota_of draft.old.rows) (Reshift from to))) }
{
    if draft.duties_of(instance, from) == 0 {
        return Ok(false);
    }
    improve_with(instance, draft, &Move::Reshift { from, to })
}

/// Adds a duty of a shift on a day where that lowers the plan's cost, and says whether it did.
fn improve_day(
    instance: &Instance,
    draft: &mut Draft,
    shift: u16,
    day: u8,
) -> Result<bool, NoMemory>
    requires instance { draft.old.instance ≡ instance.now }
    requires shift { shift < length (shift_list instance.now) }
    requires day { day < instance.now.days }
    ensures instance { OnOk result (draft.new.instance ≡ draft.old.instance) }
    ensures lower { IfOk result (λ b. MatchBool b (cost instance.now (rota_of draft.new.rows) < cost instance.now (rota_of draft.old.rows)) (draft.new ≡ draft.old)) }
    ensures none { IfOk result (λ b. OnFalse b ((list : List Break) → IsNoGain instance.now (rota_of draft.old.rows) (Add shift day list))) }
{
    if instance.heads() <= draft.heads_on(instance, shift, day) {
        return Ok(false);
    }
    let Some((breaks, cost)) = best_duty(instance, draft, shift, day)? else {
        return Ok(false);
    };
    if draft.cost() <= cost {
        return Ok(false);
    }
    improve_with(instance, draft, &Move::Add { shift, day, breaks })
}

/// Takes a move in a place of a part where one lowers the plan's cost, and says whether it did.
fn improve_place(
    instance: &Instance,
    draft: &mut Draft,
    part: Part,
    place: usize,
) -> Result<bool, NoMemory>
    requires instance { draft.old.instance ≡ instance.now }
    requires place { IsPlace instance.now part place }
    ensures instance { OnOk result (draft.new.instance ≡ draft.old.instance) }
    ensures lower { IfOk result (λ b. MatchBool b (cost instance.now (rota_of draft.new.rows) < cost instance.now (rota_of draft.old.rows)) (draft.new ≡ draft.old)) }
    ensures none { IfOk result (λ b. OnFalse b (IsOptimalAt instance.now draft.old.rows part place)) }
{
    match part {
        Part::Rows => improve_row(instance, draft, place),
        Part::Shifts => {
            let shifts = instance.shifts().len();
            let from = (place / shifts) as u16;
            let to = (place % shifts) as u16;
            improve_reshift(instance, draft, from, to)
        }
        Part::Days => {
            let days = usize::from(instance.days());
            let shift = (place / days) as u16;
            let day = (place % days) as u8;
            improve_day(instance, draft, shift, day)
        }
    }
}

/// How many places a part has.
fn places(instance: &Instance, draft: &Draft, part: Part) -> usize
    requires { draft.now.instance ≡ instance.now }
    ensures { result ≡ places instance.now draft.now.rows part }
{
    let shifts = instance.shifts().len();
    match part {
        Part::Rows => draft.rows().len(),
        Part::Shifts => shifts * shifts,
        Part::Days => shifts * usize::from(instance.days()),
    }
}

/// Goes through the places of a part and takes moves that lower the plan's cost, at most `left` of them, which counts down.
fn improve_part(
    instance: &Instance,
    draft: &mut Draft,
    part: Part,
    left: &mut u16,
) -> Result<(), NoMemory>
    requires instance { draft.old.instance ≡ instance.now }
    ensures instance { OnOk result (draft.new.instance ≡ draft.old.instance) }
    ensures cheaper { OnOk result (cost instance.now (rota_of draft.new.rows) + left.old ≤ cost instance.now (rota_of draft.old.rows) + left.new) }
    ensures down { OnOk result (left.new ≤ left.old) }
    ensures none { OnOk result (left.new ≡ left.old → 0 < left.old → (draft.new ≡ draft.old) × ((k : ℕ) → k < places instance.now draft.old.rows part → IsOptimalAt instance.now draft.old.rows part k)) }
{
    let count = places(instance, draft, part);
    for place in 0..count {
        if *left == 0 {
            return Ok(());
        }
        if improve_place(instance, draft, part, place)? {
            *left -= 1;
        }
    }
    Ok(())
}

/// Goes through all parts once.
fn improve_all(instance: &Instance, draft: &mut Draft, left: &mut u16) -> Result<(), NoMemory>
    requires instance { draft.old.instance ≡ instance.now }
    ensures instance { OnOk result (draft.new.instance ≡ draft.old.instance) }
    ensures cheaper { OnOk result (cost instance.now (rota_of draft.new.rows) + left.old ≤ cost instance.now (rota_of draft.old.rows) + left.new) }
    ensures down { OnOk result (left.new ≤ left.old) }
    ensures none { OnOk result (left.new ≡ left.old → 0 < left.old → (draft.new ≡ draft.old) × IsLocalOptimum instance.now (rota_of draft.old.rows)) }
{
    improve_part(instance, draft, Part::Rows, left)?;
    improve_part(instance, draft, Part::Shifts, left)?;
    improve_part(instance, draft, Part::Days, left)?;
    Ok(())
}

/// Takes moves that lower a draft's cost, until there is none or `rounds` were taken.
pub fn descend(instance: &Instance, draft: &mut Draft, rounds: u16) -> Result<(), NoMemory>
    requires instance { draft.old.instance ≡ instance.now }
    ensures instance { OnOk result (draft.new.instance ≡ draft.old.instance) }
    ensures cheaper { OnOk result (cost instance.now (rota_of draft.new.rows) ≤ cost instance.now (rota_of draft.old.rows)) }
    ensures optimum { OnOk result (IsLocalOptimum instance.now (rota_of draft.new.rows) ⊎ (cost instance.now (rota_of draft.new.rows) + rounds ≤ cost instance.now (rota_of draft.old.rows))) }
{
    let mut left = rounds;
    while 0 < left {
        let before = left;
        improve_all(instance, draft, &mut left)?;
        if left == before {
            return Ok(());
        }
    }
    Ok(())
}

/// The rows of a legal plan after at most `rounds` moves, each of which lowered the cost: until there was no such move
/// more, or as many were taken.
pub fn descended(
    alloc: Global,
    instance: &Instance,
    rows: Rows,
    rounds: u16,
) -> Result<Rows, NoMemory>
    requires { IsTrue (are_legal_rows instance.now rows) }
    ensures legal { IfOk result (λ new. IsTrue (are_legal_rows instance.now new)) }
    ensures cheaper { IfOk result (λ new. cost instance.now (rota_of new) ≤ cost instance.now (rota_of rows)) }
    ensures optimum { IfOk result (λ new. IsLocalOptimum instance.now (rota_of new) ⊎ (cost instance.now (rota_of new) + rounds ≤ cost instance.now (rota_of rows))) }
{
    let mut draft = Draft::new(alloc, instance, rows)?;
    descend(instance, &mut draft, rounds)?;
    Ok(draft.into_rows())
}
