//! Duties of a shift that go over to another one.
ghost use Rattle.std.specs.Prelude.{◌≡◌, ◌+◌, ◌<◌, ◌++◌, ◌∷◌, [], ◌==◌, ◌&&◌, All, IfOk, IsTrue, MatchResult, None, OnErr, OnOk, Some, length, map, max, nat_lt, not, replicate, slice_get};
ghost use Rattle.std.specs.List.{filter};
ghost use Rattle.break_rules.specs.Causes.{first_cause};
ghost use Rattle.shift_instance.specs.Problem.{shift_list};
ghost use Rattle.shift_instance.specs.Rota.{are_legal_rows, duty_of, is_used, lists_of, rota_of};
ghost use Rattle.local_moves.specs.Changes.{IsDone};
ghost use Rattle.local_moves.specs.declared.moves.Move.TheVariants.{Reshift};
ghost use Rattle.local_moves.specs.Moves.{Answers, AreSameDuties, heads_causes, is_near, most_heads, move_causes, moved, pair_causes, reshifted};

use crate::changes::duty_with;
use crate::done::Done;
use crate::draft::{Draft, duty_of};
use crate::judging::is_known;
use crate::moves::MoveFault;
use break_rules::{Breaks, NoMemory, least};
use shift_instance::{Duty, Instance, Row};
use std::alloc::Global;

/// The least legal list of a shift, and `None` where no list is legal.
fn least_of(alloc: Global, instance: &Instance, shift: u16) -> Result<Option<Breaks>, NoMemory>
    requires { shift < length (shift_list instance.now) }
    ensures { IfOk result (λ found. found ≡ slice_get (lists_of instance.now shift) 0) }
{
    least(alloc, instance.rule_of(shift), instance.shift(shift).len)
}

/// Whether two shifts differ in exactly one of start and length.
fn is_near(instance: &Instance, from: u16, to: u16) -> bool
    requires from { from < length (shift_list instance.now) }
    requires to { to < length (shift_list instance.now) }
    ensures { result ≡ is_near instance.now from to }
{
    let a = instance.shift(from);
    let b = instance.shift(to);
    if a.start == b.start {
        a.len != b.len
    } else {
        a.len == b.len
    }
}

/// The larger of two numbers.
fn larger(a: u64, b: u64) -> u64
    ensures { result ≡ max a b }
{
    if a < b { b } else { a }
}

/// The most duties that a shift has on a day once all duties of another one went over to it.
fn most_heads(instance: &Instance, draft: &Draft, from: u16, to: u16) -> u64
    requires instance { draft.now.instance ≡ instance.now }
    requires from { from < length (shift_list instance.now) }
    requires to { to < length (shift_list instance.now) }
    ensures { result ≡ most_heads instance.now (rota_of draft.now.rows) from to }
{
    let mut most = 0;
    for day in 0..instance.days() {
        let there = u64::from(draft.heads_on(instance, to, day));
        let here = u64::from(draft.heads_on(instance, from, day));
        most = larger(most, there + here);
    }
    most
}

/// Why the duties of a shift can't go over to another one whatever the plan is, if they can't.
pub(crate) fn judge_pair(instance: &Instance, from: u16, to: u16) -> Option<MoveFault>
    ensures { result ≡ first_cause (pair_causes instance.now from to) }
{
    if !is_known(instance, from) || !is_known(instance, to) {
        return Some(MoveFault::UnknownShift);
    }
    if instance.shift(from).kind != instance.shift(to).kind {
        return Some(MoveFault::OtherKind);
    }
    if !is_near(instance, from, to) {
        return Some(MoveFault::NotNear);
    }
    None
}

/// Why the plan doesn't allow that the duties of a shift go over to another one, if it doesn't.
fn judge_heads(instance: &Instance, draft: &Draft, from: u16, to: u16) -> Option<MoveFault>
    requires instance { draft.now.instance ≡ instance.now }
    requires from { from < length (shift_list instance.now) }
    requires to { to < length (shift_list instance.now) }
    ensures { result ≡ first_cause (heads_causes instance.now (rota_of draft.now.rows) from to) }
{
    if draft.duties_of(instance, from) == 0 {
        return Some(MoveFault::Absent);
    }
    let heads = most_heads(instance, draft, from, to);
    if u64::from(instance.heads()) < heads {
        return Some(MoveFault::HeadsOver { heads });
    }
    None
}

/// Adds the duty of a row as often as it counts.
pub(crate) fn add_copies(alloc: Global, duties: &mut Vec<Duty>, row: &Row) -> Result<(), NoMemory>
    ensures { OnOk result (duties.new.items ≡ duties.old.items ++ replicate row.now.count (duty_of row.now)) }
{
    for _ in 0..row.count {
        duties.push(duty_of(alloc, row)?)?;
    }
    Ok(())
}

/// The duties of a shift, in the order of rows.
fn duties_with(alloc: Global, rows: &[Row], shift: u16) -> Result<Vec<Duty>, NoMemory>
    ensures { IfOk result (λ ds. ds.items ≡ filter (λ d. d.shift == shift) (rota_of rows.now)) }
{
    let mut duties = Vec::new(alloc);
    for row in rows {
        if row.shift == shift {
            add_copies(alloc, &mut duties, row)?;
        }
    }
    Ok(duties)
}

/// Duties of a shift after they went over to another one, of which `least` is the least legal list.
fn gone_over(
    alloc: Global,
    instance: &Instance,
    duties: &[Duty],
    from: u16,
    to: u16,
    least: &Breaks,
) -> Result<Vec<Duty>, NoMemory>
    requires from { from < length (shift_list instance.now) }
    requires to { to < length (shift_list instance.now) }
    requires own { All (λ d. d.shift ≡ from) duties.now }
    requires least { slice_get (lists_of instance.now to) 0 ≡ Some least.now }
    ensures { IfOk result (λ ds. ds.items ≡ map (reshifted instance.now from to) duties.now) }
{
    let keeps = instance.shift(from).len == instance.shift(to).len;
    let mut made = Vec::new(alloc);
    for duty in duties {
        let list = if keeps { &duty.breaks } else { least };
        made.push(duty_with(alloc, to, duty.day, list)?)?;
    }
    Ok(made)
}

impl Draft {
    /// All duties of a shift go over to another one.
    pub(crate) fn reshift(
        &mut self,
        instance: &Instance,
        from: u16,
        to: u16,
    ) -> Result<Done, MoveFault>
        requires instance { self.old.instance ≡ instance.now }
        ensures instance { self.new.instance ≡ self.old.instance }
        ensures legal { IsTrue (are_legal_rows self.new.instance self.new.rows) }
        ensures fault { MatchResult result (λ _. first_cause (move_causes instance.now (rota_of self.old.rows) (Reshift from to)) ≡ None) (λ e. Answers e (first_cause (move_causes instance.now (rota_of self.old.rows) (Reshift from to)))) }
        ensures moved { OnOk result (AreSameDuties (rota_of self.new.rows) (moved instance.now (Reshift from to) (rota_of self.old.rows))) }
        ensures done { IfOk result (IsDone (rota_of self.old.rows) (rota_of self.new.rows)) }
        ensures unchanged { OnErr result (self.new ≡ self.old) }
    {
        let alloc = self.allocator();
        if let Some(fault) = judge_pair(instance, from, to) {
            return Err(fault);
        }
        let Some(least) = least_of(alloc, instance, to)? else {
            return Err(MoveFault::Breaks);
        };
        if let Some(fault) = judge_heads(instance, self, from, to) {
            return Err(fault);
        }
        let gone = duties_with(alloc, self.rows().as_slice(), from)?;
        let made = gone_over(alloc, instance, &gone, from, to, &least)?;
        let done = self.swap(instance, gone, made)?;
        Ok(done)
    }
}
