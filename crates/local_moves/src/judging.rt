//! Why moves are refused.
ghost use Rattle.std.specs.Prelude.{◌≡◌, ◌+◌, ◌<◌, ◌≤◌, ◌*◌, length, nat_lt, slice_get, None, Some, IfOk, IsTrue};
ghost use Rattle.break_rules.specs.Causes.{first_cause};
ghost use Rattle.shift_instance.specs.Problem.{shift_list};
ghost use Rattle.shift_instance.specs.Rota.{is_list_of, is_used, lists_of, rota_of};
ghost use Rattle.local_moves.specs.declared.moves.Move.TheVariants.{Add, Drop, Rebreak, Reshift};
ghost use Rattle.local_moves.specs.Moves.{is_known, is_near, most_heads, move_causes};

use crate::draft::Draft;
use crate::moves::MoveFault;
use break_rules::{Breaks, legal};
use shift_instance::{Duty, Instance};

/// Whether a shift is in the shift list.
pub(crate) fn is_known(instance: &Instance, shift: u16) -> bool
    ensures { result ≡ is_known instance.now shift }
{
    usize::from(shift) < instance.shifts().len()
}

/// Whether a break list is legal for a shift.
fn is_list_of(instance: &Instance, shift: u16, breaks: &Breaks) -> bool
    requires { shift < length (shift_list instance.now) }
    ensures { result ≡ is_list_of instance.now shift breaks.now }
{
    let len = instance.shift(shift).len;
    legal(instance.rule_of(shift), len, breaks.as_slice())
}

/// Why one duty more is refused, if it is.
pub(crate) fn judge_add(instance: &Instance, draft: &Draft, duty: &Duty) -> Option<MoveFault>
    requires { draft.now.instance ≡ instance.now }
    ensures { result ≡ first_cause (move_causes instance.now (rota_of draft.now.rows) (Add duty.now.shift duty.now.day duty.now.breaks)) }
{
    if !is_known(instance, duty.shift) {
        return Some(MoveFault::UnknownShift);
    }
    if instance.days() <= duty.day {
        return Some(MoveFault::Day);
    }
    if !is_list_of(instance, duty.shift, &duty.breaks) {
        return Some(MoveFault::Breaks);
    }
    let heads = u64::from(draft.heads_on(instance, duty.shift, duty.day)) + 1;
    if u64::from(instance.heads()) < heads {
        return Some(MoveFault::HeadsOver { heads });
    }
    None
}

/// Why one duty less is refused, if it is.
pub(crate) fn judge_drop(instance: &Instance, draft: &Draft, duty: &Duty) -> Option<MoveFault>
    requires { draft.now.instance ≡ instance.now }
    ensures { result ≡ first_cause (move_causes instance.now (rota_of draft.now.rows) (Drop duty.now.shift duty.now.day duty.now.breaks)) }
{
    if !is_known(instance, duty.shift) {
        return Some(MoveFault::UnknownShift);
    }
    if instance.days() <= duty.day {
        return Some(MoveFault::Day);
    }
    if draft.count_of(duty) == 0 {
        return Some(MoveFault::Absent);
    }
    None
}

/// Why other breaks for a duty are refused, if they are.
pub(crate) fn judge_rebreak(
    instance: &Instance,
    draft: &Draft,
    duty: &Duty,
    to: &Breaks,
) -> Option<MoveFault>
    requires { draft.now.instance ≡ instance.now }
    ensures { result ≡ first_cause (move_causes instance.now (rota_of draft.now.rows) (Rebreak duty.now.shift duty.now.day duty.now.breaks to.now)) }
{
    if !is_known(instance, duty.shift) {
        return Some(MoveFault::UnknownShift);
    }
    if instance.days() <= duty.day {
        return Some(MoveFault::Day);
    }
    if !is_list_of(instance, duty.shift, to) {
        return Some(MoveFault::Breaks);
    }
    if draft.count_of(duty) == 0 {
        return Some(MoveFault::Absent);
    }
    None
}
