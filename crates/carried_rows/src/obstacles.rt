//! Why a row of a plan can't stand in a plan of another instance.
ghost use Rattle.std.specs.Prelude.{◌≡◌, ◌<◌, false, length, option_map, slice_get};
ghost use Rattle.std.specs.Option.{option_map_or};
ghost use Rattle.std.specs.List.{find};
ghost use Rattle.break_rules.specs.Causes.{first_cause};
ghost use Rattle.shift_instance.specs.Problem.{shift_list};
ghost use Rattle.shift_instance.specs.Names.{has_name};
ghost use Rattle.carried_rows.specs.Carrying.{name_of, obstacle_in, obstacle_of, shift_causes};

use break_rules::legal;
use shift_instance::{Instance, Row, Shift, TypeParts};

/// What keeps a row of a plan from standing in a plan of another instance.
#[derive(Clone, Copy, Debug, PartialEq, Eq, Drop)]
pub enum Obstacle {
    /// The slots of the two instances aren't equally long.
    Slots,
    /// No type has the name of the row's type.
    Name,
    /// The type of that name has no shift with the row's start.
    Start,
    /// The type of that name has no shift with the row's length.
    Length,
    /// The row's day isn't one of the planning period.
    Day,
    /// The row's breaks aren't legal.
    Breaks,
}

/// Whether a type has a name.
fn is_named(kind: &TypeParts, name: &[u8]) -> bool
    ensures { result ≡ has_name name.now kind.now }
{
    kind.name.as_bytes() == name
}

/// The first type of a name.
fn kind_named<'k>(kinds: &'k [TypeParts], name: &[u8]) -> Option<&'k TypeParts>
    ensures { option_map (λ k. k.now) result ≡ find (has_name name.now) kinds.now }
{
    kinds.iter().find(|kind| is_named(kind, name))
}

/// The name of a shift's type.
pub(crate) fn name_of(instance: &Instance, shift: Shift) -> &[u8]
    requires { shift.kind < length instance.now.kinds }
    ensures { result.now ≡ name_of instance.now shift }
{
    let parts = instance.parts();
    parts.types[usize::from(shift.kind)].name.as_bytes()
}

/// Whether a shift's type has a name.
pub(crate) fn has_type_named(instance: &Instance, shift: Shift, name: &[u8]) -> bool
    requires { shift.kind < length instance.now.kinds }
    ensures { result ≡ option_map_or (has_name name.now) (slice_get instance.now.kinds shift.kind) false }
{
    let parts = instance.parts();
    is_named(&parts.types[usize::from(shift.kind)], name)
}

/// What keeps a row of a shift from standing among the shifts of a type.
fn obstacle_in(instance: &Instance, kind: &TypeParts, shift: Shift, row: &Row) -> Option<Obstacle>
    ensures { result ≡ first_cause (shift_causes instance.now kind.now shift row.now) }
{
    if shift.start < kind.start_min || kind.start_max < shift.start {
        return Some(Obstacle::Start);
    }
    if shift.len < kind.len_min || kind.len_max < shift.len {
        return Some(Obstacle::Length);
    }
    if instance.days() <= row.day {
        return Some(Obstacle::Day);
    }
    if !legal(&kind.rule, shift.len, row.breaks.as_slice()) {
        return Some(Obstacle::Breaks);
    }
    None
}

/// What keeps a row of a plan of the old instance from standing in a plan of the new one, if anything does. It takes no memory.
pub fn obstacle_of(old: &Instance, new: &Instance, row: &Row) -> Option<Obstacle>
    requires { row.now.shift < length (shift_list old.now) }
    ensures { result ≡ obstacle_of old.now new.now row.now }
{
    if old.parts().slot_minutes != new.parts().slot_minutes {
        return Some(Obstacle::Slots);
    }
    let shift = old.shift(row.shift);
    let kinds = new.parts().types.as_slice();
    match kind_named(kinds, name_of(old, shift)) {
        Some(kind) => obstacle_in(new, kind, shift, row),
        None => Some(Obstacle::Name),
    }
}
