//! The shift list of shift types.
ghost use Rattle.std.specs.Prelude.{◌≡◌, ◌≤◌, ◌++◌, length, All, IfOk, OnOk};
ghost use Rattle.std.specs.List.{enumerate_from, flat_map};
ghost use Rattle.shift_instance.specs.Listing.{starting, shifts_of, IsListed};

use crate::{Shift, TypeParts};
use break_rules::NoMemory;
use std::alloc::Global;

/// Adds the shifts of a type that start at a slot.
fn push_lengths(
    shifts: &mut Vec<Shift>,
    number: u16,
    kind: &TypeParts,
    start: u16,
) -> Result<(), NoMemory>
    requires { IsListed kind.now }
    ensures { OnOk result (shifts.new.items ≡ shifts.old.items ++ starting number kind.now start) }
{
    let low = kind.len_min;
    let high = kind.len_max + 1;
    for len in low..high {
        shifts.push(Shift {
            kind: number,
            start,
            len,
        })?;
    }
    Ok(())
}

/// Adds the shifts of a type.
fn push_starts(shifts: &mut Vec<Shift>, number: u16, kind: &TypeParts) -> Result<(), NoMemory>
    requires { IsListed kind.now }
    ensures { OnOk result (shifts.new.items ≡ shifts.old.items ++ shifts_of (number, kind.now)) }
{
    let low = kind.start_min;
    let high = kind.start_max + 1;
    for start in low..high {
        push_lengths(shifts, number, kind, start)?;
    }
    Ok(())
}

/// The shifts of the types.
pub(crate) fn list_shifts(alloc: Global, kinds: &[TypeParts]) -> Result<Vec<Shift>, NoMemory>
    requires few { length kinds.now ≤ 16 }
    requires listed { All IsListed kinds.now }
    ensures { IfOk result (λ v. v.items ≡ flat_map shifts_of (enumerate_from 0 kinds.now)) }
{
    let mut shifts = Vec::new(alloc);
    for (k, kind) in kinds.iter().enumerate() {
        push_starts(&mut shifts, k as u16, kind)?;
    }
    Ok(shifts)
}
