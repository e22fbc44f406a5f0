//! The places of spots in a table of all spots of a shift.

ghost use Rattle.std.specs.Prelude.{◌≡◌, ◌+◌, ◌*◌, ◌<◌, ◌≤◌};
ghost use Rattle.break_rules.specs.Live.{place_of};

use crate::Spot;

/// The place of a spot in a table of the spots of a shift: those of later offsets first, 256 to an offset.
pub fn place(len: u16, spot: Spot) -> usize
    ensures { result ≡ place_of len spot }
{
    let slots_left = usize::from(len.saturating_sub(spot.offset));
    slots_left * 256 + usize::from(spot.used) * 4 + usize::from(spot.lunches)
}

/// The spot that has a place in such a table.
pub fn spot_at(len: u16, place: usize) -> Spot
    requires { place < 256 * (len + 1) }
    ensures place { place_of len result ≡ place }
    ensures spot { (spot : Spot) → spot.offset ≤ len → spot.used < 64 → spot.lunches < 4 → place_of len spot ≡ place → result ≡ spot }
{
    Spot {
        offset: len - (place / 256) as u16,
        used: (place / 4 % 64) as u16,
        lunches: (place % 4) as u8,
    }
}
