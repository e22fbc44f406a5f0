//! The range that cuts leave to the number of a class's duties.
ghost use Rattle.std.specs.Prelude.{◌≡◌};
ghost use Rattle.head_splits.specs.Cuts.{same_class, raised, lowered, low, least_high, high, whole_class};
ghost use Rattle.head_splits.specs.Settled.{class_of};

use crate::{Class, Cut, Cuts, Side};
use break_rules::Break;
use shift_instance::Instance;

/// Whether a class is the one of that shift, day and prefix.
fn is_class(class: &Class, shift: u16, day: u8, prefix: &[Break]) -> bool
    ensures { result ≡ same_class class.now (class_of shift day prefix.now) }
{
    class.shift == shift && class.day == day && class.prefix.as_slice() == prefix
}

/// A lower bound, raised by a cut of that side and number.
pub fn raise(side: Side, m: u16, low: u16) -> u16
    ensures { result ≡ raised side m low }
{
    match side {
        Side::AtMost => low,
        Side::AtLeast => low.max(m),
    }
}

/// An upper bound, lowered by a cut of that side and number.
pub fn lower(side: Side, m: u16, high: u16) -> u16
    ensures { result ≡ lowered side m high }
{
    match side {
        Side::AtMost => high.min(m),
        Side::AtLeast => high,
    }
}

/// The bounds that cuts leave to the number of a class's duties, where there are at most `heads`.
fn range_below(heads: u16, cuts: &[Cut], shift: u16, day: u8, prefix: &[Break]) -> (u16, u16)
    ensures low { result.0 ≡ low cuts.now (class_of shift day prefix.now) }
    ensures high { result.1 ≡ least_high heads cuts.now (class_of shift day prefix.now) }
{
    let mut low = 0;
    let mut high = heads;
    for cut in cuts {
        if is_class(&cut.class, shift, day, prefix) {
            low = raise(cut.side, cut.m, low);
            high = lower(cut.side, cut.m, high);
        }
    }
    (low, high)
}

/// The least and the greatest number of duties that cuts leave to a class. The first is the greatest number of the cuts
/// that bound exactly this class from below, and 0 where there is none. The second is the least of the numbers of those
/// that bound it from above and of the most duties of one shift on one day. The first may be above the second, and then
/// no legal rota meets the cuts. It takes no memory.
pub fn range(instance: &Instance, cuts: &Cuts, class: &Class) -> (u16, u16)
    ensures low { result.0 ≡ low cuts.now class.now }
    ensures high { result.1 ≡ high instance.now cuts.now class.now }
{
    range_below(
        instance.heads(),
        cuts.as_slice(),
        class.shift,
        class.day,
        class.prefix.as_slice(),
    )
}

/// The least and the greatest number of all duties of a shift on a day that cuts leave: the range of the class whose prefix
/// is empty. It takes no memory.
pub fn whole_range(instance: &Instance, cuts: &Cuts, shift: u16, day: u8) -> (u16, u16)
    ensures low { result.0 ≡ low cuts.now (whole_class shift day) }
    ensures high { result.1 ≡ high instance.now cuts.now (whole_class shift day) }
{
    range_below(instance.heads(), cuts.as_slice(), shift, day, &[])
}
