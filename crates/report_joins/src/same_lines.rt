//! Whether proof lines are the same.
ghost use Rattle.std.specs.Prelude.{◌≡◌, ◌↔◌, IsTrue};

use certificate::Line;
use head_splits::{Class, Prices};

/// Whether both are the same class.
fn is_same_class(class: &Class, other: &Class) -> bool
    ensures { IsTrue result ↔ (class.now ≡ other.now) }
{
    class.shift == other.shift && class.day == other.day && class.prefix.is_same(&other.prefix)
}

/// Whether both have the same prices of slots.
fn has_same_slots(prices: &Prices, other: &Prices) -> bool
    ensures { IsTrue result ↔ (prices.now.slots ≡ other.now.slots) }
{
    prices.slots.as_slice() == other.slots.as_slice()
}

/// Whether both have the same prices of cuts.
fn has_same_cuts(prices: &Prices, other: &Prices) -> bool
    ensures { IsTrue result ↔ (prices.now.cuts ≡ other.now.cuts) }
{
    prices.cuts.as_slice() == other.cuts.as_slice()
}

/// Whether both are the same price set.
fn is_same_prices(prices: &Prices, other: &Prices) -> bool
    ensures { IsTrue result ↔ (prices.now ≡ other.now) }
{
    prices.q == other.q && has_same_slots(prices, other) && has_same_cuts(prices, other)
}

/// Whether both are the same proof line.
pub(crate) fn is_same_line(line: &Line, other: &Line) -> bool
    ensures { IsTrue result ↔ (line.now ≡ other.now) }
{
    match line {
        Line::Split { node, class, m } => match other {
            Line::Split {
                node: at,
                class: of,
                m: by,
            } => node == at && m == by && is_same_class(class, of),
            _ => false,
        },
        Line::Priced { node, prices } => match other {
            Line::Priced {
                node: at,
                prices: by,
            } => node == at && is_same_prices(prices, by),
            _ => false,
        },
        Line::Settled { node } => match other {
            Line::Settled { node: at } => node == at,
            _ => false,
        },
    }
}
