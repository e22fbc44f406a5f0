//! Prices of slots and of cuts, one by one.
ghost use Rattle.std.specs.Prelude.{◌≡◌, ◌≤◌, ◌*◌, ◌&&◌, neg_ℤ, pos, int_le};
ghost use Rattle.std.specs.Int.RustNames.{unsigned_abs};
ghost use Rattle.head_splits.specs.Bound.{is_cut_price, signed_price};

use head_splits::{CUT_PRICE_MAX, Cut, Side};

/// Whether a slot's price keeps to its range, by a scale and the costs of an employee too many and too few in a slot.
pub fn is_slot_price(q: u16, excess: u32, shortage: u32, price: i64) -> bool
    ensures { result ≡ int_le (neg_ℤ (pos (q * excess))) price && int_le price (pos (q * shortage)) }
{
    let q = i64::from(q);
    -(q * i64::from(excess)) <= price && price <= q * i64::from(shortage)
}

/// Whether a cut's price keeps to its range.
pub fn is_cut_price(cut: &Cut, price: u64) -> bool
    ensures { result ≡ is_cut_price (cut.now, price) }
{
    price <= CUT_PRICE_MAX && (!cut.class.prefix.as_slice().is_empty() || price == 0)
}

/// A cut's price with the sign of its side.
pub fn signed_price(side: Side, price: u64) -> i64
    requires { price ≤ 1000000000000 }
    ensures price { result ≡ signed_price side price }
    ensures small { unsigned_abs result ≤ 1000000000000 }
{
    match side {
        Side::AtMost => -(price as i64),
        Side::AtLeast => price as i64,
    }
}
