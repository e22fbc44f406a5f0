//! The order of break lists.

ghost use Rattle.std.specs.Prelude.{◌≡◌};
ghost use Rattle.break_rules.specs.Breaks.{is_less_break, is_less_list};

use crate::Break;

/// Whether a break is less than another: by start, and then by length.
fn is_less_break(a: Break, b: Break) -> bool
    ensures { result ≡ is_less_break a b }
{
    a.start < b.start || a.start == b.start && a.len < b.len
}

/// Whether a break list is less than another: break by break, a proper prefix first. It takes no memory.
pub fn is_less_list(a: &[Break], b: &[Break]) -> bool
    ensures { result ≡ is_less_list a.now b.now }
{
    for (i, x) in a.iter().enumerate() {
        if b.len() <= i || is_less_break(b[i], *x) {
            return false;
        }
        if is_less_break(*x, b[i]) {
            return true;
        }
    }
    a.len() < b.len()
}
