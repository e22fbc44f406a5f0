//! The spot behind some breaks.

ghost use Rattle.std.specs.Prelude.{◌≡◌, MatchOption, true, false};
ghost use Rattle.break_rules.specs.Ranges.{IsRule};
ghost use Rattle.break_rules.specs.Walk.{is_walk, may_follow, spot_of};

use break_rules::{Break, Rule, Spot, after, nexts};

/// Whether a break may come next at a spot.
fn may_come(rule: &Rule, len: u16, spot: Spot, stop: Break) -> bool
    requires { IsRule rule.now }
    ensures { result ≡ may_follow rule.now len spot.offset spot.used stop }
{
    for next in nexts(rule, len, spot) {
        if next == stop {
            return true;
        }
    }
    false
}

/// The spot behind some breaks, and `None` where one of them may not come next behind those before it.
pub(crate) fn walked(rule: &Rule, len: u16, front: &[Break]) -> Option<Spot>
    requires { IsRule rule.now }
    ensures { MatchOption result (is_walk rule.now len front.now ≡ false) (λ spot. (is_walk rule.now len front.now ≡ true) × (spot ≡ spot_of rule.now front.now)) }
{
    let mut spot = Spot::opening();
    for stop in front {
        if !may_come(rule, len, spot, *stop) {
            return None;
        }
        spot = after(rule, spot, *stop);
    }
    Some(spot)
}
