//! Where two lists of cuts differ.
ghost use Rattle.std.specs.Prelude.{◌≡◌, IsTrue, ◌↔◌, MatchOption};
ghost use Rattle.head_splits.specs.Cuts.{DifferAt};

use crate::Cut;

/// Whether both are the same cut.
fn is_same(cut: &Cut, other: &Cut) -> bool
    ensures { IsTrue result ↔ (cut.now ≡ other.now) }
{
    cut.m == other.m
        && cut.side == other.side
        && cut.class.shift == other.class.shift
        && cut.class.day == other.class.day
        && cut.class.prefix.is_same(&other.class.prefix)
}

/// The first place at which two lists of cuts differ, where they do: the length of the shorter where it begins the other. It
/// takes no memory.
pub fn first_difference(cuts: &[Cut], others: &[Cut]) -> Option<usize>
    ensures { MatchOption result (cuts.now ≡ others.now) (DifferAt cuts.now others.now) }
{
    let mut at = 0;
    while at < cuts.len() && at < others.len() {
        if !is_same(&cuts[at], &others[at]) {
            return Some(at);
        }
        at += 1;
    }
    if cuts.len() == others.len() {
        return None;
    }
    Some(at)
}
