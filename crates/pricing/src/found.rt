//! Break lists with their worth, and the better of two.

ghost use Rattle.std.specs.Prelude.{◌≡◌};
ghost use Rattle.pricing.specs.Found.{is_better, IsLegal, IsFound, Covers, Keeps};

use crate::around::Rests;
use break_rules::{Break, Breaks, is_less_list};
use patterns::Trie;

/// A legal break list, with what a duty with it is worth.
#[derive(Drop)]
pub struct Found {
    /// The breaks.
    pub list: Breaks,
    /// The prices that the duty earns, and the bonuses that it gets.
    pub value: i128,
}

/// Whether a list of some worth is better than what was found: it is worth more, or as much and it is less.
fn is_better(list: &[Break], value: i128, found: &Found) -> bool
    ensures { result ≡ is_better list.now value found.now }
{
    found.value < value || found.value == value && is_less_list(list, found.list.as_slice())
}

/// The better of a list and the best so far.
pub fn better<R: Rests>(rests: &R, trie: &Trie, list: Breaks, best: Option<Found>) -> Option<Found>
    requires legal { IsLegal (R.priced rests.now) list }
    requires found { IsFound (R.priced rests.now) trie.now.entries best }
    ensures found { IsFound (R.priced rests.now) trie.now.entries result }
    ensures covers { Covers (R.priced rests.now) trie.now.entries result list }
    ensures keeps { Keeps (R.priced rests.now) trie.now.entries best result }
{
    let breaks = list.as_slice();
    let value = i128::from(rests.earned(breaks)) + trie.bonus_of(breaks);
    let new = Found { list, value };
    match best {
        Some(old) => {
            if is_better(new.list.as_slice(), value, &old) {
                Some(new)
            } else {
                Some(old)
            }
        }
        None => Some(new),
    }
}
