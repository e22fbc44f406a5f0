//! What tables are about: the break lists of a shift on a day, with bonuses.

ghost use Rattle.std.specs.Prelude.{◌≡◌, ◌^◌, ◌≤◌, length, All, IfOk};
ghost use Rattle.std.specs.Int.RustNames.{unsigned_abs};
ghost use Rattle.pricing.specs.Tables.{MeanTheSame};
ghost use Rattle.pricing.specs.Keeping.{AreBeginnings};

use crate::beginnings::Beginnings;
use crate::search::trie_of;
use break_rules::{Breaks, NoMemory};
use patterns::Trie;
use std::alloc::Global;

/// A shift on a day, and bonuses with the beginnings of their prefixes.
#[derive(Drop)]
pub struct Subject {
    /// The number of the shift.
    pub shift: u16,
    /// The day.
    pub day: u8,
    /// The bonuses.
    pub trie: Trie,
    /// The beginnings of their prefixes but the empty one.
    pub beginnings: Beginnings,
}

impl Subject {
    /// A shift on a day, and bonuses.
    pub fn new(
        alloc: Global,
        shift: u16,
        day: u8,
        bonus: &[(Breaks, i64)],
    ) -> Result<Subject, NoMemory>
        requires few { length bonus.now ≤ 2 ^ 33 }
        requires small { All (λ e. unsigned_abs e.1 ≤ 1000000000000) bonus.now }
        ensures place { IfOk result (λ s. (s.shift ≡ shift) × (s.day ≡ day)) }
        ensures bonus { IfOk result (λ s. MeanTheSame s.trie.entries bonus.now) }
        ensures beginnings { IfOk result (λ s. AreBeginnings s.trie.entries s.beginnings) }
    {
        let trie = trie_of(alloc, bonus)?;
        let beginnings = Beginnings::of(alloc, bonus)?;
        Ok(Subject {
            shift,
            day,
            trie,
            beginnings,
        })
    }
}
