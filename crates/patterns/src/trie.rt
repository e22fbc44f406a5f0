//! Numbers that stand at prefixes of break lists, and their sum for a list.

ghost use Rattle.std.specs.Prelude.{◌≡◌, ◌+◌, ◌*◌, ◌^◌, ◌<◌, ◌≤◌, [], ◌∷◌, ◌++◌, List, OnOk, OnErr, IfOk, IsOk, map, pos, ◌+ℤ◌};
ghost use Rattle.break_rules.specs.declared.Break.{Break};
ghost use Rattle.patterns.specs.Bonuses.{Bonuses, with_added, AreSmall};
ghost use Rattle.break_rules.specs.Bonuses.{bonus_of};
ghost use Rattle.std.specs.Int.RustNames.{unsigned_abs};

use break_rules::{Break, NoMemory};
use indexmap::IndexMap;
use std::alloc::Global;
use std::marker::Model;

/// Prefixes of break lists, each with a number.
#[derive(Drop)]
pub struct Trie {
    alloc: Global,
    numbers: IndexMap<Vec<Break>, i128>,
    additions: u64,
}

impl Model for Trie {
    ghost use Rattle.std.specs.Prelude.{map};
    ghost use Rattle.patterns.specs.Bonuses.{Bonuses, AreSmall};

    ghost Value = { Bonuses };

    ghost view = { λ t. record { entries = map (λ e. (e.0.items, e.1)) t.numbers.entries; additions = t.additions } };

    ghost invariant = { λ t. AreSmall (map (λ e. (e.0.items, e.1)) t.numbers.entries) t.additions };
}

impl Trie {
    /// No prefixes. It takes no memory.
    pub fn new(alloc: Global) -> Result<Trie, NoMemory>
        ensures made { IsOk result }
        ensures empty { IfOk result (λ t. t ≡ record { entries = []; additions = 0 }) }
    {
        Ok(Trie {
            alloc,
            numbers: IndexMap::new(alloc),
            additions: 0,
        })
    }

    /// The number of a prefix, and 0 where it has none.
    fn number_of(&self, prefix: &[Break]) -> i128
        ensures small { AreSmall self.now.entries self.now.additions }
        ensures empty { prefix.now ≡ [] → bonus_of self.now.entries [] ≡ result }
        ensures more { (front : List Break) → (last : Break) → prefix.now ≡ front ++ last ∷ [] → bonus_of self.now.entries prefix.now ≡ bonus_of self.now.entries front +ℤ result }
    {
        let _len = self.numbers.len();
        self.numbers.get(prefix).copied().unwrap_or(0)
    }

    /// Adds a number to that of a prefix, which is 0 before the first addition. A prefix that had none goes last. After want
    /// of memory nothing has changed.
    pub fn add(&mut self, prefix: &[Break], x: i64) -> Result<(), NoMemory>
        requires few { self.old.additions < 2 ^ 33 }
        requires small { unsigned_abs x ≤ 1000000000000 }
        ensures entries { OnOk result (self.new.entries ≡ with_added self.old.entries prefix.now x) }
        ensures additions { OnOk result (self.new.additions ≡ self.old.additions + 1) }
        ensures unchanged { OnErr result (self.new ≡ self.old) }
    {
        let number = self.numbers.get(prefix).copied().unwrap_or(0) + i128::from(x);
        let key = Vec::from_slice(self.alloc, prefix)?;
        self.numbers.insert(key, number)?;
        self.additions += 1;
        Ok(())
    }

    /// The sum of the numbers of all prefixes with which a list begins, the empty one and the whole list included. It takes
    /// no memory.
    pub fn bonus_of(&self, list: &[Break]) -> i128
        ensures sum { result ≡ bonus_of self.now.entries list.now }
        ensures small { unsigned_abs result ≤ 2 ^ 33 * 1000000000000 }
    {
        let mut sum = self.number_of(&list[..0]);
        for end in 0..list.len() {
            sum += self.number_of(&list[..end + 1]);
        }
        sum
    }
}
