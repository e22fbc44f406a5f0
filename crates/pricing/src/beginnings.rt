//! The beginnings of the prefixes of bonuses, each once.

ghost use Rattle.std.specs.Prelude.{◌≡◌, ◌==◌, ◌⊎◌, List, [], IfOk, OnOk, length, map};
ghost use Rattle.std.specs.List.{IsDistinct};
ghost use Rattle.break_rules.specs.declared.Break.{Break};
ghost use Rattle.break_rules.specs.Breaks.{same_list};
ghost use Rattle.break_rules.specs.Lists.{Has};
ghost use Rattle.pricing.specs.Keeping.{AreBeginnings, HaveFirst, IsBeginning, is_named};

use break_rules::{Break, Breaks, NoMemory};
use indexmap::IndexSet;
use std::alloc::Global;
use std::marker::Model;

/// Lists of breaks, none of them twice.
#[derive(Drop)]
pub struct Beginnings {
    alloc: Global,
    set: IndexSet<Vec<Break>>,
}

impl Model for Beginnings {
    ghost use Rattle.std.specs.Prelude.{List, map};
    ghost use Rattle.break_rules.specs.declared.Break.{Break};

    ghost Value = { List (List Break) };

    ghost view = { λ b. map (λ list. list.items) b.set.keys };
}

impl Beginnings {
    /// No lists. It takes no memory.
    fn none(alloc: Global) -> Beginnings
        ensures { result ≡ [] }
    {
        Beginnings {
            alloc,
            set: IndexSet::new(alloc),
        }
    }

    /// The lists.
    pub fn lists(&self) -> &[Vec<Break>]
        ensures lists { map (λ list. list.items) result.now ≡ self.now }
        ensures once { IsDistinct same_list self.now }
    {
        self.set.as_slice()
    }

    /// Whether there is no list.
    pub fn is_empty(&self) -> bool
        ensures { result ≡ (length self.now == 0) }
    {
        self.set.as_slice().is_empty()
    }

    /// Whether a list is there. It takes no memory.
    pub fn has(&self, list: &[Break]) -> bool
        ensures { result ≡ is_named self.now list.now }
    {
        self.set.contains(list)
    }

    /// Adds a list, unless it is there.
    fn add(&mut self, list: &[Break]) -> Result<(), NoMemory>
        ensures has { OnOk result (Has self.new list.now) }
        ensures keeps { (other : List Break) → Has self.old other → Has self.new other }
        ensures only { (other : List Break) → Has self.new other → Has self.old other ⊎ (other ≡ list.now) }
    {
        let key = Vec::from_slice(self.alloc, list)?;
        self.set.insert(key)?;
        Ok(())
    }

    /// Adds the beginnings of a prefix.
    fn add_along(&mut self, prefix: &[Break]) -> Result<(), NoMemory>
        ensures has { OnOk result (HaveFirst self.new prefix.now (length prefix.now)) }
        ensures keeps { (other : List Break) → Has self.old other → Has self.new other }
        ensures only { (other : List Break) → Has self.new other → Has self.old other ⊎ IsBeginning prefix.now other }
    {
        for end in 0..prefix.len() {
            self.add(&prefix[..end + 1])?;
        }
        Ok(())
    }

    /// The beginnings of the prefixes of bonuses but the empty one.
    pub fn of(alloc: Global, bonus: &[(Breaks, i64)]) -> Result<Beginnings, NoMemory>
        ensures { IfOk result (AreBeginnings bonus.now) }
    {
        let mut beginnings = Beginnings::none(alloc);
        for (prefix, _) in bonus {
            beginnings.add_along(prefix.as_slice())?;
        }
        let _once = beginnings.lists();
        Ok(beginnings)
    }
}
