//! The ranges that cuts leave to their classes, looked up by class.
ghost use Rattle.std.specs.Prelude.{◌≡◌, ◌++◌, ◌∷◌, [], List, IfOk, OnOk};
ghost use Rattle.shift_instance.specs.Problem.{Problem};
ghost use Rattle.head_splits.specs.declared.Cut.{Cut};
ghost use Rattle.head_splits.specs.Cuts.{low, high};
ghost use Rattle.head_splits.specs.Ranges.{AreRanges, class_at};

use crate::ranges::{lower, raise};
use crate::{Cut, Cuts};
use break_rules::{Break, NoMemory};
use indexmap::IndexMap;
use shift_instance::Instance;
use std::alloc::Global;

/// The place of a class: its shift, its day and its prefix.
#[derive(PartialEq, Eq, Hash, Drop)]
pub struct Place {
    pub shift: u16,
    pub day: u8,
    pub prefix: Vec<Break>,
}

/// The range that cuts leave to each class that one of them is on. To any other class they leave 0 to `heads`.
#[derive(Drop)]
pub struct RangeTable {
    pub alloc: Global,
    pub heads: u16,
    pub ranges: IndexMap<Place, (u16, u16)>,
}

impl RangeTable {
    /// The least and the greatest number of duties of a class. It looks at the entries whose places hash alike, and takes
    /// no memory.
    pub fn range_of(&self, place: &Place) -> (u16, u16)
        ensures { (i : Problem) → (cuts : List Cut) → AreRanges i cuts self.now → (result.0 ≡ low cuts (class_at place.now)) × (result.1 ≡ high i cuts (class_at place.now)) }
    {
        self.ranges.get(place).copied().unwrap_or((0, self.heads))
    }

    /// Narrows the range of a cut's class by the cut.
    fn narrow(&mut self, cut: &Cut) -> Result<(), NoMemory>
        ensures { OnOk result ((i : Problem) → (cuts : List Cut) → AreRanges i cuts self.old → AreRanges i (cuts ++ cut.now ∷ []) self.new) }
    {
        let place = Place {
            shift: cut.class.shift,
            day: cut.class.day,
            prefix: Vec::from_slice(self.alloc, cut.class.prefix.as_slice())?,
        };
        let (low, high) = self.range_of(&place);
        let range = (raise(cut.side, cut.m, low), lower(cut.side, cut.m, high));
        self.ranges.insert(place, range)?;
        Ok(())
    }

    /// The ranges that cuts leave to their classes. It goes through the cuts once.
    pub fn new(alloc: Global, instance: &Instance, cuts: &Cuts) -> Result<RangeTable, NoMemory>
        ensures { IfOk result (AreRanges instance.now cuts.now) }
    {
        let mut table = RangeTable {
            alloc,
            heads: instance.heads(),
            ranges: IndexMap::new(alloc),
        };
        for cut in cuts.as_slice() {
            table.narrow(cut)?;
        }
        Ok(table)
    }
}
