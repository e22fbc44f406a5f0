//! Open nodes in a heap.
ghost use Rattle.std.specs.Prelude.{◌≡◌, ◌+◌, ◌-◌, ◌<◌, ◌≤◌, [], ◌++◌, false, length, max, nat_lt, slice_get, IfNone, OnErr, OnOk, IfSome};
ghost use Rattle.std.specs.List.{filter};
ghost use Rattle.std.specs.Option.{option_to_list};
ghost use Rattle.open_nodes.specs.Listed.{has_node, with_entry, Rises};

use break_rules::NoMemory;
use std::alloc::Global;
use std::cmp::Reverse;
use std::collections::BinaryHeap;
use std::marker::Model;

/// Open nodes of a search, each by its floor and its number: the one of least floor comes first, and among those the one of
/// least number.
///
/// Contracts see the nodes as a list that rises strictly, and how many may be added without memory.
#[derive(Drop)]
pub struct OpenNodes {
    heap: BinaryHeap<Reverse<(u64, u32)>>,
    spare: usize,
}

impl Model for OpenNodes {
    ghost use Rattle.open_nodes.specs.Listed.{OpenView};

    ghost Value = { OpenView };

    ghost use Rattle.std.specs.BinaryHeap.{heap_capacity, heap_items, heap_len};
    ghost use Rattle.open_nodes.specs.Kept.{in_order, IsKept};

    ghost view = { λ o. record { entries = in_order (heap_items o.heap); spare = o.spare } };

    ghost invariant = { λ o. IsKept (heap_items o.heap) o.spare (heap_len o.heap) (heap_capacity o.heap) };
}

impl OpenNodes {
    /// No nodes, and no room for any. It takes no memory.
    pub fn new(alloc: Global) -> OpenNodes
        ensures { result ≡ record { entries = []; spare = 0 } }
    {
        OpenNodes {
            heap: BinaryHeap::new(alloc),
            spare: 0,
        }
    }

    /// Makes room for so many more nodes. It never lowers the room.
    pub fn reserve(&mut self, more: u32) -> Result<(), NoMemory>
        ensures ok { OnOk result (self.new ≡ record self.old { spare = max self.old.spare more }) }
        ensures err { OnErr result (self.new ≡ self.old) }
    {
        let more = more as usize;
        if more <= self.spare {
            return Ok(());
        }
        self.heap.reserve(more)?;
        self.spare = more;
        Ok(())
    }

    /// Adds a node with its floor, where there is room. It takes no memory.
    pub fn add(&mut self, floor: u64, node: u32)
        requires room { 0 < self.old.spare }
        requires new { has_node self.old.entries node ≡ false }
        ensures added { self.new.entries ≡ with_entry (floor, node) self.old.entries }
        ensures spare { self.new.spare ≡ self.old.spare - 1 }
    {
        match self.heap.push(Reverse((floor, node))) {
            Ok(()) => self.spare -= 1,
            Err(_) => unreachable!(),
        }
    }

    /// The first node, with its floor.
    pub fn first(&self) -> Option<(u64, u32)>
        ensures first { result ≡ slice_get self.now.entries 0 }
        ensures rises { Rises self.now.entries }
    {
        match self.heap.peek() {
            Some(first) => Some(first.0),
            None => None,
        }
    }

    /// Takes out the first node, with its floor. It takes no memory.
    pub fn take_first(&mut self) -> Option<(u64, u32)>
        ensures taken { self.old.entries ≡ option_to_list result ++ self.new.entries }
        ensures none { IfNone result (self.old.entries ≡ []) }
        ensures spare { self.new.spare ≡ self.old.spare + length (option_to_list result) }
    {
        match self.heap.pop() {
            Some(Reverse(entry)) => {
                self.spare += 1;
                Some(entry)
            }
            None => None,
        }
    }

    /// Takes out the nodes with that floor or a greater one. It takes no memory.
    pub fn drop_from(&mut self, floor: u64)
        ensures left { self.new.entries ≡ filter (λ e. nat_lt e.0 floor) self.old.entries }
        ensures spare { self.new.spare + length self.new.entries ≡ self.old.spare + length self.old.entries }
    {
        let before = self.heap.len();
        self.heap.retain(|Reverse((at, _))| *at < floor);
        self.spare += before - self.heap.len();
    }
}
