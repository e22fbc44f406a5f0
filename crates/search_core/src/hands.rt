//! The hands of workers.
ghost use Rattle.std.specs.Prelude.{◌≡◌, ◌<◌, None, Some, IsFalse, slice_set};
ghost use Rattle.std.specs.List.{list_any};
ghost use Rattle.search_core.specs.Core.{empty_hands, hand, is_node, AreApart};

use std::marker::Model;

/// The node in the hand of each of sixteen workers, by its number. No node is in two hands.
#[derive(Drop)]
pub struct Hands {
    nodes: [Option<u32>; 16],
}

impl Model for Hands {
    ghost use Rattle.std.specs.Prelude.{List, Option, ℕ};

    ghost Value = { List (Option ℕ) };

    ghost view = { λ h. h.nodes };

    ghost use Rattle.search_core.specs.Core.{AreApart};

    ghost invariant = { λ h. AreApart h.nodes };
}

impl Hands {
    /// Empty hands.
    pub fn empty() -> Hands
        ensures { result ≡ empty_hands }
    {
        Hands { nodes: [None; 16] }
    }

    /// The node in a worker's hand.
    pub fn held(&self, worker: u32) -> Option<u32>
        requires { worker < 16 }
        ensures held { result ≡ hand self.now worker }
        ensures apart { AreApart self.now }
    {
        self.nodes[worker as usize]
    }

    /// A worker takes a node that is in no hand.
    pub fn take(&mut self, worker: u32, node: u32)
        requires worker { worker < 16 }
        requires free { IsFalse (list_any (is_node node) self.old) }
        ensures { self.new ≡ slice_set self.old worker (Some node) }
    {
        self.nodes[worker as usize] = Some(node);
    }

    /// A worker lets go of what is in its hand.
    pub fn release(&mut self, worker: u32)
        requires { worker < 16 }
        ensures { self.new ≡ slice_set self.old worker None }
    {
        self.nodes[worker as usize] = None;
    }
}
