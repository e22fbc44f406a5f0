//! Settled nodes with their plans.
ghost use Rattle.std.specs.Prelude.{◌≡◌, IsTrue, IsFalse, IfOk, Some, None, MatchOption};
ghost use Rattle.shift_instance.specs.Rota.{are_legal_rows};
ghost use Rattle.rota_cost.specs.Costed.{IsCosted};
ghost use Rattle.head_splits.specs.Settled.{is_settled, is_empty, settled_rows};
ghost use Rattle.head_splits.specs.Nodes.{settled_floor};
ghost use Rattle.dual_bound.specs.Settling.{IsSettledNode};
ghost use Rattle.dual_bound.specs.Fixing.{IsFixing, SplitsLive};

use break_rules::NoMemory;
use head_splits::{Class, Cuts, Settle, settled};
use rota_cost::{Costed, cost_rows};
use shift_instance::{Instance, Rows, TOP};
use std::alloc::Global;
use std::marker::Model;
use std::snapshot::Snapshot;

/// Cuts of an instance that fix the number of each legal duty, with the one plan that they leave, or none where no legal
/// rota meets them.
#[derive(Drop)]
pub struct SettledNode {
    cuts: Cuts,
    plan: Option<Costed>,
    instance: Snapshot<Instance>,
}

impl Model for SettledNode {
    ghost use Rattle.dual_bound.specs.Settling.{Settling, IsSettledNode};

    ghost Value = { Settling };

    ghost view = { λ n. record { instance = n.instance.value; cuts = n.cuts; plan = n.plan } };

    ghost invariant = { λ n. IsSettledNode (record { instance = n.instance.value; cuts = n.cuts; plan = n.plan }) };
}

/// What settling the cuts of a node gives.
#[derive(Drop)]
pub enum Fixing {
    /// The number of some legal duty isn't fixed: the class to split, and the number by which. Its parts have at most `m`
    /// duties, and at least `m + 1`.
    Open {
        /// The class, the shortest prefix whose number isn't fixed of the first duty whose number isn't.
        class: Class,
        /// Half the least and the greatest number of its duties together, rounded down.
        m: u16,
    },
    /// The number of each legal duty is fixed.
    Done(SettledNode),
}

/// Rows with their cost, where they are legal.
fn cost_plan(instance: &Instance, rows: Rows) -> Option<Costed>
    ensures { MatchOption result (IsFalse (are_legal_rows instance.now rows)) (λ c. (c.instance ≡ instance.now) × (c.rows ≡ rows) × IsCosted c) }
{
    match cost_rows(instance, rows) {
        Ok(costed) => {
            // Its clauses say that the cost is the rows' own.
            let _cost = costed.cost();
            Some(costed)
        }
        Err(_) => None,
    }
}

/// The settled node with these cuts, and the rows of their plan.
fn seal(instance: &Instance, cuts: Cuts, rows: Rows) -> SettledNode
    requires settled { IsTrue (is_settled instance.now cuts) }
    requires some { IsFalse (is_empty instance.now cuts) }
    requires rows { rows ≡ settled_rows instance.now cuts }
    ensures { (result.instance ≡ instance.now) × (result.cuts ≡ cuts) × IsSettledNode result }
{
    SettledNode {
        cuts,
        plan: cost_plan(instance, rows),
        instance: Snapshot::of(instance),
    }
}

/// The class to split at a node with these cuts, or the settled node with its plan.
pub fn settle(alloc: Global, instance: &Instance, cuts: Cuts) -> Result<Fixing, NoMemory>
    ensures exact { IfOk result (λ f. IsFixing instance.now cuts f) }
    ensures split { IfOk result (λ f. SplitsLive instance.now cuts f) }
{
    match settled(alloc, instance, &cuts)? {
        Settle::Unsettled { class, m } => Ok(Fixing::Open { class, m }),
        Settle::Plan(rows) => Ok(Fixing::Done(seal(instance, cuts, rows))),
        Settle::Empty => Ok(Fixing::Done(SettledNode {
            cuts,
            plan: None,
            instance: Snapshot::of(instance),
        })),
    }
}

impl SettledNode {
    /// The cost of each legal rota that meets the cuts, and [`TOP`] where there is none.
    pub fn floor(&self) -> u64
        ensures floor { result ≡ settled_floor self.now.instance self.now.cuts }
        ensures settled { IsSettledNode self.now }
    {
        match &self.plan {
            Some(costed) => costed.cost(),
            None => TOP,
        }
    }

    /// The plan with its cost, and `None` where no legal rota meets the cuts.
    pub fn into_plan(self) -> Option<Costed>
        ensures plan { result ≡ self.plan }
        ensures settled { IsSettledNode self }
    {
        self.plan
    }
}
