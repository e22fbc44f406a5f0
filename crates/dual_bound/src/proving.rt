//! Bounds with what proves them.
ghost use Rattle.std.specs.Prelude.{◌≡◌, ◌≤◌, ◌^◌, IsTrue, IfOk, List, MatchResult, None, length};
ghost use Rattle.break_rules.specs.Causes.{first_cause};
ghost use Rattle.shift_instance.specs.declared.Duty.{Duty};
ghost use Rattle.shift_instance.specs.Rota.{cost, is_legal_rota};
ghost use Rattle.head_splits.specs.Cuts.{meets};
ghost use Rattle.head_splits.specs.Bound.{bound_of};
ghost use Rattle.dual_bound.specs.Faults.{Answers, price_causes};
ghost use Rattle.dual_bound.specs.Proved.{IsProved};

use crate::PriceFault;
use crate::faults::first_fault;
use crate::terms::bound_by_pricing;
use bound_sums::KeptValues;
use head_splits::{Cuts, Prices};
use price_sums::Lane;
use shift_instance::Instance;
use std::alloc::Global;
use std::marker::Model;
use std::snapshot::Snapshot;

/// A price set for cuts, with the bound that it gives on the cost of the legal rotas of an instance below them.
#[derive(Drop)]
pub struct Proved {
    cuts: Cuts,
    prices: Prices,
    bound: u64,
    instance: Snapshot<Instance>,
}

impl Model for Proved {
    ghost use Rattle.dual_bound.specs.Proved.{Proving, IsProved};

    ghost Value = { Proving };

    ghost view = { λ p. record { instance = p.instance.value; cuts = p.cuts; prices = p.prices; bound = p.bound } };

    ghost invariant = { λ p. IsProved (record { instance = p.instance.value; cuts = p.cuts; prices = p.prices; bound = p.bound }) };
}

/// Memory in which the bounds of price sets for an instance are found, with the values of duties that stay the same from one
/// price set to the next.
///
/// Contracts see the instance.
#[derive(Drop)]
pub struct Buffers {
    alloc: Global,
    lanes: Vec<Lane>,
    kept: KeptValues,
}

impl Model for Buffers {
    ghost use Rattle.shift_instance.specs.Problem.{Problem};

    ghost Value = { Problem };

    ghost view = { λ b. b.kept };
}

impl Buffers {
    /// Makes buffers for an instance. They have no memory yet, and take it as price sets are proved in them.
    pub fn new(alloc: Global, instance: &Instance) -> Buffers
        ensures instance { result ≡ instance.now }
    {
        Buffers {
            alloc,
            lanes: Vec::new(alloc),
            kept: KeptValues::new(alloc, instance),
        }
    }

    /// Proves the bound of prices for cuts as [`prove`] does, in the memory that the buffers have from earlier price sets, and with
    /// the values of duties that are known from them.
    pub fn prove(
        &mut self,
        instance: &Instance,
        cuts: Cuts,
        prices: Prices,
    ) -> Result<Proved, PriceFault>
        requires few { length cuts ≤ 2 ^ 33 }
        requires instance { self.old ≡ instance.now }
        ensures ok { IfOk result (λ p. (p.instance ≡ instance.now) × (p.cuts ≡ cuts) × (p.prices ≡ prices)) }
        ensures bound { IfOk result (λ p. p.bound ≡ bound_of instance.now cuts prices) }
        ensures fault { MatchResult result (λ _. first_cause (price_causes instance.now cuts prices) ≡ None) (λ e. Answers e (first_cause (price_causes instance.now cuts prices))) }
        ensures instance { self.new ≡ self.old }
    {
        match first_fault(instance, &cuts, &prices) {
            Some(fault) => return Err(fault),
            None => {}
        }
        let kept = &mut self.kept;
        let lanes = &mut self.lanes;
        let bound = match bound_by_pricing(self.alloc, kept, instance, &cuts, &prices, lanes) {
            Ok(bound) => bound,
            Err(_) => return Err(PriceFault::NoMemory),
        };
        Ok(Proved {
            cuts,
            prices,
            bound,
            instance: Snapshot::of(instance),
        })
    }
}

/// The bound of prices for cuts, or their first fault: first that of the scale, then of the slots' prices their number and
/// the first one outside its range, and then the same of the cuts' prices. Where no fault applies, the only refusal left is
/// running out of memory.
pub fn prove(
    alloc: Global,
    instance: &Instance,
    cuts: Cuts,
    prices: Prices,
) -> Result<Proved, PriceFault>
    requires { length cuts ≤ 2 ^ 33 }
    ensures ok { IfOk result (λ p. (p.instance ≡ instance.now) × (p.cuts ≡ cuts) × (p.prices ≡ prices)) }
    ensures bound { IfOk result (λ p. p.bound ≡ bound_of instance.now cuts prices) }
    ensures fault { MatchResult result (λ _. first_cause (price_causes instance.now cuts prices) ≡ None) (λ e. Answers e (first_cause (price_causes instance.now cuts prices))) }
{
    Buffers::new(alloc, instance).prove(instance, cuts, prices)
}

impl Proved {
    /// The cuts, from the root on.
    pub fn cuts(&self) -> &Cuts
        ensures cuts { result.now ≡ self.now.cuts }
        ensures proved { IsProved self.now }
    {
        &self.cuts
    }

    /// The bound of the prices: every legal rota of the instance that meets the cuts costs at least that much.
    pub fn bound(&self) -> u64
        ensures bound { result ≡ self.now.bound }
        ensures proved { IsProved self.now }
        ensures below { (rota : List Duty) → IsTrue (is_legal_rota self.now.instance rota) → IsTrue (meets rota self.now.cuts) → result ≤ cost self.now.instance rota }
    {
        self.bound
    }

    /// The cuts and the prices, given back.
    pub fn into_parts(self) -> (Cuts, Prices)
        ensures cuts { result.0 ≡ self.cuts }
        ensures prices { result.1 ≡ self.prices }
        ensures proved { IsProved self }
    {
        (self.cuts, self.prices)
    }
}
