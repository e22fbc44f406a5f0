//! A run below some cuts.
ghost use Rattle.std.specs.Prelude.{◌≡◌, ◌≤◌, IsTrue, List};
ghost use Rattle.shift_instance.specs.declared.Duty.{Duty};
ghost use Rattle.shift_instance.specs.Rota.{cost, is_legal_rota};
ghost use Rattle.head_splits.specs.Cuts.{meets};
ghost use Rattle.report_grafts.specs.Run.{is_finished, top, IsSound};

use certificate::Lines;
use head_splits::Cuts;
use rota_cost::Costed;
use shift_instance::Instance;
use std::marker::Model;
use std::snapshot::Snapshot;

/// What a search below some cuts found for an instance: its best rota, and proof lines by which no legal rota that meets the cuts
/// costs less than its floor. The lines count nodes from 0 on, which is the node with these cuts.
#[derive(Drop)]
pub struct SubRun {
    instance: Snapshot<Instance>,
    base: Cuts,
    limit: u64,
    best: Option<Costed>,
    lines: Lines,
    taken: u64,
    floor: u64,
}

impl Model for SubRun {
    ghost use Rattle.report_grafts.specs.Run.{Run, IsSound};

    ghost Value = { Run };

    ghost view = { λ r. record {
      instance = r.instance.value;
      base = r.base;
      limit = r.limit;
      best = r.best;
      lines = r.lines;
      taken = r.taken;
      floor = r.floor;
    } };

    ghost invariant = { λ r. IsSound (record {
      instance = r.instance.value;
      base = r.base;
      limit = r.limit;
      best = r.best;
      lines = r.lines;
      taken = r.taken;
      floor = r.floor;
    }) };
}

impl SubRun {
    /// A run that found this below the cuts `base`. It looked for rotas cheaper than the limit; its lines price a node as often
    /// as `taken` says.
    pub fn new(
        instance: &Instance,
        base: Cuts,
        limit: u64,
        best: Option<Costed>,
        lines: Lines,
        taken: u64,
        floor: u64,
    ) -> SubRun
        requires { IsSound (record { instance = instance.now; base = base; limit = limit; best = best; lines = lines; taken = taken; floor = floor }) }
        ensures { result ≡ record { instance = instance.now; base = base; limit = limit; best = best; lines = lines; taken = taken; floor = floor } }
    {
        SubRun {
            instance: Snapshot::of(instance),
            base,
            limit,
            best,
            lines,
            taken,
            floor,
        }
    }

    /// The cuts below which the run searched.
    pub fn base(&self) -> &Cuts
        ensures base { result.now ≡ self.now.base }
    {
        &self.base
    }

    /// The cost below which it looked for rotas.
    pub fn limit(&self) -> u64
        ensures limit { result ≡ self.now.limit }
    {
        self.limit
    }

    /// The best rota that it found, which meets the cuts and costs less than the limit.
    pub fn best(&self) -> &Option<Costed>
        ensures best { result.now ≡ self.now.best }
    {
        &self.best
    }

    /// Its proof lines, good from a node with its cuts on.
    pub fn lines(&self) -> &Lines
        ensures lines { result.now ≡ self.now.lines }
        ensures sound { IsSound self.now }
    {
        &self.lines
    }

    /// How many of its proof lines price a node.
    pub fn taken(&self) -> u64
        ensures taken { result ≡ self.now.taken }
    {
        self.taken
    }

    /// What every legal rota that meets the cuts costs at least.
    #[tactic(auto, using(crate::proofs::Runs::floor_enough))]
    pub fn floor(&self) -> u64
        ensures floor { result ≡ self.now.floor }
        ensures enough { (rota : List Duty) → IsTrue (is_legal_rota self.now.instance rota) → IsTrue (meets rota self.now.base) → result ≤ cost self.now.instance rota }
    {
        self.floor
    }

    /// Whether the run left no node open. Then no legal rota that meets the cuts is cheaper than the best one of the run, and
    /// where it has none, each such rota costs at least the limit.
    #[tactic(auto, using(crate::proofs::Runs::finished_enough))]
    pub fn is_finished(&self) -> bool
        ensures finished { result ≡ is_finished self.now }
        ensures unbeaten { IsTrue result → (rota : List Duty) → IsTrue (is_legal_rota self.now.instance rota) → IsTrue (meets rota self.now.base) → top self.now ≤ cost self.now.instance rota }
    {
        let top = match &self.best {
            Some(best) => self.limit.min(best.cost()),
            None => self.limit,
        };
        self.floor == top
    }
}
