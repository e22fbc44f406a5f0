//! A seat of a worker, and the place from which it works.
ghost use Rattle.std.specs.Prelude.{◌≡◌, ◌+◌, ◌-◌, ◌<◌, ◌^◌, Some, min};
ghost use Rattle.worker_gate.specs.Runs.{news_of};

use crate::chair::Chair;
use advice::{Adviser, Told};
use best_cell::Reader;
use board_lock::{Begun, BestOf};
use search_core::Kept;
use std::sync::ledger::Share;

/// A seat for a worker, with its adviser.
#[derive(Drop)]
pub struct Seat {
    /// The adviser that the worker asks, and tells what became of its steps.
    pub adviser: Box<dyn Adviser + Send>,
    /// How often the worker told its adviser something in the run.
    pub told: u64,
    /// The worker's part of the commits of the run that answered `Ok`.
    pub share: u64,
}

impl Seat {
    /// Tells the adviser what a commit made of its step for that node, and counts it.
    pub(crate) fn tell(&mut self, node: u32, kept: Kept)
        requires told { self.old.told < 2 ^ 63 }
        requires share { self.old.share < 2 ^ 63 }
        ensures counted { self.new.told ≡ self.old.told + 1 }
        ensures share { self.new.share ≡ self.old.share + 1 }
        ensures told { told self.new.adviser ≡ min (told self.old.adviser + 1) (2 ^ 64 - 1) }
        ensures last { last self.new.adviser ≡ Some (news_of node kept) }
    {
        self.adviser.learn(&Told {
            node,
            floor: kept.floor,
            best: kept.best,
        });
        self.told += 1;
        self.share += 1;
    }
}

/// A seat with what its worker needs: a seat at the lock of the board, which is away while the worker works, a share of the ledger of commits,
/// its number, and a reader of the best cost.
#[derive(Drop)]
pub(crate) struct Place<B, L: Begun> {
    pub(crate) chair: Chair<B>,
    pub(crate) seat: Seat,
    pub(crate) share: Share<L>,
    pub(crate) number: u32,
    /// Reads what the best rota costs without the lock.
    pub(crate) reader: Reader<BestOf<L>>,
    /// How many nodes the worker has taken in the run, which is what the gate is told.
    pub(crate) steps: u64,
    /// Whether the worker saw that the run is asked to stop.
    pub(crate) asked: bool,
    ghost told: { seat.told ≡ share.amount },
    ghost shared: { seat.share ≡ share.amount },
    ghost one_part: { share.parts ≡ 1 },
    ghost sixteen: { number < 16 },
}
