//! The run of one worker alone over a board.
ghost use Rattle.std.specs.Prelude.{◌≡◌, ◌≢◌, ◌+◌, ◌<◌, ◌≤◌, ◌^◌, false, true, IfErr, IfOk, IfSome, IsFalse, IsTrue, MatchOption, None, OnErr, OnOk, Some};
ghost use Rattle.advice.specs.declared.advice.Advice.{Advice};
ghost use Rattle.search_core.specs.Board.{book_at, leaves_open, yields, Commits, HoldsStep, TakeMakes};
ghost use Rattle.search_core.specs.Calls.{steps_enough};
ghost use Rattle.search_core.specs.Core.{empty_hands, hand, IsFront};
ghost use Rattle.search_core.specs.Kept.{cuts_in};
ghost use Rattle.search_core.specs.Steps.{Fits};
ghost use Rattle.search_core.specs.declared.board.Taken.TheVariants.{Node as TakenAnswer};
ghost use Rattle.worker_gate.specs.Decision.{IsDecision};
ghost use Rattle.worker_gate.specs.Runs.{committed, is_whole, plans_and_prices_since, IsCutOff, IsEnded, IsIdle, IsRound, IsSameSearch, RunEnds, RoundTells, RunMakes, RunTells};

use crate::asking::ask_of;
use crate::worker::decide;
use crate::{Gate, Seat};
use advice::{Adviser, Stop};
use break_rules::NoMemory;
use dual_bound::Buffers;
use search_core::{Board, Close, CommitFault, Kept, StepPosts, Taken, keeps_sound};
use shift_instance::Instance;
use std::alloc::Global;

/// How a run ended.
#[derive(Clone, Copy, PartialEq, Eq, Drop)]
pub enum RunEnd {
    /// No node is open.
    Finished,
    /// All steps of the budget are taken, and a node is open.
    Spent,
    /// With the record of a step the journal would have ended at `end`, which is past `limit`. Both are lengths in bytes.
    Full { end: u64, limit: u32 },
    /// A call on the disk failed while the posts of a commit were recorded.
    DiskFault,
    /// No memory was left. The worker let go of its node.
    NoMemory,
    /// The run was asked to stop. A node is open, and a step of the budget is left.
    Stopped,
}

/// The number of the only worker.
const WORKER: u32 = 0;

/// What a take gave.
#[derive(Clone, Copy, Drop)]
struct TakenNode {
    node: u32,
    floor: u64,
    best: u64,
}

/// Takes a node, or says how the run ends. Where the run is asked to stop, it takes none.
fn take_node<B: Board, S: Stop>(board: &mut B, stop: &S) -> Result<TakenNode, RunEnd>
    requires idle { IsIdle (B.seen board.old) }
    ensures takes { IfOk result (λ t. TakeMakes (TakenAnswer t.node t.floor t.best) 0 (B.seen board.old) (B.seen board.new)) }
    ensures left { OnOk result ((B.seen board.old).taken < (B.seen board.old).budget) }
    ensures more { OnOk result ((B.seen board.new).taken ≡ (B.seen board.old).taken + 1) }
    ensures ends { IfErr result (IsEnded (B.seen board.old) (B.seen board.new)) }
    ensures whole { IfErr result (λ end. IsTrue (is_whole end)) }
    ensures same { OnErr result ((B.seen board.new).taken ≡ (B.seen board.old).taken) }
    ensures stopped { IfErr result (λ end. end ≡ RunEnd.Stopped → S.can_ask stop.now ≡ true) }
{
    if stop.is_asked() && board.gives() {
        return Err(RunEnd::Stopped);
    }
    match board.take(WORKER) {
        Taken::Node { node, floor, best } => Ok(TakenNode { node, floor, best }),
        Taken::Finished => Err(RunEnd::Finished),
        Taken::Spent => Err(RunEnd::Spent),
        // nothing shut the board
        Taken::Closed => unreachable!(),
        // no worker gave up
        Taken::Halted => unreachable!(),
        // no hand holds a node
        Taken::Idle => unreachable!(),
    }
}

/// The step that the worker makes of what its adviser advises for the node that it has taken.
fn decide_taken<B: Board>(
    alloc: Global,
    instance: &Instance,
    buffers: &mut Buffers,
    seat: &mut Seat,
    board: &B,
    taken: TakenNode,
) -> Result<StepPosts, NoMemory>
    requires held { hand (B.seen board.now).hands 0 ≡ Some taken.node }
    requires buffers { buffers.old ≡ instance.now }
    ensures decision { IfOk result (λ step. (advice : Advice) × IsDecision instance.now taken.node (cuts_in (book_at (B.seen board.now)).nodes taken.node) taken.floor taken.best advice step) }
    ensures fits { IfOk result (λ step. Fits instance.now step) }
    ensures adviser { told seat.new.adviser ≡ told seat.old.adviser }
    ensures last { last seat.new.adviser ≡ last seat.old.adviser }
    ensures told { seat.new.told ≡ seat.old.told }
    ensures share { seat.new.share ≡ seat.old.share }
    ensures buffers { buffers.new ≡ buffers.old }
{
    let TakenNode { node, floor, best } = taken;
    let ask = ask_of(board, WORKER, floor, best)?;
    let step = decide(alloc, instance, buffers, seat, node, ask)?;
    Ok(step)
}

/// Lets go of the worker's node on running out of memory.
fn give_up<B: Board>(board: &mut B) -> RunEnd
    ensures board { B.seen board.new ≡ yields 0 (B.seen board.old) }
    ensures end { result ≡ RunEnd.NoMemory }
{
    board.yield_node(WORKER);
    RunEnd::NoMemory
}

/// Commits a step for the worker's node, or says how the run ends.
fn commit_step<B: Board>(board: &mut B, step: StepPosts) -> Result<Kept, RunEnd>
    requires fits { Fits (B.seen board.old).instance step }
    requires holds { HoldsStep 0 step (B.seen board.old) }
    requires closes { step.close ≡ Close.ByPrice → IsFalse (leaves_open (B.seen board.old).instance (book_at (B.seen board.old)) 0 step) }
    ensures commits { IfOk result (Commits 0 step (B.seen board.old) (B.seen board.new)) }
    ensures cut_off { IfErr result (IsCutOff step (B.seen board.old) (B.seen board.new)) }
    ensures cut { IfErr result (λ end. IsFalse (is_whole end)) }
    ensures unasked { IfErr result (λ end. end ≢ RunEnd.Stopped) }
    ensures taken { (B.seen board.new).taken ≡ (B.seen board.old).taken }
{
    match board.commit(WORKER, step) {
        Ok(kept) => Ok(kept),
        Err(CommitFault::DiskFault) => Err(RunEnd::DiskFault),
        Err(CommitFault::Full { end, limit }) => Err(RunEnd::Full { end, limit }),
        Err(CommitFault::NoMemory) => Err(give_up(board)),
        // nothing shut the board
        Err(CommitFault::Shut) => unreachable!(),
        // the worker holds the step's node
        Err(CommitFault::NotHeld { .. }) => unreachable!(),
        // the prices are for its cuts
        Err(CommitFault::OtherCuts { .. }) => unreachable!(),
        // the node's floor and the best cost are those of the take
        Err(CommitFault::NotClosing { .. }) => unreachable!(),
    }
}

/// One round, or how the run ends in it. The seat counts the steps that were committed.
fn round<B: Board, G: Gate, S: Stop>(
    alloc: Global,
    instance: &Instance,
    buffers: &mut Buffers,
    board: &mut B,
    seat: &mut Seat,
    gate: &G,
    stop: &S,
) -> Option<RunEnd>
    requires instance { (B.seen board.old).instance ≡ instance.now }
    requires idle { IsIdle (B.seen board.old) }
    requires budget { (B.seen board.old).budget < 2 ^ 63 }
    requires share { seat.old.share ≡ (B.seen board.old).taken }
    requires each { seat.old.told ≡ seat.old.share }
    requires buffers { buffers.old ≡ instance.now }
    ensures round { MatchOption result (IsRound (B.seen board.old) (B.seen board.new)) (IsEnded (B.seen board.old) (B.seen board.new)) }
    ensures tells { RoundTells (B.seen board.old) (B.seen board.new) (last seat.old.adviser) (last seat.new.adviser) result }
    ensures stopped { IfSome result (λ end. end ≡ RunEnd.Stopped → S.can_ask stop.now ≡ true) }
    ensures share { MatchOption result (seat.new.share ≡ (B.seen board.new).taken) (λ end. seat.new.share ≡ committed end (B.seen board.new).taken) }
    ensures each { seat.new.told ≡ seat.new.share }
    ensures told { told seat.old.adviser < 2 ^ 63 + seat.old.told
        → told seat.new.adviser + seat.old.told ≡ told seat.old.adviser + seat.new.told }
    ensures buffers { buffers.new ≡ buffers.old }
{
    let taken = match take_node(board, stop) {
        Ok(taken) => taken,
        Err(end) => return Some(end),
    };
    gate.enter(WORKER, seat.share + 1);
    let Ok(step) = decide_taken(alloc, instance, buffers, seat, board, taken) else {
        return Some(give_up(board));
    };
    let kept = commit_step(board, step);
    keeps_sound(&*board);
    match kept {
        Ok(kept) => {
            seat.tell(taken.node, kept);
            None
        }
        Err(end) => Some(end),
    }
}

/// Runs worker 0 alone over a board. Round by round it takes a node, passes the gate, and commits the step that it makes of what
/// its seat's adviser advises for it; once a commit answered `Ok`, it tells the adviser. The run ends where no node is open, no
/// step of the budget is left, a commit fails, no memory is left, or the worker sees before a take that it is asked to stop.
///
/// The seat counts the steps that were committed: all that the board says were taken, and all but the last where the run was cut
/// off.
pub fn run_seat<B: Board, G: Gate, S: Stop>(
    alloc: Global,
    instance: &Instance,
    board: &mut B,
    seat: &mut Seat,
    gate: &G,
    stop: &S,
) -> RunEnd
    requires instance { (B.seen board.old).instance ≡ instance.now }
    requires fresh { (B.seen board.old).taken ≡ 0 }
    requires running { (B.seen board.old).shut ≡ None }
    requires going { (B.seen board.old).halted ≡ false }
    requires empty { (B.seen board.old).hands ≡ empty_hands }
    requires budget { (B.seen board.old).budget < 2 ^ 63 }
    requires told { seat.old.told ≡ 0 }
    requires share { seat.old.share ≡ 0 }
    ensures same { IsSameSearch (B.seen board.old) (B.seen board.new) }
    ensures begins { IsFront (B.seen board.old).history (B.seen board.new).history }
    ensures end { RunEnds (B.seen board.new) result }
    ensures makes { RunMakes (B.seen board.old) (B.seen board.new) result }
    ensures stopped { result ≡ RunEnd.Stopped → S.can_ask stop.now ≡ true }
    ensures posts { committed result (B.seen board.new).taken ≤ plans_and_prices_since (B.seen board.old).history (B.seen board.new).history }
    ensures few { (B.seen board.new).taken ≤ steps_enough (B.seen board.old).instance }
    ensures enough { steps_enough (B.seen board.old).instance ≤ (B.seen board.old).budget → result ≢ RunEnd.Spent }
    ensures share { seat.new.share ≡ committed result (B.seen board.new).taken }
    ensures each { seat.new.told ≡ seat.new.share }
    ensures told { told seat.old.adviser < 2 ^ 63 → told seat.new.adviser ≡ told seat.old.adviser + seat.new.told }
    ensures last { RunTells (B.seen board.old) (B.seen board.new) result (last seat.old.adviser) (last seat.new.adviser) }
{
    keeps_sound(&*board);
    let mut buffers = Buffers::new(alloc, instance);
    let mut end = None;
    while end.is_none() {
        end = round(alloc, instance, &mut buffers, board, seat, gate, stop);
    }
    match end {
        Some(end) => end,
        // the loop ends with an end
        None => unreachable!(),
    }
}
