//! A worker's rounds.
ghost use Rattle.std.specs.Prelude.{◌≡◌, ◌≢◌, ◌+◌, ◌<◌, ◌≤◌, ◌^◌, false, true, IfErr, IfOk, OnErr, OnOk, length};
ghost use Rattle.advice.specs.declared.advice.Advice.{Advice};
ghost use Rattle.search_core.specs.Steps.{Fits};
ghost use Rattle.search_core.specs.declared.step_posts.Close.TheVariants.{ByPrice};
ghost use Rattle.board_lock.specs.declared.roots.BoardRoot.{BoardRoot};
ghost use Rattle.worker_gate.specs.Decision.{IsDecision};
ghost use Rattle.worker_gate.specs.Runs.{news_of};
ghost use Rattle.worker_gate.specs.Workers.{IsNews, IsToldLast, KnowsBoard};

use crate::asking::with_newest;
use crate::decision::{close_of, copy_of, step_in};
use crate::gate::Gate;
use crate::seat::{Place, Seat};
use crate::taking::Taking;
use crate::turns::{Left, Rest, Work};
use advice::{Adviser, Ask, Stop};
use board_lock::Begun;
use break_rules::NoMemory;
use dual_bound::Buffers;
use search_core::{Board, Kept, StepPosts};
use shift_instance::Instance;
use std::alloc::Global;
use std::sync::Wait;
use std::sync::ledger::Share;
use std::thread::Parker;
use std::time::Duration;

/// How long a worker waits that finds no open node, in microseconds, before it asks for one again.
const IDLE: u64 = 200;

/// The step that a worker makes of what its adviser advises for a node, with its prices proved in the worker's buffers.
pub(crate) fn decide(
    alloc: Global,
    instance: &Instance,
    buffers: &mut Buffers,
    seat: &mut Seat,
    node: u32,
    ask: Ask,
) -> Result<StepPosts, NoMemory>
    requires few { length ask.cuts ≤ 2 ^ 24 }
    requires buffers { buffers.old ≡ instance.now }
    ensures decision { IfOk result (λ step. (advice : Advice) × IsDecision instance.now node ask.cuts ask.floor ask.best advice step) }
    ensures node { IfOk result (λ step. step.node ≡ node) }
    ensures cuts { IfOk result (λ step. step.proved.cuts ≡ ask.cuts) }
    ensures fits { IfOk result (λ step. Fits instance.now step) }
    ensures adviser { told seat.new.adviser ≡ told seat.old.adviser }
    ensures last { last seat.new.adviser ≡ last seat.old.adviser }
    ensures told { seat.new.told ≡ seat.old.told }
    ensures share { seat.new.share ≡ seat.old.share }
    ensures buffers { buffers.new ≡ buffers.old }
{
    let advice = seat.adviser.advise(instance, &ask)?;
    let step = step_in(alloc, instance, buffers, node, ask, advice)?;
    Ok(step)
}

/// The step again, closed by the split or the settled plan that its cuts have.
pub(crate) fn closed_again(
    alloc: Global,
    instance: &Instance,
    step: StepPosts,
) -> Result<StepPosts, NoMemory>
    requires fits { Fits instance.now step }
    ensures node { IfOk result (λ closed. closed.node ≡ step.node) }
    ensures cuts { IfOk result (λ closed. closed.proved.cuts ≡ step.proved.cuts) }
    ensures fits { IfOk result (λ closed. Fits instance.now closed) }
    ensures closes { IfOk result (λ closed. closed.close ≢ ByPrice) }
{
    let StepPosts {
        node,
        plan,
        proved,
        close: _,
    } = step;
    let cuts = copy_of(proved.cuts())?;
    let close = close_of(alloc, instance, cuts, None)?;
    Ok(StepPosts {
        node,
        plan,
        proved,
        close,
    })
}

/// Commits a step that came back, closed by the split or the settled plan that its cuts have.
fn commit_again<B: Board, L: Begun, K: Taking<B, L>, R: Wait>(
    rt: &R,
    alloc: Global,
    instance: &Instance,
    lock: &K,
    pass: &mut K::Pass,
    worker: u32,
    step: StepPosts,
    share: &mut Share<L>,
) -> Result<Kept, Rest>
    requires pass { K.outside lock.now worker pass.old }
    requires knows { KnowsBoard B.seen instance.now worker (K.root pass.old) }
    requires worker { worker < 16 }
    requires fits { Fits instance.now step }
    requires part { 0 < share.old.parts }
    requires turns { 1 ≤ K.left pass.old }
    ensures pass { K.outside lock.now worker pass.new }
    ensures root { K.root pass.new ≡ K.root pass.old }
    ensures counted { OnOk result (share.new.amount ≡ share.old.amount + 1) }
    ensures uncounted { OnErr result (share.new.amount ≡ share.old.amount) }
    ensures within { OnOk result (share.new.amount < 2 ^ 63) }
    ensures parts { share.new.parts ≡ share.old.parts }
    ensures news { IfOk result (λ kept. ∥ IsNews (K.root pass.old).workers (B.seen (K.root pass.old).opened.value) worker (news_of step.node kept) ∥₁) }
    ensures rest { IfErr result (λ rest. rest ≢ Rest.Asked) }
{
    let Ok(step) = closed_again(alloc, instance, step) else {
        lock.yield_turn(rt, pass, worker);
        return Err(Rest::End);
    };
    match lock.commit_turn(rt, pass, worker, step, share) {
        Ok(kept) => Ok(kept),
        Err(Left::Again) => Err(Rest::Again),
        Err(Left::End) => Err(Rest::End),
        // the step isn't closed by its price
        Err(Left::NotClosing(_)) => unreachable!(),
    }
}

/// Commits a step for the worker's node. Where by its price alone it would leave the node open, it is committed once more, closed by
/// the split or the settled plan that its cuts have.
fn commit_closing<B: Board, L: Begun, K: Taking<B, L>, R: Wait>(
    rt: &R,
    alloc: Global,
    instance: &Instance,
    lock: &K,
    pass: &mut K::Pass,
    worker: u32,
    step: StepPosts,
    share: &mut Share<L>,
) -> Result<Kept, Rest>
    requires pass { K.outside lock.now worker pass.old }
    requires knows { KnowsBoard B.seen instance.now worker (K.root pass.old) }
    requires worker { worker < 16 }
    requires fits { Fits instance.now step }
    requires part { 0 < share.old.parts }
    requires turns { 2 ≤ K.left pass.old }
    ensures pass { K.outside lock.now worker pass.new }
    ensures root { K.root pass.new ≡ K.root pass.old }
    ensures counted { OnOk result (share.new.amount ≡ share.old.amount + 1) }
    ensures uncounted { OnErr result (share.new.amount ≡ share.old.amount) }
    ensures within { OnOk result (share.new.amount < 2 ^ 63) }
    ensures parts { share.new.parts ≡ share.old.parts }
    ensures news { IfOk result (λ kept. ∥ IsNews (K.root pass.old).workers (B.seen (K.root pass.old).opened.value) worker (news_of step.node kept) ∥₁) }
    ensures rest { IfErr result (λ rest. rest ≢ Rest.Asked) }
{
    match lock.commit_turn(rt, pass, worker, step, share) {
        Ok(kept) => Ok(kept),
        Err(Left::Again) => Err(Rest::Again),
        Err(Left::End) => Err(Rest::End),
        Err(Left::NotClosing(step)) => {
            commit_again(rt, alloc, instance, lock, pass, worker, step, share)
        }
    }
}

/// Waits a while for other workers to split nodes.
fn wait_for_nodes<R: Wait>(rt: &R) {
    Parker::new().park_timeout(rt, Duration::from_micros(IDLE));
}

/// One round of a worker, and whether it goes on. Without turns for a whole round it begins none.
fn round<B: Board, L: Begun, K: Taking<B, L>, G: Gate, S: Stop, R: Wait>(
    rt: &R,
    alloc: Global,
    instance: &Instance,
    buffers: &mut Buffers,
    lock: &K,
    gate: &G,
    stop: &S,
    pass: &mut K::Pass,
    place: &mut Place<B, L>,
) -> bool
    requires pass { K.outside lock.now place.old.number pass.old }
    requires knows { KnowsBoard B.seen instance.now place.old.number (K.root pass.old) }
    requires buffers { buffers.old ≡ instance.now }
    ensures pass { K.outside lock.now place.old.number pass.new }
    ensures root { K.root pass.new ≡ K.root pass.old }
    ensures buffers { buffers.new ≡ buffers.old }
    ensures number { place.new.number ≡ place.old.number }
    ensures told { told place.old.seat.adviser < 2 ^ 63 + place.old.seat.told
        → told place.new.seat.adviser + place.old.seat.told ≡ told place.old.seat.adviser + place.new.seat.told }
    ensures last { IsToldLast (K.root pass.old).workers (B.seen (K.root pass.old).opened.value) place.old.number place.old.seat.told place.new.seat.told (last place.old.seat.adviser) (last place.new.seat.adviser) }
    ensures asked { place.new.asked ≡ true → place.old.asked ≡ false → S.can_ask stop.now ≡ true }
{
    if !lock.lasts(pass) {
        return false;
    }
    let Place {
        chair: _,
        seat,
        share,
        number,
        reader,
        steps,
        asked,
    } = place;
    let Work { node, ask, taken } = match lock.take_turn(rt, pass, *number, stop.is_asked()) {
        Ok(work) => work,
        Err(Rest::Again) => {
            wait_for_nodes(rt);
            return true;
        }
        Err(Rest::End) => return false,
        Err(Rest::Asked) => {
            *asked = true;
            return false;
        }
    };
    if taken {
        *steps = steps.saturating_add(1);
        gate.enter(*number, *steps);
    }
    let ask = with_newest(rt, reader, ask);
    let Ok(step) = decide(alloc, instance, buffers, seat, node, ask) else {
        lock.yield_turn(rt, pass, *number);
        return false;
    };
    match commit_closing(rt, alloc, instance, lock, pass, *number, step, share) {
        Ok(kept) => {
            seat.tell(node, kept);
            true
        }
        Err(Rest::Again) => true,
        Err(Rest::End) => false,
        // a commit takes nothing
        Err(Rest::Asked) => unreachable!(),
    }
}

/// Round after round, until there is nothing more to do or the worker sees that it is asked to stop.
fn rounds<B: Board, L: Begun, K: Taking<B, L>, G: Gate, S: Stop, R: Wait>(
    rt: &R,
    alloc: Global,
    instance: &Instance,
    lock: &K,
    gate: &G,
    stop: &S,
    pass: &mut K::Pass,
    place: &mut Place<B, L>,
)
    requires pass { K.outside lock.now place.old.number pass.old }
    requires knows { KnowsBoard B.seen instance.now place.old.number (K.root pass.old) }
    ensures pass { K.outside lock.now place.old.number pass.new }
    ensures root { K.root pass.new ≡ K.root pass.old }
    ensures number { place.new.number ≡ place.old.number }
    ensures told { told place.old.seat.adviser < 2 ^ 63 + place.old.seat.told
        → told place.new.seat.adviser + place.old.seat.told ≡ told place.old.seat.adviser + place.new.seat.told }
    ensures last { IsToldLast (K.root pass.old).workers (B.seen (K.root pass.old).opened.value) place.old.number place.old.seat.told place.new.seat.told (last place.old.seat.adviser) (last place.new.seat.adviser) }
    ensures asked { place.new.asked ≡ true → place.old.asked ≡ false → S.can_ask stop.now ≡ true }
{
    let mut buffers = Buffers::new(alloc, instance);
    for _ in rt.forever() {
        if !round(
            rt,
            alloc,
            instance,
            &mut buffers,
            lock,
            gate,
            stop,
            pass,
            place,
        ) {
            break;
        }
    }
}

/// Works until there is nothing more to do, or the worker sees that it is asked to stop. The seat at the lock lies at its place before and afterwards.
pub(crate) fn work<B: Board, L: Begun, K: Taking<B, L>, G: Gate, S: Stop, R: Wait>(
    rt: &R,
    alloc: Global,
    instance: &Instance,
    lock: &K,
    gate: &G,
    stop: &S,
    place: &mut Place<B, L>,
)
    requires { (root : BoardRoot B) × K.rests lock.now place.old.number root place.old.chair × KnowsBoard B.seen instance.now place.old.number root }
    ensures number { place.new.number ≡ place.old.number }
    ensures rests { (root : BoardRoot B) → K.rests lock.now place.old.number root place.old.chair → K.rests lock.now place.old.number root place.new.chair }
    ensures told { told place.old.seat.adviser < 2 ^ 63 + place.old.seat.told
        → told place.new.seat.adviser + place.old.seat.told ≡ told place.old.seat.adviser + place.new.seat.told }
    ensures last { (root : BoardRoot B) → K.rests lock.now place.old.number root place.old.chair
        → IsToldLast root.workers (B.seen root.opened.value) place.old.number place.old.seat.told place.new.seat.told (last place.old.seat.adviser) (last place.new.seat.adviser) }
    ensures asked { place.new.asked ≡ true → place.old.asked ≡ false → S.can_ask stop.now ≡ true }
{
    let mut pass = lock.sit(&mut place.chair);
    rounds(rt, alloc, instance, lock, gate, stop, &mut pass, place);
    lock.rise(pass, &mut place.chair);
}
