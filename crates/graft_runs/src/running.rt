//! The run of `graft_run`.
ghost use Rattle.std.specs.Prelude.{false, ◌≡◌, ◌⊎◌, ◌≤◌, ◌^◌, IfErr, IfOk, length, map, string_bytes};
ghost use Rattle.check_runs.specs.Check.{IsReportOf};
ghost use Rattle.graft_runs.specs.Complete.{CanWrite};
ghost use Rattle.graft_runs.specs.Runs.{EndsOver, Explains, IsFaultOf, Writes};
ghost use Rattle.graft_runs.specs.Running.{EndsWith, Told};
ghost use Rattle.graft_runs.specs.Status.{EndsEarly, EndsUnwritten};
ghost use Rattle.graft_runs.specs.Words.{most_steps, steps_of};

use crate::below::{grown_text, grown_text_by};
use crate::breaks::breaks_text;
use crate::nodes::nodes_text;
use crate::reading::read_report;
use crate::refusals::refusal_line;
use crate::status::GraftStatus;
use crate::words::{Budget, Command, request_of};
use advice::{Adviser, Never, Stop};
use advisers::Greedy;
use certificate::Cert;
use instance_input::{Unread, read_instance};
use plan_base::{Failed, Sink, Source, write_all};
use report_grafts::GraftFault;
use shift_instance::Instance;
use std::alloc::Global;

/// Writes bytes, and says how the run ends: in this way where they were written.
fn tell<K: Sink>(out: &mut K, bytes: &[u8], written: GraftStatus) -> GraftStatus
    ensures { Told bytes.now written (K.held out.old, K.held out.new) (K.faults out.old, K.faults out.new) result }
{
    match write_all(out, bytes) {
        Err(Failed) => GraftStatus::WriteFault,
        Ok(()) => written,
    }
}

/// The most steps of a budget: a time leaves as many as there may be.
fn most_steps(budget: Budget) -> u64
    ensures { result ≡ most_steps budget }
{
    match budget {
        Budget::Steps(steps) => steps,
        Budget::Seconds(_) => 1_000_000_000,
    }
}

/// What a command writes for a report, a thorough search by that adviser and with that stop.
fn text_for<A: Adviser, P: Stop>(
    alloc: Global,
    command: Command,
    instance: &Instance,
    whole: &Cert,
    thorough: &mut A,
    stop: &P,
) -> Result<Vec<u8>, GraftFault>
    requires few { length whole.now.lines ≤ 2 ^ 28 }
    requires steps { steps_of command ≤ 10 ^ 9 }
    ensures text { IfOk result (λ text. Writes (P.can_ask stop.now) command instance.now whole.now text.items) }
    ensures fault { IfErr result (IsFaultOf command instance.now whole.now) }
{
    match command {
        Command::Below { node, steps } => grown_text(alloc, instance, whole, node, steps),
        Command::Thorough { node, budget } => {
            let steps = most_steps(budget);
            grown_text_by(alloc, instance, whole, node, steps, thorough, stop)
        }
        Command::Breaks { steps } => breaks_text(alloc, instance, whole, steps),
        Command::Nodes { most } => nodes_text(alloc, instance, whole, most),
    }
}

/// Writes what a command writes for a report, or why there is nothing to write.
fn run_over<K: Sink, A: Adviser, P: Stop>(
    alloc: Global,
    command: Command,
    instance: &Instance,
    whole: &Cert,
    out: &mut K,
    thorough: &mut A,
    stop: &P,
) -> GraftStatus
    requires few { length whole.now.lines ≤ 2 ^ 28 }
    requires steps { steps_of command ≤ 10 ^ 9 }
    ensures status { EndsWith (P.can_ask stop.now) command instance.now whole.now (record { held = K.held out.old; held_after = K.held out.new; faults = (K.faults out.old, K.faults out.new) }) result }
    ensures unwritten { EndsUnwritten result → out.new ≡ out.old }
{
    match text_for(alloc, command, instance, whole, thorough, stop) {
        Ok(text) => tell(out, text.as_slice(), GraftStatus::Written),
        Err(fault) => match refusal_line(alloc, fault) {
            Ok(line) => tell(out, line.as_bytes(), GraftStatus::Refused(fault)),
            Err(_) => GraftStatus::NoMemory,
        },
    }
}

/// Reads the report, and does with it what the command says.
fn run_report<T: Source, K: Sink, A: Adviser, P: Stop>(
    alloc: Global,
    command: Command,
    instance: &Instance,
    bundle: &mut T,
    out: &mut K,
    thorough: &mut A,
    stop: &P,
) -> GraftStatus
    requires steps { steps_of command ≤ 10 ^ 9 }
    ensures status { EndsOver (P.can_ask stop.now) command instance.now
        (record { left = T.left bundle.old; faults = (T.faults bundle.old, T.faults bundle.new) })
        (record { held = K.held out.old; held_after = K.held out.new; faults = (K.faults out.old, K.faults out.new) })
        result }
    ensures unwritten { EndsUnwritten result → out.new ≡ out.old }
{
    match read_report(alloc, bundle) {
        Ok(whole) => run_over(alloc, command, instance, &whole, out, thorough, stop),
        Err(status) => status,
    }
}

/// The run of `below INSTANCE REPORT NODE STEPS`, with `--thorough` or not, of `below INSTANCE REPORT NODE --seconds T --thorough`, of
/// `breaks INSTANCE REPORT STEPS`, or of `nodes INSTANCE REPORT N`: reads the instance document and then the report to their ends, and writes to `out`.
///
/// `below` searches below a node of the report, in at most STEPS steps, for rotas that are cheaper than the report's plan, and writes the
/// report into which what it found is grafted. The checker accepts it, and its bound is at least the report's. With `--thorough` it asks
/// the adviser that is handed in, and ends early where the stop asks; how long T seconds are the stop alone knows. `breaks` searches below
/// the cuts by which each shift has on each day as many duties as in the report's rows, and writes the line `breaks optimal cost C bound L`
/// or `breaks stopped cost C bound L`, the rows of cost C, and `end`: no rota with so many duties of each shift on each day costs less
/// than L, and under `optimal` none is cheaper than these rows. `nodes` writes a line `node NODE floor FLOOR cuts CUTS` for each of the
/// first N open nodes of the report: those that aren't split and whose floor is below what its plan costs, by floor and then by number.
///
/// The status is `Written`, or `Refused` where the line `graft refused K` with its numbers was written: 1 where the checker refuses the
/// report, with its own numbers, 2 where it has no such node, 3 where that node is split, and 5 where it has no rows. `Usage`, `Input`,
/// `Bundle`, `ReadFault`, `WriteFault` and `NoMemory` come as in a run of `shift_check`.
pub fn graft_top_by<S: Source, T: Source, K: Sink, A: Adviser, P: Stop>(
    alloc: Global,
    words: &[String],
    instance: &mut S,
    bundle: &mut T,
    out: &mut K,
    thorough: &mut A,
    stop: &P,
) -> GraftStatus
    ensures status { Explains (P.can_ask stop.now)
        (record {
          words = map string_bytes words.now;
          document = record { left = S.left instance.old; faults = (S.faults instance.old, S.faults instance.new) };
          report = record { left = T.left bundle.old; faults = (T.faults bundle.old, T.faults bundle.new) };
          sink = record { held = K.held out.old; held_after = K.held out.new; faults = (K.faults out.old, K.faults out.new) };
        })
        result }
    // What can be written is.
    ensures complete { CanWrite
        (record {
          words = map string_bytes words.now;
          document = record { left = S.left instance.old; faults = (S.faults instance.old, S.faults instance.new) };
          report = record { left = T.left bundle.old; faults = (T.faults bundle.old, T.faults bundle.new) };
          sink = record { held = K.held out.old; held_after = K.held out.new; faults = (K.faults out.old, K.faults out.new) };
        })
        → (result ≡ GraftStatus.Written) ⊎ (result ≡ GraftStatus.NoMemory) }
    ensures unread { result ≡ GraftStatus.Usage → instance.new ≡ instance.old }
    ensures untouched { EndsEarly result → bundle.new ≡ bundle.old }
    ensures unwritten { EndsUnwritten result → out.new ≡ out.old }
{
    let command = match request_of(words) {
        Some(request) => request.command,
        None => return GraftStatus::Usage,
    };
    match read_instance(alloc, instance) {
        Ok(instance) => run_report(alloc, command, &instance, bundle, out, thorough, stop),
        Err(Unread::Refused(why)) => GraftStatus::Input(why),
        Err(Unread::ReadFault) => GraftStatus::ReadFault,
        Err(Unread::NoMemory) => GraftStatus::NoMemory,
    }
}

/// The run of the same words as [`graft_top_by`], in which a thorough search has no other adviser than the greedy one, and isn't asked to
/// stop.
pub fn graft_top<S: Source, T: Source, K: Sink>(
    alloc: Global,
    words: &[String],
    instance: &mut S,
    bundle: &mut T,
    out: &mut K,
) -> GraftStatus
    ensures status { Explains false
        (record {
          words = map string_bytes words.now;
          document = record { left = S.left instance.old; faults = (S.faults instance.old, S.faults instance.new) };
          report = record { left = T.left bundle.old; faults = (T.faults bundle.old, T.faults bundle.new) };
          sink = record { held = K.held out.old; held_after = K.held out.new; faults = (K.faults out.old, K.faults out.new) };
        })
        result }
    // What can be written is.
    ensures complete { CanWrite
        (record {
          words = map string_bytes words.now;
          document = record { left = S.left instance.old; faults = (S.faults instance.old, S.faults instance.new) };
          report = record { left = T.left bundle.old; faults = (T.faults bundle.old, T.faults bundle.new) };
          sink = record { held = K.held out.old; held_after = K.held out.new; faults = (K.faults out.old, K.faults out.new) };
        })
        → (result ≡ GraftStatus.Written) ⊎ (result ≡ GraftStatus.NoMemory) }
    ensures unread { result ≡ GraftStatus.Usage → instance.new ≡ instance.old }
    ensures untouched { EndsEarly result → bundle.new ≡ bundle.old }
    ensures unwritten { EndsUnwritten result → out.new ≡ out.old }
{
    let mut greedy = Greedy::of_first(alloc);
    graft_top_by(alloc, words, instance, bundle, out, &mut greedy, &Never)
}
