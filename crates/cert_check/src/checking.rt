//! The judgement on a whole certificate.

ghost use Rattle.std.specs.Prelude.{◌≡◌, ℕ, ◌≤◌, ◌∷◌, [], IsTrue, IfOk, IfErr, MatchResult, List, Some, None};
ghost use Rattle.std.specs.Option.{option_map};
ghost use Rattle.shift_instance.specs.declared.Duty.{Duty};
ghost use Rattle.shift_instance.specs.declared.Row.{Row};
ghost use Rattle.shift_instance.specs.Rota.{are_legal_rows, cost, is_legal_rota, rota_of};
ghost use Rattle.head_splits.specs.Nodes.{new_node};
ghost use Rattle.certificate.specs.Accepted.{is_accepted, nodes_of};
ghost use Rattle.cert_check.specs.Judged.{cause_of, line_cause, plan_cause, IsRefused};

use crate::batches::judge_lines_by;
use crate::judged::{Accepted, Refused};
use crate::judging::judge_lines;
use crate::tree::Tree;
use certificate::Cert;
use rota_cost::{legal_rows, recount};
use shift_instance::{Instance, Rows};
use std::alloc::Global;
use std::thread::Threads;

/// The cost of a plan whose rows are legal and cost what is claimed, by the claimed cost and the rows.
fn judge_rows(instance: &Instance, plan: &(u64, Rows)) -> Result<u64, Refused>
    ensures { MatchResult result (λ found. (plan_cause instance.now (Some plan.now) ≡ None) × (found ≡ plan.now.0)) (λ why. plan_cause instance.now (Some plan.now) ≡ Some why) }
{
    let claimed = plan.0;
    let rows = &plan.1;
    if let Err(fault) = legal_rows(instance, rows) {
        let row = fault.row();
        return Err(Refused::BadPlan { row });
    }
    let found = recount(instance, rows);
    if found != claimed {
        return Err(Refused::WrongCost { claimed, found });
    }
    Ok(found)
}

/// The cost of a plan whose rows are legal and cost what is claimed, and none where there is no plan.
fn judge_plan(instance: &Instance, plan: &Option<(u64, Rows)>) -> Result<Option<u64>, Refused>
    ensures { MatchResult result (λ found. (plan_cause instance.now plan.now ≡ None) × (found ≡ option_map (λ p. p.0) plan.now)) (λ why. plan_cause instance.now plan.now ≡ Some why) }
{
    match plan {
        Some(plan) => Ok(Some(judge_rows(instance, plan)?)),
        None => Ok(None),
    }
}

/// Judges the bound of a certificate by the nodes that its proof lines make, and then its rows and their cost.
fn judge_rest(instance: &Instance, cert: &Cert, tree: &Tree) -> Result<Accepted, Refused>
    requires good { nodes_of instance.now cert.now.lines ≡ Some tree.now }
    requires causes { line_cause instance.now (new_node [] ∷ []) 1 cert.now.lines ≡ None }
    ensures accepted { IfOk result (λ a. IsTrue (is_accepted instance.now cert.now)) }
    ensures causes { IfOk result (λ a. cause_of instance.now cert.now ≡ None) }
    ensures cost { IfOk result (λ a. a.cost ≡ option_map (λ p. p.0) cert.now.plan) }
    ensures bound { IfOk result (λ a. a.bound ≡ cert.now.bound) }
    ensures refused { IfErr result (IsRefused instance.now cert.now) }
    ensures enough { IfOk result (λ a. (rota : List Duty) → IsTrue (is_legal_rota instance.now rota) → a.bound ≤ cost instance.now rota) }
    ensures plan { IfOk result (λ a. (claimed : ℕ) (rows : List Row) → cert.now.plan ≡ Some (claimed, rows) → IsTrue (are_legal_rows instance.now rows) × (cost instance.now (rota_of rows) ≡ claimed)) }
{
    let found = tree.least_floor();
    if found < cert.bound {
        return Err(Refused::BoundTooHigh {
            claimed: cert.bound,
            found,
        });
    }
    let cost = judge_plan(instance, &cert.plan)?;
    Ok(Accepted {
        cost,
        bound: cert.bound,
    })
}

/// Judges a certificate for an instance: its proof lines one after another, then its bound by what they find, and then its rows
/// and their cost. An accepted certificate's bound holds of every legal rota, and its rows are legal and cost what it claims.
///
/// A line may split a node that isn't open any more, and by a class that no legal duty is in: that is a proof all the same.
///
/// [`Refused`] says why a certificate isn't accepted, each cause in its order. `NoMemory` comes only where it was out of memory.
pub fn check(alloc: Global, instance: &Instance, cert: &Cert) -> Result<Accepted, Refused>
    ensures accepted { IfOk result (λ a. IsTrue (is_accepted instance.now cert.now)) }
    ensures causes { IfOk result (λ a. cause_of instance.now cert.now ≡ None) }
    ensures cost { IfOk result (λ a. a.cost ≡ option_map (λ p. p.0) cert.now.plan) }
    ensures bound { IfOk result (λ a. a.bound ≡ cert.now.bound) }
    ensures refused { IfErr result (IsRefused instance.now cert.now) }
    ensures enough { IfOk result (λ a. (rota : List Duty) → IsTrue (is_legal_rota instance.now rota) → a.bound ≤ cost instance.now rota) }
    ensures plan { IfOk result (λ a. (claimed : ℕ) (rows : List Row) → cert.now.plan ≡ Some (claimed, rows) → IsTrue (are_legal_rows instance.now rows) × (cost instance.now (rota_of rows) ≡ claimed)) }
{
    let tree = judge_lines(alloc, instance, &cert.lines)?;
    judge_rest(instance, cert, &tree)
}

/// Judges a certificate for an instance as [`check`] does. Up to `workers` workers find at the same time which floors the proof lines
/// give, a batch of the lines after another; their number doesn't change the answer. A refusal is the first cause in its order,
/// whatever a worker found in the lines behind it.
pub fn check_by<R: Threads + Sync>(
    rt: &R,
    alloc: Global,
    instance: &Instance,
    cert: &Cert,
    workers: u32,
) -> Result<Accepted, Refused>
    requires { 1 ≤ workers }
    ensures accepted { IfOk result (λ a. IsTrue (is_accepted instance.now cert.now)) }
    ensures causes { IfOk result (λ a. cause_of instance.now cert.now ≡ None) }
    ensures cost { IfOk result (λ a. a.cost ≡ option_map (λ p. p.0) cert.now.plan) }
    ensures bound { IfOk result (λ a. a.bound ≡ cert.now.bound) }
    ensures refused { IfErr result (IsRefused instance.now cert.now) }
    ensures enough { IfOk result (λ a. (rota : List Duty) → IsTrue (is_legal_rota instance.now rota) → a.bound ≤ cost instance.now rota) }
    ensures plan { IfOk result (λ a. (claimed : ℕ) (rows : List Row) → cert.now.plan ≡ Some (claimed, rows) → IsTrue (are_legal_rows instance.now rows) × (cost instance.now (rota_of rows) ≡ claimed)) }
{
    let tree = judge_lines_by(rt, alloc, instance, &cert.lines, workers)?;
    judge_rest(instance, cert, &tree)
}
