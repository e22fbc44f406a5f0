//! What the files that the words name hold.

use planning_runs::{JudgedPlan, PlanRefusal, judged_plan, read_document, read_report};
use shift_instance::Instance;
use std::alloc::{AllocError, Global};

/// A document with its instance.
#[derive(Drop)]
pub struct Read {
    /// The bytes of the document.
    pub document: Vec<u8>,
    /// Its instance.
    pub instance: Instance,
}

/// The instance of a document.
fn instance_in(alloc: Global, document: &[u8]) -> Result<Instance, PlanRefusal> {
    match instance_json::read(alloc, document) {
        Ok(instance) => Ok(instance),
        Err(why) => Err(PlanRefusal::document(alloc, document, &why)),
    }
}

/// The document in a file, with its instance.
pub fn read_instance(rt: HostRuntime, path: &str) -> Result<Read, PlanRefusal> {
    let document = read_document(rt, path)?;
    let instance = instance_in(rt.alloc(), document.as_slice())?;
    Ok(Read { document, instance })
}

/// The canonical text of the instance of a document in a file.
pub(crate) fn canonical_in(rt: HostRuntime, path: &str) -> Result<Vec<u8>, PlanRefusal> {
    let read = read_instance(rt, path)?;
    canonical_of(rt.alloc(), &read.instance)
}

/// The canonical text of an instance.
fn canonical_of(alloc: Global, instance: &Instance) -> Result<Vec<u8>, PlanRefusal> {
    Ok(instance_json::canonical(alloc, instance)?)
}

/// The same instance once more.
pub(crate) fn copy_of(alloc: Global, instance: &Instance) -> Result<Instance, PlanRefusal> {
    let canonical = canonical_of(alloc, instance)?;
    instance_in(alloc, canonical.as_slice())
}

/// The plan that a report shows for the instance of a document.
pub fn judged(alloc: Global, document: &[u8], report: Vec<u8>) -> Result<JudgedPlan, PlanRefusal> {
    match judged_plan(alloc, document, report) {
        Ok(plan) => Ok(plan),
        Err(why) => Err(PlanRefusal::unshown(alloc, document, &why)),
    }
}

/// The plan that the report in a file shows for the instance of a document.
pub fn plan_for(rt: HostRuntime, document: &[u8], report: &str) -> Result<JudgedPlan, PlanRefusal> {
    let report = read_report(rt, report)?;
    judged(rt.alloc(), document, report)
}

/// The plan that a report shows for the instance of a document, both in files.
pub fn plan_in(rt: HostRuntime, instance: &str, report: &str) -> Result<JudgedPlan, PlanRefusal> {
    let document = read_document(rt, instance)?;
    plan_for(rt, document.as_slice(), report)
}
