//! Which of some posts isn't taken.
use crate::StepFault;

/// A post that isn't taken, by its place from 0 on, and why.
#[derive(Drop)]
pub struct Refusal {
    pub at: u64,
    pub why: StepFault,
}
