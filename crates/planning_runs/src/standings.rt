//! How a plan stands, in words.

use certificate::{Cert, CertStatus};
use planning_words::gap_of;
use shift_instance::Instance;
use std::alloc::{AllocError, Global};

/// How a plan of a cost stands, in words.
pub fn standing(alloc: Global, cert: &Cert, cost: u64) -> Result<String, AllocError> {
    let bound = cert.bound;
    if cert.status == CertStatus::Optimal {
        return format!(in alloc;
            "This plan is a best one: it costs {cost}, and no legal plan costs less."
        );
    }
    let gap = gap_of(cost, bound);
    let whole = gap / 10;
    let tenths = gap % 10;
    format!(in alloc;
        "The search was stopped: this plan costs {cost}, and no legal plan costs less than {bound} (gap {whole}.{tenths} %)."
    )
}

/// The greatest need of a slot.
fn greatest_need(instance: &Instance) -> u32 {
    let mut greatest = 0;
    for t in 0..instance.slots() {
        greatest = instance.need(t).max(greatest);
    }
    greatest
}

/// What is said of a plan without duties.
pub fn why_empty(instance: &Instance) -> &'static str {
    let (_, shortage, shift) = instance.weights();
    if greatest_need(instance) == 0 {
        "The plan has no duty, since nobody is wanted."
    } else if shortage == 0 {
        "The plan has no duty, since employees too few cost nothing: give shortage a weight."
    } else if shift == 0 {
        "The plan has no duty: none was found that ends more shortage than it brings excess."
    } else {
        "The plan has no duty: no shift was found that ends as much shortage as it costs. Raise shortage, or lower shift."
    }
}
