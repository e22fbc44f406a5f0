//! Why records make no state.
ghost use Rattle.std.specs.Prelude.{◌≡◌};

use post_codec::CodecFault;
use search_core::{Refusal, StepFault};
use std::alloc::AllocError;
use std::error::Error;
use std::fmt;

/// Why a record is rejected.
#[derive(Debug, Drop)]
pub enum Why {
    /// It spells no posts.
    Codec(CodecFault),
    /// Its post of that number, from 0 on, is the first one that isn't allowed.
    Step { post: u64, fault: StepFault },
}

impl fmt::Display for Why {
    ghost use Rattle.std.specs.Prelude.{Some};
    ghost use Rattle.recovery.specs.FaultText.{why_text};

    ghost output = { λ why. Some (why_text why) };

    /// Writes `1` and the offset at which bytes depart from every spelling, or `2`, the post's number and its refusal, separated
    /// by spaces.
    fn fmt<W: fmt::Write>(&self, f: &mut fmt::Formatter<W>) -> fmt::Result {
        match self {
            Why::Codec(fault) => write!(f, "1 {fault}"),
            Why::Step { post, fault } => write!(f, "2 {post} {fault}"),
        }
    }
}

impl Error for Why {}

impl From<CodecFault> for Why {
    ghost use Rattle.recovery.specs.declared.fault.Why.TheVariants.{Codec};

    ghost from_gives = { λ fault why. why ≡ Codec fault };

    fn from(fault: CodecFault) -> Why {
        Why::Codec(fault)
    }
}

impl From<Refusal> for Why {
    ghost use Rattle.recovery.specs.declared.fault.Why.TheVariants.{Step};

    ghost from_gives = { λ refusal why. why ≡ Step refusal.at refusal.why };

    fn from(refusal: Refusal) -> Why {
        let Refusal { at, why } = refusal;
        Why::Step {
            post: at,
            fault: why,
        }
    }
}

/// Why records make no state.
#[derive(Debug, Drop)]
pub enum RebuildFault {
    /// The record of that number, from 0 on, is the first that spells no posts or has a post that isn't allowed.
    Rejected { at_record: u64, why: Why },
    /// No memory was left.
    NoMemory,
}

impl fmt::Display for RebuildFault {
    ghost use Rattle.std.specs.Prelude.{Some};
    ghost use Rattle.recovery.specs.FaultText.{rebuild_fault_text};

    ghost output = { λ fault. Some (rebuild_fault_text fault) };

    /// Writes the number of the record, a space and why it is rejected.
    fn fmt<W: fmt::Write>(&self, f: &mut fmt::Formatter<W>) -> fmt::Result {
        match self {
            RebuildFault::Rejected { at_record, why } => write!(f, "{at_record} {why}"),
            RebuildFault::NoMemory => f.write_str("no memory"),
        }
    }
}

impl Error for RebuildFault {}

impl From<AllocError> for RebuildFault {
    ghost use Rattle.recovery.specs.declared.fault.RebuildFault.TheVariants.{NoMemory};

    ghost from_gives = { λ _ e. e ≡ NoMemory };

    fn from(_e: AllocError) -> RebuildFault {
        RebuildFault::NoMemory
    }
}
