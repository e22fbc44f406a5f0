//! Why bytes aren't read as posts.
ghost use Rattle.std.specs.Prelude.{◌≡◌};
ghost use Rattle.post_codec.specs.declared.fault.Stop.TheVariants.{Memory};

use std::alloc::{AllocError, AllocFailed};
use std::error::Error;
use std::fmt;

/// Why bytes aren't read as posts.
#[derive(Clone, Copy, Debug, PartialEq, Eq, Drop)]
pub enum CodecFault {
    /// The bytes spell no posts: `at` is the offset, in bytes from 0 on, of the first field that isn't whole, of the first tag
    /// of no kind of post, or of the first byte after the last post, whichever comes first.
    Departs { at: u64 },
    /// No memory was left.
    NoMemory,
}

impl fmt::Display for CodecFault {
    ghost use Rattle.std.specs.Prelude.{Some};
    ghost use Rattle.post_codec.specs.FaultText.{codec_fault_text};

    ghost output = { λ e. Some (codec_fault_text e) };

    /// Writes the offset.
    fn fmt<W: fmt::Write>(&self, f: &mut fmt::Formatter<W>) -> fmt::Result {
        match self {
            CodecFault::Departs { at } => write!(f, "{at}"),
            CodecFault::NoMemory => f.write_str("no memory"),
        }
    }
}

impl Error for CodecFault {}

/// Why a reader of bytes stopped before it had a value.
#[derive(Drop)]
pub enum Stop {
    /// No memory was left.
    Memory,
    /// The fault is where that many bytes are left.
    Left(usize),
}

impl From<AllocError> for Stop {
    ghost from_gives = { λ _ e. e ≡ Memory };

    fn from(_e: AllocError) -> Stop {
        Stop::Memory
    }
}

impl<T: Drop> From<AllocFailed<T>> for Stop {
    ghost from_gives = { λ _ e. e ≡ Memory };

    fn from(_e: AllocFailed<T>) -> Stop {
        Stop::Memory
    }
}
