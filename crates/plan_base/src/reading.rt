// All that a source has left.
ghost use Rattle.std.specs.Prelude.{◌≡◌, ◌+◌, ◌<◌, ◌≤◌, length, IfOk, IfSome, OnOk, OnErr, IsErrOf};
ghost use Rattle.std.specs.Io.KnownBytes.{IsAtEnd};
ghost use Rattle.plan_base.specs.Causes.{Rose};
ghost use Rattle.plan_base.specs.Streams.{LosesFront};
ghost use Rattle.plan_base.specs.declared.reading.ReadEnd.TheVariants.{ReadFault, NoMemory};

use crate::{Failed, Source};
use std::alloc::{AllocError, Global};
use thiserror::Error;

// How many bytes one read asks for.
const PIECE: usize = 16384;

/// Why not all was read.
#[derive(Clone, Copy, Debug, PartialEq, Eq, Error)]
pub enum ReadEnd {
    /// A read failed.
    #[error("a read failed")]
    ReadFault,
    /// There are more bytes than the limit.
    #[error("there are too many bytes")]
    TooLong,
    /// There is no memory for the bytes.
    #[error("out of memory")]
    NoMemory,
}

impl From<Failed> for ReadEnd {
    ghost from_gives = { λ _ end. end ≡ ReadFault };

    fn from(_: Failed) -> Self {
        ReadEnd::ReadFault
    }
}

impl From<AllocError> for ReadEnd {
    ghost from_gives = { λ _ end. end ≡ NoMemory };

    fn from(_: AllocError) -> Self {
        ReadEnd::NoMemory
    }
}

// A buffer of this many bytes.
fn buffer(alloc: Global, count: usize) -> Result<Vec<u8>, AllocError>
    ensures { IfOk result (λ bytes. length bytes.items ≡ count) }
{
    vec![in alloc; 0u8; count]
}

/// All the bytes that a source has left, in order, read to its end, if they are at most `limit`.
///
/// `ReadFault` comes only where a read failed, `TooLong` where more than `limit` bytes were read, `NoMemory` where
/// there was no memory for them. Each read takes a byte or is the last one. After an error the source has lost
/// what was read.
pub fn read_all<S: Source>(alloc: Global, source: &mut S, limit: usize) -> Result<Vec<u8>, ReadEnd>
    ensures all { IfOk result (λ bytes. IfSome (S.left source.old) (λ left. bytes.items ≡ left)) }
    ensures end { OnOk result (IsAtEnd (S.left source.new)) }
    ensures within { IfOk result (λ bytes. length bytes.items ≤ limit) }

    ensures too_long { IsErrOf result ReadEnd.TooLong → IfSome (S.left source.old) (λ left. limit < length left) }
    ensures read_fault { IsErrOf result ReadEnd.ReadFault → Rose (S.faults source.old) (S.faults source.new) }
    ensures faults { S.faults source.old ≤ S.faults source.new }

    ensures rest { OnErr result (LosesFront (S.left source.old) (S.left source.new)) }
    ensures few_reads { S.calls source.new ≤ S.calls source.old + limit + 1 }
{
    let mut room = buffer(alloc, PIECE)?;
    let piece: &mut [u8] = &mut room;
    let mut bytes = Vec::new(alloc);
    'turns: loop {
        let count = source.read(piece)?;
        if count == 0 {
            return Ok(bytes);
        }
        if count > limit - bytes.len() {
            return Err(ReadEnd::TooLong);
        }
        bytes.extend_from_slice(&piece[..count])?;
    }
}
