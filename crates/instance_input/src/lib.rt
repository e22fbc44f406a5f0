//! An instance, read as a document from a source to its end.
#![tactic(auto)]

ghost use Rattle.std.specs.Prelude.{◌≡◌, ◌≤◌, IfOk, IfErr, OnOk};
ghost use Rattle.std.specs.Io.KnownBytes.{IsAtEnd};
ghost use Rattle.plan_base.specs.Causes.{Rose};
ghost use Rattle.instance_input.specs.Unread.{IsReadAs, WhyUnread};

use instance_json::{INSTANCE_MAX, ReadRefusal, read};
use plan_base::{ReadEnd, Source, read_all};
use shift_instance::Instance;
use std::alloc::Global;

/// Why no instance came of a source.
#[derive(Drop)]
pub enum Unread {
    /// The document is refused. Never holds `NoMemory`.
    Refused(ReadRefusal),
    /// A read of the source failed.
    ReadFault,
    /// No memory was left.
    NoMemory,
}

/// The instance of the document that a source gives up to its end.
///
/// `Refused` comes exactly where the bytes are refused as a document, `ReadFault` only where a fault of the source was
/// counted. `NoMemory` may come at any point.
pub fn read_instance<S: Source>(alloc: Global, input: &mut S) -> Result<Instance, Unread>
    ensures ok { IfOk result (IsReadAs (S.left input.old)) }
    ensures end { OnOk result (IsAtEnd (S.left input.new)) }
    ensures err { IfErr result (WhyUnread (S.left input.old) (S.faults input.old) (S.faults input.new)) }
    ensures faults { S.faults input.old ≤ S.faults input.new }
{
    let bytes = match read_all(alloc, input, INSTANCE_MAX) {
        Ok(bytes) => bytes,
        Err(ReadEnd::ReadFault) => return Err(Unread::ReadFault),
        Err(ReadEnd::TooLong) => return Err(Unread::Refused(ReadRefusal::TooLong)),
        Err(ReadEnd::NoMemory) => return Err(Unread::NoMemory),
    };
    match read(alloc, bytes.as_slice()) {
        Ok(instance) => Ok(instance),
        Err(ReadRefusal::NoMemory) => Err(Unread::NoMemory),
        Err(why) => Err(Unread::Refused(why)),
    }
}
