// All of a list of bytes into a sink.
ghost use Rattle.std.specs.Prelude.{OnOk, OnErr};
ghost use Rattle.std.specs.Io.KnownBytes.{Appends};
ghost use Rattle.plan_base.specs.Causes.{CountsFaults};
ghost use Rattle.plan_base.specs.Streams.{AppendsPart};

use crate::{Failed, Sink};

/// Writes all the bytes, in order. `Failed` comes only where a write failed; then the sink has taken the first of
/// them, and not all. Each write takes a byte or is the last one.
pub fn write_all<K: Sink>(sink: &mut K, bytes: &[u8]) -> Result<(), Failed>
    ensures written { OnOk result (Appends (K.held sink.old) (K.held sink.new) bytes.now) }
    ensures part { OnErr result (AppendsPart (K.held sink.old) (K.held sink.new) bytes.now) }
    ensures cause { CountsFaults (K.faults sink.old) (K.faults sink.new) result }
{
    let mut done = 0;
    'pieces: while done < bytes.len() {
        done += sink.write(&bytes[done..])?;
    }
    Ok(())
}
