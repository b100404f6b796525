//! Writing all of a text to a sink.

ghost use Rattle.std.specs.Prelude.{◌≡◌, ◌<◌, length, OnOk, OnErr, IfErr};
ghost use Rattle.dur_outside.specs.Causes.{HasCause};
ghost use Rattle.dur_rerun.specs.Saying.{IsSaid, wrote};

use crate::Status;
use dur_outside::{Failed, Sink};

/// Writes all of `text`, or a front of it and then `Failed`, which comes only where the sink's count
/// of faults rose.
pub fn say<K: Sink>(sink: &mut K, text: &[u8]) -> Result<(), Failed>
    ensures all { K.tells → OnOk result ((K.world sink.new).now ≡ wrote text.now (K.world sink.old).now) }
    ensures some { K.tells → IsSaid text.now (K.world sink.old).now (K.world sink.new).now }
    ensures more { OnErr result (0 < length text.now) }
    ensures cause { HasCause (K.sink_faults sink.old) (K.sink_faults sink.new) result }
    ensures keeps { K.disk_faults sink.new ≡ K.disk_faults sink.old }
{
    let mut rest = text;
    while !rest.is_empty() {
        let count = sink.write(rest)?;
        rest = rest.split_at(count).1;
    }
    Ok(())
}

/// Writes all of `text` to the output of a run, or a front of it and then `WriteFault`, as `say` does.
pub fn print<K: Sink>(sink: &mut K, text: &[u8]) -> Result<(), Status>
    ensures all { K.tells → OnOk result ((K.world sink.new).now ≡ wrote text.now (K.world sink.old).now) }
    ensures some { K.tells → IsSaid text.now (K.world sink.old).now (K.world sink.new).now }
    ensures more { OnErr result (0 < length text.now) }
    ensures fault { IfErr result (λ s. s ≡ Status.WriteFault) }
    ensures cause { HasCause (K.sink_faults sink.old) (K.sink_faults sink.new) result }
    ensures keeps { K.disk_faults sink.new ≡ K.disk_faults sink.old }
{
    match say(sink, text) {
        Ok(()) => Ok(()),
        Err(Failed) => Err(Status::WriteFault),
    }
}
