//! Writes to a sink.

ghost use Rattle.std.specs.Prelude.{length, OnOk, OnErr, IsErr};
ghost use Rattle.std.specs.Io.KnownBytes.{Appends};
ghost use Rattle.misp_outside.specs.Causes.{HasCause, StaysUnless};
ghost use Rattle.misp_outside.specs.Streams.{HasRoom};
ghost use Rattle.misp_http.specs.Streams.{AppendsSome};

use misp_outside::{Sink, SinkFault};

/// Writes all the bytes; after a fault some of them are written.
pub fn write_all<W: Sink>(sink: &mut W, bytes: &[u8]) -> Result<(), SinkFault>
    requires { HasRoom (W.space sink.old) (length bytes.now) }
    ensures ok { OnOk result (Appends (W.written sink.old) (W.written sink.new) bytes.now) }
    ensures err { OnErr result (AppendsSome (W.written sink.old) (W.written sink.new) bytes.now) }
    ensures cause { HasCause (W.faults sink.old) (W.faults sink.new) (IsErr result) }
    ensures stays { StaysUnless (W.faults sink.old) (W.faults sink.new) (IsErr result) }
{
    let mut rest = bytes;
    while !rest.is_empty() {
        let count = sink.write(rest)?;
        (_, rest) = rest.split_at(count);
    }
    Ok(())
}
