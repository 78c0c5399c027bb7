//! Tells what is wrong with a description.

ghost use Rattle.std.specs.Prelude.{◌≡◌, IfOk, string_bytes};
ghost use Rattle.misp_outside.specs.Causes.{Rose};
ghost use Rattle.misp_app.specs.Status.{IsSilent, TellsFault, Writes, Wrote};
ghost use Rattle.misp_app.specs.Ends.{IsPutEnd, IsFaultEnd};
ghost use Rattle.misp_app.specs.Streams.{fault_line};

use crate::Status;
use misp_http::write_all;
use misp_outside::Sink;
use misp_script::DescNeed;
use std::alloc::{AllocError, Global};

/// Writes all the bytes, after there is room for them.
pub(crate) fn put<W: Sink>(sink: &mut W, bytes: &[u8]) -> Status
    ensures wrote { Writes result →
        Wrote result (W.written sink.old) (W.written sink.new) bytes.now }
    ensures write { result ≡ Status.WriteFault → Rose (W.faults sink.old) (W.faults sink.new) }
    ensures silent { IsSilent result → W.written sink.new ≡ W.written sink.old }
    ensures ends { IsPutEnd result }
{
    let Ok(()) = sink.room(bytes.len()) else {
        return Status::OutOfMemory;
    };
    match write_all(sink, bytes) {
        Ok(()) => Status::Done,
        Err(_) => Status::WriteFault,
    }
}

fn fault_line(alloc: Global, path: &str, need: DescNeed) -> Result<String, AllocError>
    ensures { IfOk result (λ line. string_bytes line ≡ fault_line path.now need) }
{
    let mut line = String::from_str(alloc, "bad description: ")?;
    line.push_str(path)?;
    line.push_str(" ")?;
    line.push_str(need.text())?;
    line.push_str("\n")?;
    Ok(line)
}

/// Writes the line of a fault, and answers how the run ends.
pub(crate) fn tell_fault<W: Sink>(alloc: Global, sink: &mut W, path: &str, need: DescNeed) -> Status
    ensures told { TellsFault result →
        Wrote result (W.written sink.old) (W.written sink.new) (fault_line path.now need) }
    ensures write { result ≡ Status.WriteFault → Rose (W.faults sink.old) (W.faults sink.new) }
    ensures silent { IsSilent result → W.written sink.new ≡ W.written sink.old }
    ensures ends { IsFaultEnd result }
{
    let Ok(line) = fault_line(alloc, path, need) else {
        return Status::OutOfMemory;
    };
    match put(sink, line.as_bytes()) {
        Status::Done => Status::BadDescription,
        status => status,
    }
}
