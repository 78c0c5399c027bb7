//! Checks the description of a source.

ghost use Rattle.std.specs.Prelude.{◌≡◌, IfOk};
ghost use Rattle.misp_outside.specs.Causes.{Rose};
ghost use Rattle.std.specs.Io.KnownBytes.{Appends};
ghost use Rattle.misp_words.specs.Words.{Check};
ghost use Rattle.misp_app.specs.Checking.{ok_line};
ghost use Rattle.misp_app.specs.Source.{described, described_status, IsTold};
ghost use Rattle.misp_app.specs.Status.{EndsAs, IsSilent, TellsFault, Wrote};
ghost use Rattle.misp_app.specs.Ends.{IsSourceEnd};

use crate::Status;
use crate::fault::{put, tell_fault};
use misp_outside::Sink;
use misp_script::{DescFault, read_description, split_source};
use std::alloc::Global;

/// Writes whether the description of a source has a fault, and which.
pub(crate) fn check_source<W: Sink>(alloc: Global, bytes: &[u8], sink: &mut W) -> Status
    ensures status { EndsAs result Check (described_status (described bytes.now)) }
    ensures write { result ≡ Status.WriteFault → Rose (W.faults sink.old) (W.faults sink.new) }
    ensures silent { IsSilent result → W.written sink.new ≡ W.written sink.old }
    ensures ends { IsSourceEnd result }
    ensures done { result ≡ Status.Done →
        Appends (W.written sink.old) (W.written sink.new) ok_line }
    ensures partly { result ≡ Status.WriteFault → IfOk (described bytes.now)
        (λ _. Wrote result (W.written sink.old) (W.written sink.new) ok_line) }
    ensures told { TellsFault result → IsTold (described bytes.now)
        (Wrote result (W.written sink.old) (W.written sink.new)) }
{
    let (description, _) = split_source(bytes);
    match read_description(alloc, description) {
        Ok(_) => put(sink, b"ok\n"),
        Err(DescFault::Bad { path, need }) => tell_fault(alloc, sink, path.as_str(), need),
        Err(DescFault::NoMemory) => Status::OutOfMemory,
    }
}
