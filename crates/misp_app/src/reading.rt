//! The source of a run, which is read whole or generated.

ghost use Rattle.std.specs.Prelude.{◌≡◌, ◌<◌, ◌≤◌, ℕ, Some, length, IfOk, IfErr, IfSome, vec_len};
ghost use Rattle.misp_app.specs.Limits.{source_limit};
ghost use Rattle.misp_app.specs.Ends.{IsReadEnd};
ghost use Rattle.misp_app.specs.Source.{source_of, status_of, IsWithin};
ghost use Rattle.misp_app.specs.Status.{EndsAs};
ghost use Rattle.misp_generated.specs.Script.{source_text};
ghost use Rattle.misp_words.specs.Words.{Gen, command_data};
ghost use Rattle.misp_outside.specs.Causes.{HasCause, StaysUnless};

use crate::{MAX_SOURCE, Status};
use misp_generated::write_source;
use misp_ids::NoMemory;
use misp_outside::Source;
use misp_words::Command;
use std::alloc::Global;

// All bytes of the source, if they are not too many.
#[tactic(auto, using(crate::proofs::Taken::consumes_none, crate::proofs::Taken::consumes_more, crate::proofs::Taken::consumes_all, crate::proofs::Taken::consumes_many))]
fn read_all<S: Source>(alloc: Global, source: &mut S) -> Result<Vec<u8>, Status>
    ensures bytes { IfOk result (λ bytes.
        IfSome (S.left source.old) (λ left. bytes.items ≡ left)) }
    ensures bound { IfOk result (λ bytes. vec_len bytes ≤ source_limit) }
    ensures too_much { result ≡ Err Status.TooMuch →
        IfSome (S.left source.old) (λ left. source_limit < length left) }
    ensures cause { HasCause (S.faults source.old) (S.faults source.new)
        (result ≡ Err Status.ReadFault) }
    ensures stays { StaysUnless (S.faults source.old) (S.faults source.new)
        (result ≡ Err Status.ReadFault) }
    ensures others { IfErr result IsReadEnd }
{
    let mut bytes = Vec::new(alloc);
    let mut buffer = [0u8; 16384];
    while bytes.len() <= MAX_SOURCE {
        let Ok(count) = source.read(&mut buffer) else {
            return Err(Status::ReadFault);
        };
        if count == 0 {
            return Ok(bytes);
        }
        bytes.extend_from_slice(&buffer[..count])?;
    }
    Err(Status::TooMuch)
}

// The source of a generated network with so many events.
fn generated(alloc: Global, count: u32) -> Result<Vec<u8>, Status>
    ensures bytes { IfOk result (λ bytes. bytes.items ≡ source_text count) }
    ensures others { IfErr result (λ status. status ≡ Status.OutOfMemory) }
{
    match write_source(alloc, count) {
        Ok(text) => Ok(text.into_bytes()),
        Err(NoMemory) => Err(Status::OutOfMemory),
    }
}

/// The source over which a command runs: all bytes of what is handed in, or that of a generated
/// network.
pub(crate) fn source_bytes<S: Source>(
    alloc: Global,
    command: &Command<'_>,
    source: &mut S,
) -> Result<Vec<u8>, Status>
    ensures bytes { IfOk result (λ bytes.
        IfSome (source_of (Some (command_data command.now)) (S.left source.old))
        (λ left. bytes.items ≡ left)) }
    ensures too_much { result ≡ Err Status.TooMuch →
        IfSome (source_of (Some (command_data command.now)) (S.left source.old))
        (λ left. source_limit < length left) }
    ensures bound { IfOk result (λ bytes. IsWithin (command_data command.now) bytes.items) }
    ensures cause { HasCause (S.faults source.old) (S.faults source.new)
        (result ≡ Err Status.ReadFault) }
    ensures stays { StaysUnless (S.faults source.old) (S.faults source.new)
        (result ≡ Err Status.ReadFault) }
    ensures others { IfErr result IsReadEnd }
    ensures status { IfErr result (λ status.
        IfSome (source_of (Some (command_data command.now)) (S.left source.old)) (λ left.
        EndsAs status (command_data command.now) (status_of (command_data command.now) left))) }
    ensures unread { (count : ℕ) → command_data command.now ≡ Gen count →
        source.new ≡ source.old }
{
    match command {
        Command::Gen(count) => generated(alloc, *count),
        _ => read_all(alloc, source),
    }
}
