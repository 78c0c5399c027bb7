//! The sessions of lines.

ghost use Rattle.std.specs.Prelude.{◌≡◌, ◌<◌, ◌⊎◌, ◌++◌, ⊤, IfOk, OnOk, OnErr, vec_len, vec_capacity};
ghost use Rattle.misp_script.specs.Step as commands;
ghost use Rattle.misp_net.specs.Running.{HasSession};

use crate::line::put_session;
use misp_api::{Routes, SessionEnd, session};
use misp_core::Instance;
use misp_ids::{NoMemory, Stamp};
use misp_outside::{Keeper, StepClock, SureSink, SureSource};
use misp_script::RawLine;
use std::alloc::Global;

// The bytes of a line.
fn bytes_of(alloc: Global, line: &RawLine<'_>) -> Result<Vec<u8>, NoMemory>
    ensures { IfOk result (λ bytes. bytes.items ≡ (commands.raw_data line.now).bytes) }
{
    match hex::decode(alloc, line.hex) {
        Ok(bytes) => Ok(bytes),
        Err(_) => Err(NoMemory),
    }
}

/// Runs the session of a line, and writes how it ended and the bytes of its replies, with room for
/// one byte after them.
pub(crate) fn put_raw<K: Keeper>(
    lines: &mut Vec<u8>,
    alloc: Global,
    routes: &Routes,
    instance: &mut Instance<K>,
    now: Stamp,
    word: u128,
    line: &RawLine<'_>,
) -> Result<(), NoMemory>
    ensures text { OnOk result (HasSession now word (commands.raw_data line.now)
        instance.old instance.new (λ text. lines.new.items ≡ lines.old.items ++ text)) }
    ensures room { OnOk result (vec_len lines.new < vec_capacity lines.new) }
    ensures cut { OnErr result ((instance.new ≡ instance.old)
        ⊎ HasSession now word (commands.raw_data line.now) instance.old instance.new (λ _. ⊤)) }
{
    let bytes = bytes_of(alloc, line)?;
    let mut source = SureSource::new(bytes);
    let mut sink = SureSink::new(alloc);
    let mut clock = StepClock {
        time: now.get(),
        word,
    };
    let end = session(alloc, routes, instance, &mut source, &mut sink, &mut clock);
    put_session(lines, alloc, end.end, sink.bytes())
}
