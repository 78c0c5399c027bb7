//! Serves connections, one after another.

ghost use Rattle.std.specs.Prelude.{◌≡◌, ◌<◌, ◌^◌, ◌+◌, ℕ, List, Some, All, Err, OnOk, OnErr, IfOk, IfErr};
ghost use Rattle.std.specs.Io.KnownBytes.{Appends};
ghost use Rattle.misp_outside.specs.Causes.{HasCause};
ghost use Rattle.misp_outside.specs.Wires.{Connection};
ghost use Rattle.misp_http.specs.Streams.{AppendsSome};
ghost use Rattle.misp_app.specs.Serving.{Server, IsServer, IsTold, IsLineFault, OneServed, Served, line_of};

use misp_api::{Routes, SessionEnd, put_number, put_text, session};
use misp_core::Instance;
use misp_http::write_all;
use misp_ids::NoMemory;
use misp_outside::{Clock, Door, Keeper, Sink, SinkFault};
use std::alloc::Global;

/// Why connections are not served on.
#[derive(Clone, Copy, PartialEq, Eq)]
pub enum ServeFault {
    DoorFault,
    WriteFault,
    OutOfMemory,
}

// The line of the connection of this number.
fn line(alloc: Global, number: u32, end: SessionEnd) -> Result<Vec<u8>, NoMemory>
    ensures { IfOk result (λ line. line.items ≡ line_of number end) }
{
    let mut line = Vec::new(alloc);
    put_number(&mut line, alloc, number as usize)?;
    put_text(&mut line, " ")?;
    put_text(&mut line, end.end.name())?;
    put_text(&mut line, " ")?;
    put_number(&mut line, alloc, end.requests as usize)?;
    put_text(&mut line, "\n")?;
    Ok(line)
}

// Writes the line of the connection of this number.
fn write_line<W: Sink>(
    alloc: Global,
    sink: &mut W,
    number: u32,
    end: SessionEnd,
) -> Result<(), ServeFault>
    ensures ok { OnOk result (Appends (W.written sink.old) (W.written sink.new)
        (line_of number end)) }
    ensures err { OnErr result (AppendsSome (W.written sink.old) (W.written sink.new)
        (line_of number end)) }
    ensures line { IfErr result IsLineFault }
    ensures cause { HasCause (W.faults sink.old) (W.faults sink.new)
        (result ≡ Err ServeFault.WriteFault) }
{
    let Ok(line) = line(alloc, number, end) else {
        return Err(ServeFault::OutOfMemory);
    };
    if sink.room(line.len()).is_err() {
        return Err(ServeFault::OutOfMemory);
    }
    match write_all(sink, &line) {
        Ok(()) => Ok(()),
        Err(SinkFault::Failed) => Err(ServeFault::WriteFault),
    }
}

// Serves the next connection, after so many, and writes its line. There is none where the door is
// at its end.
fn serve_one<K: Keeper, D: Door, W: Sink, T: Clock>(
    alloc: Global,
    routes: &Routes,
    instance: &mut Instance<K>,
    door: &mut D,
    sink: &mut W,
    clock: &mut T,
    before: u32,
) -> Result<bool, ServeFault>
    requires { before + 1 < 2 ^ 32 }
    ensures served { (time : ℕ) (s : Server) (coming : List Connection) →
        T.time clock.old ≡ Some time
        → IsServer instance.old (T.next_word clock.old) (D.back door.old) s
        → D.coming door.old ≡ Some coming → All IsTold coming
        → OneServed time before s coming instance.new (T.next_word clock.new) (D.back door.new)
        (D.coming door.new) (W.written sink.old) (W.written sink.new) result }
    ensures time { T.time clock.new ≡ T.time clock.old }
    ensures door { HasCause (D.faults door.old) (D.faults door.new)
        (result ≡ Err ServeFault.DoorFault) }
    ensures write { HasCause (W.faults sink.old) (W.faults sink.new)
        (result ≡ Err ServeFault.WriteFault) }
{
    let Ok(next) = door.next() else {
        return Err(ServeFault::DoorFault);
    };
    let Some((from, to)) = next else {
        return Ok(false);
    };
    let mut from = from;
    let mut to = to;
    let end = session(alloc, routes, instance, &mut from, &mut to, clock);
    door.close(from, to);
    match write_line(alloc, sink, before + 1, end) {
        Ok(()) => Ok(true),
        Err(fault) => Err(fault),
    }
}

/// Serves so many connections, one after another, or as many as come, and writes a line for each.
pub(crate) fn serve<K: Keeper, D: Door, W: Sink, T: Clock>(
    alloc: Global,
    routes: &Routes,
    instance: &mut Instance<K>,
    door: &mut D,
    sink: &mut W,
    clock: &mut T,
    count: u32,
) -> Result<(), ServeFault>
    ensures served { (time : ℕ) (s : Server) (coming : List Connection) →
        T.time clock.old ≡ Some time
        → IsServer instance.old (T.next_word clock.old) (D.back door.old) s
        → D.coming door.old ≡ Some coming → All IsTold coming
        → Served time count s coming instance.new (T.next_word clock.new) (D.back door.new)
        (D.coming door.new) (W.written sink.old) (W.written sink.new) result }
    ensures door { HasCause (D.faults door.old) (D.faults door.new)
        (result ≡ Err ServeFault.DoorFault) }
    ensures write { HasCause (W.faults sink.old) (W.faults sink.new)
        (result ≡ Err ServeFault.WriteFault) }
{
    let mut served = 0;
    while served < count {
        match serve_one(alloc, routes, instance, door, sink, clock, served) {
            Ok(true) => served += 1,
            Ok(false) => return Ok(()),
            Err(fault) => return Err(fault),
        }
    }
    Ok(())
}
