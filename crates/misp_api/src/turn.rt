//! One turn of a session.

ghost use Rattle.std.specs.Prelude.{◌≡◌, ◌||◌, ℕ, Some};
ghost use Rattle.std.specs.Io.KnownBytes.{prepend_known};
ghost use Rattle.misp_outside.specs.Causes.{HasCause};
ghost use Rattle.misp_http.specs.declared.request.ReadEnd.{ReadEnd};
ghost use Rattle.misp_api.specs.Turn.{Point, IsAt, Turned, closes};

use crate::routes::Routes;
use crate::sending::{Buffers, Delivery, reply_to};
use misp_core::Instance;
use misp_http::{Read, ReadEnd, read_request};
use misp_outside::{Clock, Keeper, Sink, Source};
use std::alloc::Global;

/// How a turn of a session went.
#[derive(Clone, Copy, PartialEq, Eq)]
pub enum Turn {
    /// A request was answered, and the connection stays open.
    Goes,
    /// A request was answered, or bytes were refused, and the connection is to be closed.
    Closes,
    /// There was no request.
    Ends(ReadEnd),
    /// There was no room to answer.
    NoRoom,
    /// The reply could not be written whole.
    WriteFault,
}

/// Whether the connection is closed after what was read.
pub(crate) fn closes(read: &Read) -> bool
    ensures { result ≡ closes read.now }
{
    match read {
        Read::Request(request) => request.close,
        Read::Refused(_) => true,
    }
}

fn either(a: bool, b: bool) -> bool
    ensures { result ≡ (a || b) }
{
    a || b
}

/// Reads a request, answers it and writes the reply. The last one closes.
pub(crate) fn take_turn<K: Keeper, S: Source, W: Sink, T: Clock>(
    alloc: Global,
    routes: &Routes,
    instance: &mut Instance<K>,
    source: &mut S,
    sink: &mut W,
    clock: &mut T,
    buffers: &mut Buffers,
    last: bool,
) -> Turn
    ensures turned { (time : ℕ) (p : Point) → T.time clock.old ≡ Some time
        → IsAt (prepend_known buffers.old.rest.items (S.left source.old)) instance.old
        (T.next_word clock.old) (W.written sink.old) p
        → Turned time last p result (prepend_known buffers.new.rest.items (S.left source.new))
        instance.new (T.next_word clock.new) (W.written sink.new) }
    ensures time { T.time clock.new ≡ T.time clock.old }
    ensures read { HasCause (S.faults source.old) (S.faults source.new)
        (result ≡ Turn.Ends ReadEnd.ReadFault) }
    ensures write { HasCause (W.faults sink.old) (W.faults sink.new) (result ≡ Turn.WriteFault) }
{
    let read = match read_request(alloc, source, &mut buffers.rest) {
        Ok(read) => read,
        Err(end) => return Turn::Ends(end),
    };
    let asks = closes(&read);
    let close = either(asks, last);
    match reply_to(alloc, routes, instance, sink, clock, buffers, read, close) {
        Delivery::Written if asks => Turn::Closes,
        Delivery::Written => Turn::Goes,
        Delivery::WriteFault => Turn::WriteFault,
        Delivery::NoRoom => Turn::NoRoom,
    }
}
