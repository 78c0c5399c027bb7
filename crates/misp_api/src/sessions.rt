//! Sessions.

ghost use Rattle.std.specs.Prelude.{◌≡◌, ◌<◌, ℕ, List, [], Some};
ghost use Rattle.std.specs.Io.KnownBytes.{prepend_known};
ghost use Rattle.misp_outside.specs.Causes.{HasCause};
ghost use Rattle.misp_api.specs.Session.{Session, end_after, end_name, is_last};
ghost use Rattle.misp_api.specs.Turn.{Point, IsAt};
ghost use Rattle.misp_api.specs.declared.TheConstants.{MAX_REQUESTS};

use crate::MAX_REQUESTS;
use crate::routes::Routes;
use crate::sending::Buffers;
use crate::turn::{Turn, take_turn};
use misp_core::Instance;
use misp_http::ReadEnd;
use misp_outside::{Clock, Keeper, Sink, Source};
use std::alloc::Global;

/// How a session ends.
#[derive(Clone, Copy, PartialEq, Eq)]
pub enum End {
    /// A request asked to close, or bytes were refused.
    Closed,
    /// The bytes ended where a request does.
    Ended,
    /// The bytes ended within a request.
    Cut,
    /// There were as many requests as there may be.
    Quota,
    ReadFault,
    WriteFault,
    NoMemory,
}

impl End {
    /// As lines name it.
    pub fn name(self) -> &'static str
        ensures { result.now ≡ end_name self }
    {
        match self {
            End::Closed => "Closed",
            End::Ended => "Ended",
            End::Cut => "Cut",
            End::Quota => "Quota",
            End::ReadFault => "ReadFault",
            End::WriteFault => "WriteFault",
            End::NoMemory => "NoMemory",
        }
    }
}

impl From<ReadEnd> for End {
    ghost use Rattle.misp_api.specs.Session.{end_of};

    ghost from_gives = { λ found end. end ≡ end_of found };

    fn from(end: ReadEnd) -> End {
        match end {
            ReadEnd::Ended => End::Ended,
            ReadEnd::Cut => End::Cut,
            ReadEnd::ReadFault => End::ReadFault,
            ReadEnd::NoMemory => End::NoMemory,
        }
    }
}

/// How many requests were answered, and how the session ended.
#[derive(Clone, Copy, PartialEq, Eq)]
pub struct SessionEnd {
    /// Those that were refused count, and one whose reply was not written whole.
    pub requests: u32,
    pub end: End,
}

// How a session ends by a turn after so many, if it does.
fn end_after(requests: u32, turn: Turn) -> Option<SessionEnd>
    requires { requests < MAX_REQUESTS }
    ensures { result ≡ end_after requests turn }
{
    let (requests, end) = match turn {
        Turn::Goes => return None,
        Turn::Closes => (requests + 1, End::Closed),
        Turn::WriteFault => (requests + 1, End::WriteFault),
        Turn::Ends(end) => (requests, End::from(end)),
        Turn::NoRoom => (requests, End::NoMemory),
    };
    Some(SessionEnd { requests, end })
}

fn is_last(requests: u32) -> bool
    requires { requests < MAX_REQUESTS }
    ensures { result ≡ is_last requests }
{
    requests + 1 == MAX_REQUESTS
}

fn buffers(alloc: Global) -> Buffers
    ensures { result.rest.items ≡ [] }
{
    Buffers {
        rest: Vec::new(alloc),
        text: Vec::new(alloc),
        out: Vec::new(alloc),
    }
}

/// Answers the requests of a connection one after another, until it ends, asks to be closed or is
/// refused, or has had as many as it may.
pub fn session<K: Keeper, S: Source, W: Sink, T: Clock>(
    alloc: Global,
    routes: &Routes,
    instance: &mut Instance<K>,
    source: &mut S,
    sink: &mut W,
    clock: &mut T,
) -> SessionEnd
    // The replies are those of the requests that the bytes are, in order, each on what the one
    // before it left. Some bytes behind the last may be read as well.
    ensures session { (time : ℕ) (p : Point) → T.time clock.old ≡ Some time
        → IsAt (S.left source.old) instance.old (T.next_word clock.old) (W.written sink.old) p
        → (rest : List ℕ) × Session time p result (prepend_known rest (S.left source.new))
        instance.new (T.next_word clock.new) (W.written sink.new) }

    // A fault of an end is answered only where its count rose.
    ensures read { HasCause (S.faults source.old) (S.faults source.new)
        (result.end ≡ End.ReadFault) }
    ensures write { HasCause (W.faults sink.old) (W.faults sink.new)
        (result.end ≡ End.WriteFault) }
    ensures time { T.time clock.new ≡ T.time clock.old }
{
    let mut buffers = buffers(alloc);
    let mut requests = 0;
    while requests < MAX_REQUESTS {
        let last = is_last(requests);
        let turn = take_turn(
            alloc,
            routes,
            instance,
            source,
            sink,
            clock,
            &mut buffers,
            last,
        );
        if let Some(end) = end_after(requests, turn) {
            return end;
        }
        requests += 1;
    }
    SessionEnd {
        requests,
        end: End::Quota,
    }
}
