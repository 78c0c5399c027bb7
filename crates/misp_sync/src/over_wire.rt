//! The peer as a party of a synchronisation, over a wire.

ghost use Rattle.std.specs.Prelude.{◌≡◌, None};
ghost use Rattle.misp_protocol.specs.Values.{IsAskable};
ghost use Rattle.misp_sync.specs.Wire.{wire_state};
ghost use Rattle.misp_sync.specs.WireAnswers.{IsCalled, call_of};

use crate::wire::Wire;
use misp_client::{Call, call_bytes, read_answer};
use misp_dialogue::Party;
use misp_ids::ApiKey;
use misp_outside::WireFault;
use misp_protocol::{Answer, Body, Cause, Request};
use std::alloc::Global;

/// The peer of a link, which is asked over a wire with the key of the link. It says what passes of
/// it in a pull, and takes what comes in a push.
#[derive(Drop)]
pub struct OverWire<'a, W: Wire> {
    wire: &'a mut W,
    key: &'a ApiKey,
}

impl<'a, W: Wire> OverWire<'a, W> {
    /// The peer of this wire, asked with this key.
    pub fn new(wire: &'a mut W, key: &'a ApiKey) -> OverWire<'a, W>
        ensures wire { result.wire.ghost_name ≡ wire.entry.ghost_name }
        ensures now { result.wire.now ≡ wire.old }
        ensures key { result.key.now ≡ key.now }
    {
        OverWire { wire, key }
    }
}

// Asks the peer, and reads what its reply tells.
fn call<W: Wire>(alloc: Global, wire: &mut W, key: &ApiKey, call: &Call) -> Result<Answer, Cause>
    ensures called { IsCalled key.now call.now
        (wire_state (W.peer wire.old) (W.trail wire.old) (W.faults wire.old)) result
        (wire_state (W.peer wire.new) (W.trail wire.new) (W.faults wire.new)) }
    ensures through { W.through wire.new ≡ W.through wire.old }
{
    let Ok(bytes) = call_bytes(alloc, key, call) else {
        return Err(Cause::NoMemory);
    };
    match wire.ask(alloc, &bytes) {
        Ok(reply) => read_answer(alloc, &reply, call),
        Err(WireFault::Failed) => Err(Cause::Link),
        Err(WireFault::NoMemory) => Err(Cause::NoMemory),
    }
}

// The call that a request is, where a peer is asked it.
fn call_of(request: Request) -> Option<Call>
    ensures call { result ≡ call_of request }
    ensures fits { result ≡ None → IsAskable request }
{
    match request {
        Request::Groups => Some(Call::Groups),
        Request::Manifest => Some(Call::Manifest),
        Request::Rows(wanted) => Some(Call::Rows(wanted)),
        Request::TakeGroups(groups) => Some(Call::TakeGroups(groups)),
        Request::TakePart(coming) => Some(Call::TakePart(coming)),
        Request::Packages => None,
        Request::Missing(part) => {
            let _fields = part.get();
            None
        }
    }
}

impl<W: Wire> Party<Request, Answer, Cause> for OverWire<'_, W> {
    ghost use Rattle.std.specs.Prelude.{◌∷◌};
    ghost use Rattle.misp_core.specs.Prelude.{Held};
    ghost use Rattle.misp_sync.specs.Wire.{peer_of};
    ghost use Rattle.misp_sync.specs.WireAnswers.{WireSetting, party_state, wire_conduct};

    ghost Holds = { Held };

    ghost state = { λ o. party_state
        (wire_state (W.peer o.wire.now) (W.trail o.wire.now) (W.faults o.wire.now)) };

    ghost Setting = { WireSetting };

    ghost setting = { λ o. record {
      host = peer_of (W.peer o.wire.now);
      key = o.key.now;
      through = o.wire.ghost_name ∷ W.through o.wire.now;
    } };

    ghost conduct = { λ s. wire_conduct s.host s.key };

    fn ask(&mut self, alloc: Global, request: Request) -> Result<Answer, Cause> {
        match call_of(request) {
            Some(asked) => call(alloc, self.wire, self.key, &asked),
            None => Err(Cause::Garbled(Body::Body)),
        }
    }
}
