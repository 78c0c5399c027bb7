//! A wire that keeps what is asked over it.

ghost use Rattle.std.specs.Prelude.{◌≡◌, ◌+◌, ◌<◌, [], ◌∷◌, ◌++◌, vec_capacity, vec_len};

use crate::wire::Wire;
use misp_ids::Items;
use misp_outside::WireFault;
use std::alloc::Global;

/// A request that a wire was asked.
#[derive(Drop)]
pub struct WireAsk {
    pub request: Items<u8>,
    /// There is none where no reply came, or where it was lost.
    pub reply: Option<Items<u8>>,
}

/// A wire that keeps each request that it is asked and each reply to it. Over any wire, what was
/// asked is known so.
#[derive(Drop)]
pub struct KeepingWire<W: Wire + Drop> {
    wire: W,
    asks: Vec<WireAsk>,
}

impl<W: Wire + Drop> KeepingWire<W> {
    ghost use Rattle.misp_sync.specs.Kept.{wire_ask};

    /// Keeps what this wire is asked from here on.
    pub fn new(alloc: Global, wire: W) -> KeepingWire<W>
        ensures wire { result.wire ≡ wire }
        ensures asks { result.asks.items ≡ [] }
    {
        KeepingWire {
            wire,
            asks: Vec::new(alloc),
        }
    }

    /// What it was asked, in its order.
    pub fn asked(&self) -> &[WireAsk]
        ensures { result.now ≡ self.now.asks.items }
    {
        &self.asks
    }

    /// The wire within.
    pub fn into_wire(self) -> W
        ensures { result ≡ self.wire }
    {
        self.wire
    }

    // There is room for it.
    fn keep(&mut self, request: Items<u8>, reply: Option<Items<u8>>)
        requires { vec_len self.old.asks < vec_capacity self.old.asks }
        ensures asks { self.new.asks.items
            ≡ self.old.asks.items ++ wire_ask request reply ∷ [] }
        ensures wire { self.new.wire ≡ self.old.wire }
    {
        self.asks.push(WireAsk { request, reply }).unwrap();
    }
}

impl<W: Wire + Drop> Wire for KeepingWire<W> {
    ghost use Rattle.std.specs.Prelude.{Some};
    ghost use Rattle.misp_sync.specs.Kept.{kept_trail};

    ghost peer = { λ w. W.Wire.peer w.wire };

    ghost through = { λ w. W.Wire.through w.wire };

    ghost trail = { λ w. Some (kept_trail w.asks.items) };

    ghost faults = { λ w. W.Wire.faults w.wire };

    // Room for what is kept is made first, so that nothing is asked that is not kept.
    fn ask(&mut self, alloc: Global, bytes: &[u8]) -> Result<Vec<u8>, WireFault> {
        let request = Items::of(bytes.to_vec(alloc)?);
        self.asks.reserve(1)?;
        match self.wire.ask(alloc, bytes) {
            Ok(reply) => match reply.to_vec(alloc) {
                Ok(copy) => {
                    self.keep(request, Some(Items::of(copy)));
                    Ok(reply)
                }
                Err(_) => {
                    self.keep(request, None);
                    Err(WireFault::NoMemory)
                }
            },
            Err(fault) => {
                self.keep(request, None);
                Err(fault)
            }
        }
    }
}
