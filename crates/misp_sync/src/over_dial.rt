//! A wire to an instance of another process.

ghost use Rattle.std.specs.Prelude.{◌≡◌, None, []};

use crate::wire::Wire;
use misp_outside::{Dial, WireFault};
use std::alloc::Global;

/// A wire to an instance of another process, over a dial. All that it sends goes to one address. It
/// tells nothing of the peer.
#[derive(Drop)]
pub struct OverDial<'a, L: Dial> {
    dial: &'a mut L,
    address: &'a str,
}

impl<'a, L: Dial> OverDial<'a, L> {
    /// A wire to this address.
    pub fn new(dial: &'a mut L, address: &'a str) -> OverDial<'a, L>
        ensures dial { result.dial.ghost_name ≡ dial.entry.ghost_name }
        ensures asks { result.dial.now ≡ dial.old }
        ensures address { result.address.now ≡ address.now }
    {
        OverDial { dial, address }
    }
}

impl<L: Dial> Wire for OverDial<'_, L> {
    ghost use Rattle.std.specs.Prelude.{◌∷◌};
    ghost use Rattle.misp_sync.specs.Dialled.{trail_to};

    ghost peer = { λ _. None };

    ghost through = { λ w. w.dial.ghost_name ∷ w.address.now };

    ghost trail = { λ w. trail_to w.address.now (L.asks w.dial.now) };

    ghost faults = { λ w. L.faults w.dial.now };

    fn ask(&mut self, alloc: Global, bytes: &[u8]) -> Result<Vec<u8>, WireFault> {
        self.dial.ask(alloc, self.address, bytes)
    }
}
