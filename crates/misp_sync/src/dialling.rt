//! Synchronises over a dial.

ghost use Rattle.std.specs.Prelude.{◌≡◌, None, IfSome};
ghost use Rattle.misp_orgs.specs.Admin.{link_of};
ghost use Rattle.misp_protocol.specs.Counts.{no_count};
ghost use Rattle.misp_sync.specs.Causes.{bar_of};
ghost use Rattle.misp_sync.specs.Dialled.{trail_to};
ghost use Rattle.misp_sync.specs.Synchronised.{HasSynchronised};
ghost use Rattle.misp_sync.specs.Wire.{wire_state};
ghost use Rattle.misp_sync.specs.declared.reply.SyncReply.TheVariants as replies;

use crate::over_dial::OverDial;
use crate::reply::SyncReply;
use crate::synchronising::synchronise;
use misp_core::Instance;
use misp_ids::{Direction, InstId};
use misp_outside::{Dial, Keeper};
use std::alloc::Global;

/// Synchronises an instance over one of its links with the peer that is asked at this address.
pub fn synchronise_at<K: Keeper, L: Dial>(
    alloc: Global,
    instance: &mut Instance<K>,
    direction: Direction,
    link: &InstId,
    dial: &mut L,
    address: &str,
) -> SyncReply
    // What was asked and answered went to the address, all of it.
    ensures synced { HasSynchronised direction link.now instance.old instance.new
        (wire_state None (trail_to address.now (L.asks dial.old)) (L.faults dial.old))
        (wire_state None (trail_to address.now (L.asks dial.new)) (L.faults dial.new)) result }

    // A link that is not there or is off is refused just so, and nothing is asked.
    ensures barred { IfSome (bar_of (link_of instance.old.admin.links link.now)) (λ why.
        (result ≡ replies.Stopped no_count why) × (instance.new ≡ instance.old)
        × (dial.new ≡ dial.old)) }
{
    let mut wire = OverDial::new(dial, address);
    synchronise(alloc, instance, direction, link, &mut wire)
}
