//! Synchronises an instance with a peer.

ghost use Rattle.std.specs.Prelude.{◌≡◌, IfSome};
ghost use Rattle.misp_ids.specs.Uid.{IsUid};
ghost use Rattle.misp_orgs.specs.Admin.{link_of};
ghost use Rattle.misp_protocol.specs.Counts.{no_count};
ghost use Rattle.misp_sync.specs.Causes.{bar_of, usable_link};
ghost use Rattle.misp_sync.specs.Synchronised.{HasConversed, HasSynchronised, reply_of_ending};
ghost use Rattle.misp_sync.specs.Wire.{wire_state};
ghost use Rattle.misp_sync.specs.declared.reply.SyncReply.TheVariants as replies;

use crate::over_wire::OverWire;
use crate::own::Own;
use crate::reply::SyncReply;
use crate::wire::Wire;
use misp_core::Instance;
use misp_dialogue::{Ending, converse};
use misp_ids::{Direction, InstId};
use misp_orgs::Link;
use misp_outside::Keeper;
use misp_protocol::{Cause, SyncCount, SyncLeader, Tally};
use std::alloc::Global;

/// The link of a name, where it can be used; or why it bars a synchronisation.
pub fn usable<K: Keeper>(instance: &Instance<K>, name: &InstId) -> Result<Link, Cause>
    ensures { result ≡ usable_link (link_of instance.now.admin.links name.now) }
{
    match instance.link(name) {
        Some(link) if link.on => Ok(*link),
        Some(_) => Err(Cause::LinkOff),
        None => Err(Cause::NoLink),
    }
}

// How the dialogue ended, as what is told.
fn told(ending: Ending<Tally, Cause>) -> SyncReply
    ensures { result ≡ reply_of_ending ending }
{
    match ending {
        Ending::Done(tally) => SyncReply::Done(tally.count),
        Ending::Stopped(tally, cause) => SyncReply::Stopped {
            count: tally.count,
            cause,
        },
    }
}

// Shows what holds of the holder of a link, as of any identifier.
fn is_identified(link: &Link)
    ensures { IsUid link.now.holder.0 }
{
    let _number = link.holder.0.0;
}

// Holds the dialogue of a synchronisation over a link.
fn converse_over<'a, K: Keeper, W: Wire>(
    alloc: Global,
    instance: &'a mut Instance<K>,
    direction: Direction,
    link: &'a Link,
    wire: &'a mut W,
) -> Ending<Tally, Cause>
    ensures conversed { HasConversed direction link.now instance.old instance.new
        (wire_state (W.peer wire.old) (W.trail wire.old) (W.faults wire.old))
        (wire_state (W.peer wire.new) (W.trail wire.new) (W.faults wire.new)) result }
    ensures through { W.through wire.new ≡ W.through wire.old }
{
    let mut leader = SyncLeader::new(alloc, direction);
    let mut own = Own::new(instance, link);
    let mut peer = OverWire::new(wire, &link.key);
    match direction {
        Direction::Pull => converse(alloc, &mut leader, &mut peer, &mut own),
        Direction::Push => converse(alloc, &mut leader, &mut own, &mut peer),
    }
}

/// Synchronises an instance over one of its links with the peer that a wire asks: a pull takes here
/// what is new of what passes at the peer, and a push has the peer take what is new of what passes
/// here. First are the groups that carry, then the packages of each event, in order.
pub fn synchronise<K: Keeper, W: Wire>(
    alloc: Global,
    instance: &mut Instance<K>,
    direction: Direction,
    link: &InstId,
    wire: &mut W,
) -> SyncReply
    ensures synced { HasSynchronised direction link.now instance.old instance.new
        (wire_state (W.peer wire.old) (W.trail wire.old) (W.faults wire.old))
        (wire_state (W.peer wire.new) (W.trail wire.new) (W.faults wire.new)) result }

    // A link that is not there or is off is refused just so, and nothing is asked.
    ensures barred { IfSome (bar_of (link_of instance.old.admin.links link.now)) (λ why.
        (result ≡ replies.Stopped no_count why) × (instance.new ≡ instance.old)
        × (wire.new ≡ wire.old)) }
    ensures through { W.through wire.new ≡ W.through wire.old }
{
    let link = match usable(instance, link) {
        Ok(link) => link,
        Err(cause) => {
            return SyncReply::Stopped {
                count: SyncCount::none(),
                cause,
            };
        }
    };
    is_identified(&link);
    told(converse_over(alloc, instance, direction, &link, wire))
}
