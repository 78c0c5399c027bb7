//! Lends two instances of a list at once.

ghost use Rattle.std.specs.Prelude.{◌≡◌, ◌<◌, ◌≤◌, ◌-◌, false, IfSome, length, nat_eq, slice_index_or, vec_len, vec_capacity};
ghost use Rattle.std.specs.List.{insert, remove};
ghost use Rattle.misp_orgs.specs.Admin.{link_of};
ghost use Rattle.misp_core.specs.Standing.{Standing};
ghost use Rattle.misp_protocol.specs.Counts.{no_count};
ghost use Rattle.misp_sync.specs.Causes.{bar_of};
ghost use Rattle.misp_sync.specs.Synchronised.{HasSynchronised};
ghost use Rattle.misp_sync.specs.declared.reply.SyncReply.TheVariants as replies;
ghost use Rattle.misp_net.specs.Carrying.{carried};
ghost use Rattle.misp_net.specs.Lending.{HasSynced, HasSyncedWith, HaveSynced, wire_to};

use crate::over_carry::OverCarry;
use misp_api::Routes;
use misp_core::Instance;
use misp_ids::{Direction, InstId, Stamp};
use misp_outside::{Carry, Keeper};
use misp_sync::{SyncReply, synchronise};
use std::alloc::Global;

// The instance at a place, which leaves the list.
fn take_out<K: Keeper>(instances: &mut Vec<Instance<K>>, place: usize) -> Instance<K>
    requires { place < vec_len instances.old }
    ensures out { (d : Standing) → result ≡ slice_index_or instances.old.items place d }
    ensures rest { instances.new.items ≡ remove instances.old.items place }
    ensures room { vec_capacity instances.new ≡ vec_capacity instances.old }
{
    instances.remove(place)
}

// Puts an instance into its place again.
fn put_in<K: Keeper>(instances: &mut Vec<Instance<K>>, place: usize, instance: Instance<K>)
    requires room { vec_len instances.old < vec_capacity instances.old }
    requires place { place ≤ vec_len instances.old }
    ensures { instances.new.items ≡ insert instances.old.items place instance }
{
    instances.insert(place, instance).unwrap();
}

// Where a place is once another one is taken out.
fn place_without(peer: usize, own: usize) -> usize
    requires { nat_eq own peer ≡ false }
    ensures below { peer < own → result ≡ peer }
    ensures above { own < peer → result ≡ peer - 1 }
{
    if peer < own { peer } else { peer - 1 }
}

// The one synchronises with the other over a wire. What `synchronise` promises holds of the two.
fn sync_over<K: Keeper, C: Carry>(
    alloc: Global,
    routes: &Routes,
    own: &mut Instance<K>,
    peer: &mut Instance<K>,
    carry: &mut C,
    direction: Direction,
    link: &InstId,
    now: Stamp,
    word: u128,
) -> SyncReply
    ensures synchronised { HasSynchronised direction link.now own.old own.new
        (wire_to peer.old (carried (C.faults carry.old) (C.passed carry.old)))
        (wire_to peer.new (carried (C.faults carry.new) (C.passed carry.new))) result }
    ensures barred { IfSome (bar_of (link_of own.old.admin.links link.now)) (λ why.
        (result ≡ replies.Stopped no_count why) × (own.new ≡ own.old) × (peer.new ≡ peer.old)) }
{
    let mut wire = OverCarry::new(routes, peer, now, word, carry);
    synchronise(alloc, own, direction, link, &mut wire)
}

// The one synchronises with the other in a direction.
fn sync_pair<K: Keeper, C: Carry>(
    alloc: Global,
    routes: &Routes,
    own: &mut Instance<K>,
    peer: &mut Instance<K>,
    carry: &mut C,
    direction: Direction,
    link: &InstId,
    now: Stamp,
    word: u128,
) -> SyncReply
    ensures { HasSynced direction link.now
        (carried (C.faults carry.old) (C.passed carry.old))
        (carried (C.faults carry.new) (C.passed carry.new))
        own.old peer.old own.new peer.new result }
{
    sync_over(alloc, routes, own, peer, carry, direction, link, now, word)
}

// It synchronises with the one at a place.
fn sync_with<K: Keeper, C: Carry>(
    alloc: Global,
    routes: &Routes,
    own: &mut Instance<K>,
    instances: &mut Vec<Instance<K>>,
    place: usize,
    carry: &mut C,
    direction: Direction,
    link: &InstId,
    now: Stamp,
    word: u128,
) -> SyncReply
    requires { place < vec_len instances.old }
    ensures synced { HasSyncedWith direction link.now
        (carried (C.faults carry.old) (C.passed carry.old))
        (carried (C.faults carry.new) (C.passed carry.new))
        place own.old own.new instances.old.items instances.new.items result }
    ensures room { vec_capacity instances.new ≡ vec_capacity instances.old }
{
    let peer = &mut instances[place];
    sync_pair(alloc, routes, own, peer, carry, direction, link, now, word)
}

/// The instance at one place synchronises with the one at another, in a direction and over a link
/// of its own.
pub fn sync_between<K: Keeper, C: Carry>(
    alloc: Global,
    routes: &Routes,
    instances: &mut Vec<Instance<K>>,
    carry: &mut C,
    own: usize,
    peer: usize,
    direction: Direction,
    link: &InstId,
    now: Stamp,
    word: u128,
) -> SyncReply
    requires own { own < length instances.old.items }
    requires peer { peer < vec_len instances.old }
    requires apart { nat_eq own peer ≡ false }

    // What a synchronisation promises holds of the two, and the others are as they were.
    ensures { HaveSynced direction link.now
        (carried (C.faults carry.old) (C.passed carry.old))
        (carried (C.faults carry.new) (C.passed carry.new))
        own peer instances.old.items instances.new.items result }
{
    let mut mine = take_out(instances, own);
    let place = place_without(peer, own);
    let reply = sync_with(
        alloc, routes, &mut mine, instances, place, carry, direction, link, now, word,
    );
    put_in(instances, own, mine);
    reply
}
