//! The synchronisations of lines.

ghost use Rattle.std.specs.Prelude.{◌≡◌, ◌≤◌, ◌<◌, false, eqb, Some, OnOk, OnErr, vec_len, vec_capacity};
ghost use Rattle.misp_orgs.specs.Admin.{link_of};
ghost use Rattle.misp_outside.specs.Causes.{HasCause};
ghost use Rattle.misp_effects.specs.KeeperStates.{Lends};
ghost use Rattle.misp_effects.specs.declared.stop.Stop.TheVariants as stops;
ghost use Rattle.misp_script.specs.Directory.{roster_names};
ghost use Rattle.misp_script.specs.Step.{sync_data};
ghost use Rattle.misp_dialogue.specs.Parties.{GrowsBy};
ghost use Rattle.misp_protocol.specs.Counts.{no_count};
ghost use Rattle.misp_sync.specs.Pulled.{stop_in};
ghost use Rattle.misp_sync.specs.declared.reply.SyncReply.TheVariants as replies;
ghost use Rattle.misp_net.specs.Acts.{Syncs, act};
ghost use Rattle.misp_net.specs.Asking.{asked_over, names_of};
ghost use Rattle.misp_net.specs.Lines.{sync_line};
ghost use Rattle.misp_net.specs.Links.{place_of_peer};
ghost use Rattle.misp_net.specs.Passing.{IsSyncPassed};
ghost use Rattle.misp_net.specs.Carrying.{carried};
ghost use Rattle.misp_net.specs.Running.{hosts_of, states_of, CutLine, IsAct, IsSynced, RanLine};
ghost use Rattle.misp_net.specs.declared.line.Output.TheVariants.{Synced};

use crate::lending::sync_between;
use crate::synced::put_synced;
use misp_api::Routes;
use misp_core::Instance;
use misp_ids::{NoMemory, Stamp};
use misp_outside::{Carry, Keeper};
use misp_protocol::{Cause, SyncCount};
use misp_script::{Directory, SyncLine};
use misp_sync::{SyncReply, usable};
use std::alloc::Global;

// The place of the peer of a link, or why a synchronisation over it is refused.
fn asked<K: Keeper>(
    directory: &Directory,
    instance: &Instance<K>,
    line: &SyncLine,
) -> Result<usize, Cause>
    ensures { result
        ≡ asked_over directory.now line.now.at (link_of instance.now.admin.links line.now.link) }
{
    let link = usable(instance, &line.link)?;
    match directory.place_of(link.peer.text().as_bytes()) {
        Some(peer) if peer != line.at => Ok(peer),
        _ => Err(Cause::NoPeer),
    }
}

// Refuses a synchronisation with nobody.
fn refused(cause: Cause) -> SyncReply
    ensures { result ≡ replies.Stopped no_count cause }
{
    SyncReply::Stopped {
        count: SyncCount::none(),
        cause,
    }
}

// Synchronises over the link of a line with the instance of another place.
fn lend<K: Keeper, C: Carry>(
    alloc: Global,
    routes: &Routes,
    instances: &mut Vec<Instance<K>>,
    carry: &mut C,
    now: Stamp,
    word: u128,
    line: &SyncLine,
    peer: usize,
) -> SyncReply
    requires inside { line.now.at < vec_len instances.old }
    requires peer { peer ≡ place_of_peer (hosts_of instances.old.items) line.now.at line.now.link }
    requires apart { eqb peer line.now.at ≡ false }
    ensures lends { Lends line.now.at peer
        (states_of instances.old.items) (states_of instances.new.items)
        (IsSynced (hosts_of instances.old.items) (sync_data line.now) result) }
    ensures cause { HasCause (C.faults carry.old) (C.faults carry.new)
        (stop_in result ≡ Some stops.Carry) }
    ensures passed { GrowsBy (C.passed carry.old) (C.passed carry.new)
        (IsSyncPassed (hosts_of instances.old.items) (states_of instances.old.items)
        (states_of instances.new.items) (sync_data line.now) result) }
    ensures hosts { hosts_of instances.new.items ≡ hosts_of instances.old.items }
{
    sync_between(
        alloc,
        routes,
        instances,
        carry,
        line.at,
        peer,
        line.direction,
        &line.link,
        now,
        word,
    )
}

// Runs the synchronisation of a line.
fn sync_at<K: Keeper, C: Carry>(
    alloc: Global,
    routes: &Routes,
    directory: &Directory,
    instances: &mut Vec<Instance<K>>,
    carry: &mut C,
    now: Stamp,
    word: u128,
    line: &SyncLine,
) -> SyncReply
    requires inside { line.now.at < vec_len instances.old }
    requires names { roster_names directory.now ≡ names_of (hosts_of instances.old.items) }
    ensures act { IsAct (hosts_of instances.old.items)
        (act now word (Syncs (sync_data line.now)))
        (states_of instances.old.items) (states_of instances.new.items) (Synced result) }
    ensures cause { HasCause (C.faults carry.old) (C.faults carry.new)
        (stop_in result ≡ Some stops.Carry) }
    ensures passed { GrowsBy (C.passed carry.old) (C.passed carry.new)
        (IsSyncPassed (hosts_of instances.old.items) (states_of instances.old.items)
        (states_of instances.new.items) (sync_data line.now) result) }
    ensures hosts { hosts_of instances.new.items ≡ hosts_of instances.old.items }
{
    match asked(directory, &instances[line.at], line) {
        Ok(peer) => lend(alloc, routes, instances, carry, now, word, line, peer),
        Err(cause) => refused(cause),
    }
}

/// Runs the synchronisation of a line, and writes what it was told, with room for one byte after
/// it.
pub(crate) fn put_sync<K: Keeper, C: Carry>(
    lines: &mut Vec<u8>,
    alloc: Global,
    routes: &Routes,
    directory: &Directory,
    instances: &mut Vec<Instance<K>>,
    carry: &mut C,
    now: Stamp,
    word: u128,
    line: &SyncLine,
) -> Result<(), NoMemory>
    requires inside { line.now.at < vec_len instances.old }
    requires names { roster_names directory.now ≡ names_of (hosts_of instances.old.items) }
    ensures ran { OnOk result (RanLine (hosts_of instances.old.items) (hosts_of instances.new.items)
        (sync_line now word (sync_data line.now))
        (states_of instances.old.items) (states_of instances.new.items)
        lines.old.items lines.new.items
        (carried (C.faults carry.old) (C.passed carry.old))
        (carried (C.faults carry.new) (C.passed carry.new))) }
    ensures room { OnOk result (vec_len lines.new < vec_capacity lines.new) }
    ensures cut { OnErr result (CutLine (hosts_of instances.old.items)
        (sync_line now word (sync_data line.now))
        (states_of instances.old.items) (states_of instances.new.items)
        (C.passed carry.old) (C.passed carry.new)) }
    ensures hosts { hosts_of instances.new.items ≡ hosts_of instances.old.items }
    ensures later { C.faults carry.old ≤ C.faults carry.new }
{
    let reply = sync_at(alloc, routes, directory, instances, carry, now, word, line);
    put_synced(lines, alloc, &reply)
}
