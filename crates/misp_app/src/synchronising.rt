//! Synchronises an instance of the description of a source over one of its links.

ghost use Rattle.std.specs.Prelude.{◌≡◌, ◌≤◌, ◌<◌, ℕ, List, IfOk, IfSome, IsSome, option_map, length, map, take, drop, vec_len, true};
ghost use Rattle.misp_outside.specs.Causes.{Rose};
ghost use Rattle.misp_effects.specs.KeeperStates.{AreKept, OneFailed};
ghost use Rattle.misp_orgs.specs.Admin.{link_of};
ghost use Rattle.misp_protocol.specs.Counts.{no_count};
ghost use Rattle.misp_sync.specs.declared.reply.SyncReply.TheVariants as replies;
ghost use Rattle.misp_store.specs.Sharing.{may_be_unsound};
ghost use Rattle.misp_net.specs.Hosts.{described_host};
ghost use Rattle.misp_net.specs.SyncText.{synced_line};
ghost use Rattle.misp_app.specs.Ends.{IsNetSynced, IsSourceSynced, IsSyncEnd, IsTellEnd};
ghost use Rattle.misp_app.specs.Source.{HasFailed, IsTold, IsUnsound, OthersStay, described, host_named, net_status, served_status};
ghost use Rattle.misp_app.specs.Status.{EndsAs, IsSilent, IsStill, IsUnasked, IsUnopened, TellsFault, Wrote};
ghost use Rattle.misp_app.specs.Synchronising.{EndsBy, HasSyncLine, HasSynced, IsCutSync, SyncsOver, address_beside, dialled, entry_beside, peer_address};
ghost use Rattle.misp_words.specs.Words.{Sync, sync_data};

use crate::Status;
use crate::fault::{put, tell_fault};
use misp_core::Instance;
use misp_ids::{InstId, NoMemory};
use misp_net::{close_first, open_first, put_synced_line};
use misp_outside::{Dial, Keeper, Sink};
use misp_protocol::{Cause, SyncCount};
use misp_script::{DescFault, Description, Entry, read_description, split_source};
use misp_sync::{SyncReply, synchronise_at, usable};
use misp_words::SyncWords;
use std::alloc::Global;

// The instance of a name, other than the one that asks.
fn entry_beside<'a>(here: &InstId, entries: &'a [Entry], name: &InstId) -> Option<&'a Entry>
    ensures { option_map (λ entry. entry.now) result
        ≡ entry_beside here.now entries.now name.now }
{
    let (here, name) = (here.text(), name.text());
    entries.iter().find(|entry| entry.name.text() == name && entry.name.text() != here)
}

// Its address.
fn address_beside<'a>(here: &InstId, entries: &'a [Entry], name: &InstId) -> Option<&'a str>
    ensures { option_map (λ address. address.now) result
        ≡ address_beside here.now entries.now name.now }
{
    match entry_beside(here, entries, name) {
        Some(entry) => Some(entry.address.as_str()),
        None => None,
    }
}

// The instance that the words name, where there is one, and the others.
#[tactic(auto, using(crate::proofs::Synchronised::host_there, crate::proofs::Synchronised::found_beside))]
fn entry_and_others(
    alloc: Global,
    net: Description,
    words: &SyncWords,
) -> Result<Option<(Entry, Vec<Entry>)>, NoMemory>
    ensures host { IfOk result (λ found.
        option_map (λ f. described_host f.0) found ≡ host_named words.now.name net) }
    ensures others { IfOk result (λ found. IfSome found (λ f. (name : List ℕ) →
        address_beside f.0.name f.1.items name
        ≡ address_beside f.0.name net.instances name)) }
    ensures some { IfOk result (λ found. IsSome found → 0 < length net.instances) }
{
    let directory = net.directory(alloc)?;
    let Some(place) = directory.place_of(words.name.text().as_bytes()) else {
        return Ok(None);
    };
    let mut entries = net.instances.into_vec();
    let entry = entries.remove(place);
    Ok(Some((entry, entries)))
}

// Refuses a synchronisation with nobody.
fn refused(cause: Cause) -> SyncReply
    ensures { result ≡ replies.Stopped no_count cause }
{
    SyncReply::Stopped {
        count: SyncCount::none(),
        cause,
    }
}

// Synchronises over a link, as the words say, with its peer among the other instances.
fn sync_over<K: Keeper, L: Dial>(
    alloc: Global,
    instance: &mut Instance<K>,
    words: &SyncWords,
    others: &[Entry],
    dial: &mut L,
) -> SyncReply
    ensures { SyncsOver (sync_data words.now)
        (peer_address instance.old.name others.now
        (link_of instance.old.admin.links words.now.link))
        instance.old instance.new
        (dialled (L.asks dial.old) (L.faults dial.old))
        (dialled (L.asks dial.new) (L.faults dial.new)) result }
{
    let link = match usable(instance, &words.link) {
        Ok(link) => link,
        Err(cause) => return refused(cause),
    };
    match address_beside(instance.name(), others, &link.peer) {
        Some(address) => {
            synchronise_at(alloc, instance, words.direction, &words.link, dial, address)
        }
        None => refused(Cause::NoPeer),
    }
}

// Writes the line of a synchronisation, and answers how the run ends.
fn tell_reply<W: Sink>(alloc: Global, sink: &mut W, reply: &SyncReply) -> Status
    ensures wrote { HasSyncLine result →
        Wrote result (W.written sink.old) (W.written sink.new) (synced_line 1 reply.now) }
    ensures status { HasSyncLine result → EndsBy reply.now result }
    ensures write { result ≡ Status.WriteFault → Rose (W.faults sink.old) (W.faults sink.new) }
    ensures silent { IsSilent result → W.written sink.new ≡ W.written sink.old }
    ensures ends { IsTellEnd result }
{
    let mut line = Vec::new(alloc);
    let Ok(()) = put_synced_line(&mut line, alloc, 1, reply) else {
        return Status::OutOfMemory;
    };
    match put(sink, &line) {
        Status::Done => match reply {
            SyncReply::Done(_) => Status::Done,
            SyncReply::Stopped { .. } => Status::Stopped,
        },
        status => status,
    }
}

// Synchronises an instance that is opened over the first keeper with a peer among the others.
fn sync_entry<K: Keeper, L: Dial, W: Sink>(
    alloc: Global,
    entry: Entry,
    words: &SyncWords,
    others: &[Entry],
    sink: &mut W,
    keepers: &mut Vec<K>,
    dial: &mut L,
) -> Status
    requires { 0 < vec_len keepers.old }
    ensures synced { HasSyncLine result →
        HasSynced (described_host entry) (sync_data words.now) others.now
        (take 1 (map K.state keepers.old.items)) (take 1 (map K.state keepers.new.items))
        (dialled (L.asks dial.old) (L.faults dial.old))
        (dialled (L.asks dial.new) (L.faults dial.new))
        (W.written sink.old) (W.written sink.new) result }
    ensures cut { result ≡ Status.OutOfMemory →
        IsCutSync (described_host entry) (sync_data words.now) others.now
        (take 1 (map K.state keepers.old.items)) (take 1 (map K.state keepers.new.items))
        (dialled (L.asks dial.old) (L.faults dial.old))
        (dialled (L.asks dial.new) (L.faults dial.new)) }
    ensures ends { IsSyncEnd result }
    ensures write { result ≡ Status.WriteFault → Rose (W.faults sink.old) (W.faults sink.new) }
    ensures silent { IsSilent result → W.written sink.new ≡ W.written sink.old }
    ensures keeper { result ≡ Status.KeeperFault → OneFailed
        (take 1 (map K.state keepers.old.items)) (take 1 (map K.state keepers.new.items)) }
    ensures bad_row { result ≡ Status.BadRow →
        may_be_unsound (take 1 (map K.state keepers.new.items)) ≡ true }
    ensures unopened { IsUnopened result → AreKept
        (take 1 (map K.state keepers.old.items)) (take 1 (map K.state keepers.new.items)) }
    ensures unasked { IsUnopened result → dial.new ≡ dial.old }
    ensures later { L.faults dial.old ≤ L.faults dial.new }
    ensures others { drop 1 (map K.state keepers.new.items)
        ≡ drop 1 (map K.state keepers.old.items) }
    ensures places { vec_len keepers.new ≡ vec_len keepers.old }
{
    let mut instance = match open_first(alloc, keepers, entry) {
        Ok(instance) => instance,
        Err(fault) => return Status::from(fault),
    };
    let reply = sync_over(alloc, &mut instance, words, others, dial);
    close_first(instance, keepers);
    tell_reply(alloc, sink, &reply)
}

// Synchronises the instance that the words name.
fn sync_net<K: Keeper, L: Dial, W: Sink>(
    alloc: Global,
    net: Description,
    words: &SyncWords,
    sink: &mut W,
    keepers: &mut Vec<K>,
    dial: &mut L,
) -> Status
    requires { 0 < vec_len keepers.old }
    ensures synced { HasSyncLine result →
        IfSome (host_named words.now.name net) (λ host.
        HasSynced host (sync_data words.now) net.instances
        (take 1 (map K.state keepers.old.items)) (take 1 (map K.state keepers.new.items))
        (dialled (L.asks dial.old) (L.faults dial.old))
        (dialled (L.asks dial.new) (L.faults dial.new))
        (W.written sink.old) (W.written sink.new) result) }
    ensures cut { result ≡ Status.OutOfMemory →
        IfSome (host_named words.now.name net) (λ host.
        IsCutSync host (sync_data words.now) net.instances
        (take 1 (map K.state keepers.old.items)) (take 1 (map K.state keepers.new.items))
        (dialled (L.asks dial.old) (L.faults dial.old))
        (dialled (L.asks dial.new) (L.faults dial.new))) }
    ensures status { EndsAs result (Sync (sync_data words.now)) (net_status words.now.name net) }
    ensures ends { IsNetSynced result }
    ensures write { result ≡ Status.WriteFault → Rose (W.faults sink.old) (W.faults sink.new) }
    ensures silent { IsSilent result → W.written sink.new ≡ W.written sink.old }
    ensures keeper { result ≡ Status.KeeperFault → OneFailed
        (take (length net.instances) (map K.state keepers.old.items))
        (take (length net.instances) (map K.state keepers.new.items)) }
    ensures bad_row { result ≡ Status.BadRow → may_be_unsound
        (take (length net.instances) (map K.state keepers.new.items)) ≡ true }
    ensures unopened { IsUnopened result →
        AreKept (map K.state keepers.old.items) (map K.state keepers.new.items) }
    ensures unasked { IsUnasked result → dial.new ≡ dial.old }
    ensures later { L.faults dial.old ≤ L.faults dial.new }
    ensures others { drop (length net.instances) (map K.state keepers.new.items)
        ≡ drop (length net.instances) (map K.state keepers.old.items) }
    ensures places { vec_len keepers.new ≡ vec_len keepers.old }
    ensures still { IsStill result → keepers.new.items ≡ keepers.old.items }
{
    match entry_and_others(alloc, net, words) {
        Ok(Some((entry, others))) => sync_entry(alloc, entry, words, &others, sink, keepers, dial),
        Ok(None) => Status::NoSuchInstance,
        Err(_) => Status::OutOfMemory,
    }
}

/// Synchronises the instance that the words name, over the first keeper, with the peer of the link
/// that they name.
pub(crate) fn sync_source<K: Keeper, L: Dial, W: Sink>(
    alloc: Global,
    bytes: &[u8],
    words: &SyncWords,
    sink: &mut W,
    keepers: &mut Vec<K>,
    dial: &mut L,
) -> Status
    requires { 0 < vec_len keepers.old }
    ensures synced { HasSyncLine result →
        IfOk (described bytes.now) (λ net. IfSome (host_named words.now.name net) (λ host.
        HasSynced host (sync_data words.now) net.instances
        (take 1 (map K.state keepers.old.items)) (take 1 (map K.state keepers.new.items))
        (dialled (L.asks dial.old) (L.faults dial.old))
        (dialled (L.asks dial.new) (L.faults dial.new))
        (W.written sink.old) (W.written sink.new) result)) }
    ensures cut { result ≡ Status.OutOfMemory →
        IfOk (described bytes.now) (λ net. IfSome (host_named words.now.name net) (λ host.
        IsCutSync host (sync_data words.now) net.instances
        (take 1 (map K.state keepers.old.items)) (take 1 (map K.state keepers.new.items))
        (dialled (L.asks dial.old) (L.faults dial.old))
        (dialled (L.asks dial.new) (L.faults dial.new)))) }
    ensures status { EndsAs result (Sync (sync_data words.now))
        (served_status words.now.name (described bytes.now)) }
    ensures ends { IsSourceSynced result }
    ensures write { result ≡ Status.WriteFault → Rose (W.faults sink.old) (W.faults sink.new) }
    ensures silent { IsSilent result → W.written sink.new ≡ W.written sink.old }
    ensures told { TellsFault result → IsTold (described bytes.now)
        (Wrote result (W.written sink.old) (W.written sink.new)) }
    ensures keeper { result ≡ Status.KeeperFault → HasFailed (described bytes.now)
        (map K.state keepers.old.items) (map K.state keepers.new.items) }
    ensures bad_row { result ≡ Status.BadRow →
        IsUnsound (described bytes.now) (map K.state keepers.new.items) }
    ensures unopened { IsUnopened result →
        AreKept (map K.state keepers.old.items) (map K.state keepers.new.items) }
    ensures unasked { IsUnasked result → dial.new ≡ dial.old }
    ensures later { L.faults dial.old ≤ L.faults dial.new }
    ensures others { OthersStay (described bytes.now)
        (map K.state keepers.old.items) (map K.state keepers.new.items) }
    ensures places { vec_len keepers.new ≡ vec_len keepers.old }
    ensures still { IsStill result → keepers.new.items ≡ keepers.old.items }
{
    let (description, _) = split_source(bytes);
    match read_description(alloc, description) {
        Ok(net) => sync_net(alloc, net, words, sink, keepers, dial),
        Err(DescFault::Bad { path, need }) => tell_fault(alloc, sink, path.as_str(), need),
        Err(DescFault::NoMemory) => Status::OutOfMemory,
    }
}
