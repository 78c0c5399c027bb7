//! Serves an instance of the description of a source.

ghost use Rattle.std.specs.Prelude.{◌≡◌, ◌<◌, ℕ, List, Some, IsSome, option_map, IfOk, IfSome, length, map, take, drop, vec_len, true};
ghost use Rattle.misp_outside.specs.Causes.{Rose};
ghost use Rattle.misp_outside.specs.Wires.{Connection};
ghost use Rattle.misp_effects.specs.KeeperStates.{AreKept, OneFailed};
ghost use Rattle.misp_store.specs.Sharing.{may_be_unsound};
ghost use Rattle.misp_net.specs.Hosts.{described_host};
ghost use Rattle.misp_app.specs.Ends.{IsHostEnd, IsNetServed, IsSourceServed};
ghost use Rattle.misp_app.specs.Hosting.{HasLinesServed, HasServed, IsReady, serving_status};
ghost use Rattle.misp_app.specs.Source.{HasFailed, IsTold, IsUnsound, OthersStay, described, host_named, net_status, served_status};
ghost use Rattle.misp_app.specs.Status.{EndsAs, IsStill, IsUnopened, TellsFault, WritesNothing, Wrote};
ghost use Rattle.misp_words.specs.Words.{Serve, serve_data};

use crate::Status;
use crate::fault::tell_fault;
use crate::serving::{ServeFault, serve};
use misp_api::Routes;
use misp_ids::{InstId, NoMemory};
use misp_net::{close_first, open_first};
use misp_outside::{Clock, Door, Keeper, Sink};
use misp_script::{DescFault, Description, Entry, read_description, split_source};
use misp_words::ServeWords;
use std::alloc::Global;

// How a run ends where serving ends so.
fn serving_status(served: Result<(), ServeFault>) -> Status
    ensures { result ≡ serving_status served }
{
    match served {
        Ok(()) => Status::Done,
        Err(ServeFault::DoorFault) => Status::DoorFault,
        Err(ServeFault::WriteFault) => Status::WriteFault,
        Err(ServeFault::OutOfMemory) => Status::OutOfMemory,
    }
}

// The first instance of a name in a description.
fn entry_named(alloc: Global, net: Description, name: &InstId) -> Result<Option<Entry>, NoMemory>
    ensures host { IfOk result (λ entry.
        option_map described_host entry ≡ host_named name.now net) }
    ensures some { IfOk result (λ entry. IsSome entry → 0 < length net.instances) }
{
    let directory = net.directory(alloc)?;
    let Some(place) = directory.place_of(name.text().as_bytes()) else {
        return Ok(None);
    };
    let mut entries = net.instances.into_vec();
    Ok(Some(entries.remove(place)))
}

// Serves so many connections by an instance that is opened over the first keeper.
fn serve_entry<K: Keeper, D: Door, W: Sink, T: Clock>(
    alloc: Global,
    entry: Entry,
    sink: &mut W,
    keepers: &mut Vec<K>,
    door: &mut D,
    clock: &mut T,
    count: u32,
) -> Status
    requires { 0 < vec_len keepers.old }
    ensures served { (time word : ℕ) (back coming : List Connection) →
        IsReady time word back coming (T.time clock.old) (T.next_word clock.old)
        (D.back door.old) (D.coming door.old) → HasLinesServed result →
        HasServed (described_host entry) time count word back coming
        (take 1 (map K.state keepers.old.items)) (take 1 (map K.state keepers.new.items))
        (T.next_word clock.new) (D.back door.new) (D.coming door.new)
        (W.written sink.old) (W.written sink.new) result }
    ensures ends { IsHostEnd result }
    ensures write { result ≡ Status.WriteFault → Rose (W.faults sink.old) (W.faults sink.new) }
    ensures door { result ≡ Status.DoorFault → Rose (D.faults door.old) (D.faults door.new) }
    ensures silent { IsUnopened result → W.written sink.new ≡ W.written sink.old }
    ensures keeper { result ≡ Status.KeeperFault → OneFailed
        (take 1 (map K.state keepers.old.items)) (take 1 (map K.state keepers.new.items)) }
    ensures bad_row { result ≡ Status.BadRow →
        may_be_unsound (take 1 (map K.state keepers.new.items)) ≡ true }
    ensures unopened { IsUnopened result → AreKept
        (take 1 (map K.state keepers.old.items)) (take 1 (map K.state keepers.new.items)) }
    ensures others { drop 1 (map K.state keepers.new.items)
        ≡ drop 1 (map K.state keepers.old.items) }
    ensures places { vec_len keepers.new ≡ vec_len keepers.old }
{
    let Ok(routes) = Routes::new(alloc) else {
        return Status::OutOfMemory;
    };
    let mut instance = match open_first(alloc, keepers, entry) {
        Ok(instance) => instance,
        Err(fault) => return Status::from(fault),
    };
    let served = serve(alloc, &routes, &mut instance, door, sink, clock, count);
    close_first(instance, keepers);
    serving_status(served)
}

// Serves the instance that the words name.
fn serve_net<K: Keeper, D: Door, W: Sink, T: Clock>(
    alloc: Global,
    net: Description,
    words: &ServeWords<'_>,
    sink: &mut W,
    keepers: &mut Vec<K>,
    door: &mut D,
    clock: &mut T,
) -> Status
    requires { 0 < vec_len keepers.old }
    ensures served { (time word : ℕ) (back coming : List Connection) →
        IsReady time word back coming (T.time clock.old) (T.next_word clock.old)
        (D.back door.old) (D.coming door.old) → HasLinesServed result →
        IfSome (host_named words.now.name net) (λ host.
        HasServed host time words.now.count word back coming
        (take 1 (map K.state keepers.old.items)) (take 1 (map K.state keepers.new.items))
        (T.next_word clock.new) (D.back door.new) (D.coming door.new)
        (W.written sink.old) (W.written sink.new) result) }
    ensures status { EndsAs result (Serve (serve_data words.now))
        (net_status words.now.name net) }
    ensures ends { IsNetServed result }
    ensures write { result ≡ Status.WriteFault → Rose (W.faults sink.old) (W.faults sink.new) }
    ensures door { result ≡ Status.DoorFault → Rose (D.faults door.old) (D.faults door.new) }
    ensures silent { WritesNothing (Some (Serve (serve_data words.now))) result →
        W.written sink.new ≡ W.written sink.old }
    ensures keeper { result ≡ Status.KeeperFault → OneFailed
        (take (length net.instances) (map K.state keepers.old.items))
        (take (length net.instances) (map K.state keepers.new.items)) }
    ensures bad_row { result ≡ Status.BadRow → may_be_unsound
        (take (length net.instances) (map K.state keepers.new.items)) ≡ true }
    ensures unopened { IsUnopened result →
        AreKept (map K.state keepers.old.items) (map K.state keepers.new.items) }
    ensures others { drop (length net.instances) (map K.state keepers.new.items)
        ≡ drop (length net.instances) (map K.state keepers.old.items) }
    ensures places { vec_len keepers.new ≡ vec_len keepers.old }
    ensures still { IsStill result → keepers.new.items ≡ keepers.old.items }
{
    match entry_named(alloc, net, &words.name) {
        Ok(Some(entry)) => serve_entry(alloc, entry, sink, keepers, door, clock, words.count),
        Ok(None) => Status::NoSuchInstance,
        Err(_) => Status::OutOfMemory,
    }
}

/// Serves the instance that the words name, over the first keeper.
pub(crate) fn serve_source<K: Keeper, D: Door, W: Sink, T: Clock>(
    alloc: Global,
    bytes: &[u8],
    words: &ServeWords<'_>,
    sink: &mut W,
    keepers: &mut Vec<K>,
    door: &mut D,
    clock: &mut T,
) -> Status
    requires { 0 < vec_len keepers.old }
    ensures served { (time word : ℕ) (back coming : List Connection) →
        IsReady time word back coming (T.time clock.old) (T.next_word clock.old)
        (D.back door.old) (D.coming door.old) → HasLinesServed result →
        IfOk (described bytes.now) (λ net. IfSome (host_named words.now.name net) (λ host.
        HasServed host time words.now.count word back coming
        (take 1 (map K.state keepers.old.items)) (take 1 (map K.state keepers.new.items))
        (T.next_word clock.new) (D.back door.new) (D.coming door.new)
        (W.written sink.old) (W.written sink.new) result)) }
    ensures status { EndsAs result (Serve (serve_data words.now))
        (served_status words.now.name (described bytes.now)) }
    ensures ends { IsSourceServed result }
    ensures write { result ≡ Status.WriteFault → Rose (W.faults sink.old) (W.faults sink.new) }
    ensures door { result ≡ Status.DoorFault → Rose (D.faults door.old) (D.faults door.new) }
    ensures silent { WritesNothing (Some (Serve (serve_data words.now))) result →
        W.written sink.new ≡ W.written sink.old }
    ensures told { TellsFault result → IsTold (described bytes.now)
        (Wrote result (W.written sink.old) (W.written sink.new)) }
    ensures keeper { result ≡ Status.KeeperFault → HasFailed (described bytes.now)
        (map K.state keepers.old.items) (map K.state keepers.new.items) }
    ensures bad_row { result ≡ Status.BadRow →
        IsUnsound (described bytes.now) (map K.state keepers.new.items) }
    ensures unopened { IsUnopened result →
        AreKept (map K.state keepers.old.items) (map K.state keepers.new.items) }
    ensures others { OthersStay (described bytes.now)
        (map K.state keepers.old.items) (map K.state keepers.new.items) }
    ensures places { vec_len keepers.new ≡ vec_len keepers.old }
    ensures still { IsStill result → keepers.new.items ≡ keepers.old.items }
{
    let (description, _) = split_source(bytes);
    match read_description(alloc, description) {
        Ok(net) => serve_net(alloc, net, words, sink, keepers, door, clock),
        Err(DescFault::Bad { path, need }) => tell_fault(alloc, sink, path.as_str(), need),
        Err(DescFault::NoMemory) => Status::OutOfMemory,
    }
}
