//! Takes keepers out of their places, and puts them back.

ghost use Rattle.std.specs.Prelude.{◌≡◌, ◌+◌, ◌<◌, ◌≤◌, [], ◌∷◌, ◌++◌, true, Err, IfOk, OnOk, OnErr, map, take, drop, vec_len, vec_capacity};
ghost use Rattle.misp_effects.specs.KeeperStates.{AreKept, OneFailed};
ghost use Rattle.misp_core.specs.Standing.{host_of};
ghost use Rattle.misp_net.specs.Hosts.{described_host};
ghost use Rattle.misp_net.specs.Opening.{AreKeptOrOpened, AreOpened, opened_states};
ghost use Rattle.misp_net.specs.Running.{hosts_of, state_of, states_of, fault_of};
ghost use Rattle.misp_store.specs.Sharing.{WereSound, may_be_unsound};

use misp_core::{Instance, LoadFault};
use misp_ids::NoMemory;
use misp_outside::Keeper;
use misp_script::Entry;
use std::alloc::{AllocError, Global};

/// Why a run ends without its lines.
#[derive(Clone, Copy, PartialEq, Eq)]
pub enum NetFault {
    /// A keeper failed while an instance was opened.
    KeeperFault,
    /// A row does not decode, or one of the administration is neither a group nor an item.
    BadRow,
    NoMemory,
}

impl From<AllocError> for NetFault {
    ghost use Rattle.misp_net.specs.declared.places.NetFault.TheVariants.{NoMemory};

    ghost from_gives = { λ _ fault. fault ≡ NoMemory };

    fn from(_error: AllocError) -> NetFault {
        NetFault::NoMemory
    }
}

impl From<NoMemory> for NetFault {
    ghost use Rattle.misp_net.specs.declared.places.NetFault.TheVariants.{NoMemory};

    ghost from_gives = { λ _ fault. fault ≡ NoMemory };

    fn from(_error: NoMemory) -> NetFault {
        NetFault::NoMemory
    }
}

// Why a network does not open, by why an instance does not.
fn fault_of(fault: LoadFault) -> NetFault
    ensures { result ≡ fault_of fault }
{
    match fault {
        LoadFault::KeeperFault => NetFault::KeeperFault,
        LoadFault::BadRow { .. } => NetFault::BadRow,
        LoadFault::NoMemory => NetFault::NoMemory,
    }
}

/// Opens an instance over the first keeper, which leaves the vector unless there is a fault.
pub fn open_first<K: Keeper>(
    alloc: Global,
    keepers: &mut Vec<K>,
    entry: Entry,
) -> Result<Instance<K>, NetFault>
    requires { 0 < vec_len keepers.old }
    ensures host { IfOk result (λ instance. AreOpened (described_host entry ∷ [])
        (state_of instance ∷ []) (state_of instance ∷ []) (host_of instance ∷ [])) }
    ensures opened { IfOk result (λ instance. AreKept
        (opened_states (take 1 (map K.state keepers.old.items))) (state_of instance ∷ [])) }
    ensures sound { IfOk result (λ instance.
        WereSound (take 1 (map K.state keepers.old.items)) (state_of instance ∷ [])) }
    ensures rest { OnOk result (map K.state keepers.new.items
        ≡ drop 1 (map K.state keepers.old.items)) }
    ensures fewer { OnOk result (1 + vec_len keepers.new ≡ vec_len keepers.old) }
    ensures back { OnErr result (AreKept (take 1 (map K.state keepers.old.items))
        (take 1 (map K.state keepers.new.items))) }
    ensures others { OnErr result (drop 1 (map K.state keepers.new.items)
        ≡ drop 1 (map K.state keepers.old.items)) }
    ensures places { OnErr result (vec_len keepers.new ≡ vec_len keepers.old) }
    ensures bad_row { result ≡ Err NetFault.BadRow →
        may_be_unsound (take 1 (map K.state keepers.new.items)) ≡ true }
    ensures keeper { result ≡ Err NetFault.KeeperFault →
        OneFailed (take 1 (map K.state keepers.old.items))
        (take 1 (map K.state keepers.new.items)) }
    ensures room { vec_capacity keepers.new ≡ vec_capacity keepers.old }
{
    match Instance::open(alloc, entry.name, entry.admin, take_first(keepers)) {
        Ok(instance) => Ok(instance),
        Err((fault, keeper)) => {
            put_first(keepers, keeper);
            Err(fault_of(fault))
        }
    }
}

/// Opens the instances of a description over the first keepers, which leave the vector. After a
/// fault each is back in its place.
pub(crate) fn open_all<K: Keeper>(
    alloc: Global,
    keepers: &mut Vec<K>,
    entries: Vec<Entry>,
) -> Result<Vec<Instance<K>>, NetFault>
    requires { vec_len entries ≤ vec_len keepers.old }
    ensures hosts { IfOk result (λ instances. AreOpened (map described_host entries.items)
        (states_of instances.items) (states_of instances.items) (hosts_of instances.items)) }
    ensures opened { IfOk result (λ instances. AreKept
        (opened_states (take (vec_len entries) (map K.state keepers.old.items)))
        (states_of instances.items)) }
    ensures rest { OnOk result (map K.state keepers.new.items
        ≡ drop (vec_len entries) (map K.state keepers.old.items)) }
    ensures sound { IfOk result (λ instances. WereSound
        (take (vec_len entries) (map K.state keepers.old.items)) (states_of instances.items)) }
    ensures fewer { IfOk result (λ instances.
        vec_len instances + vec_len keepers.new ≡ vec_len keepers.old) }
    ensures room { OnOk result (vec_len keepers.old ≤ vec_capacity keepers.new) }
    ensures back { OnErr result
        (AreKeptOrOpened (map K.state keepers.old.items) (map K.state keepers.new.items)) }
    ensures places { OnErr result (vec_len keepers.new ≡ vec_len keepers.old) }
    ensures others { OnErr result
        (drop (vec_len entries) (map K.state keepers.new.items)
        ≡ drop (vec_len entries) (map K.state keepers.old.items)) }
    ensures bad_row { result ≡ Err NetFault.BadRow →
        may_be_unsound (take (vec_len entries) (map K.state keepers.new.items)) ≡ true }
    ensures keeper { result ≡ Err NetFault.KeeperFault →
        OneFailed (take (vec_len entries) (map K.state keepers.old.items))
        (take (vec_len entries) (map K.state keepers.new.items)) }
{
    let mut instances = Vec::with_capacity(alloc, entries.len())?;
    for entry in entries {
        match open_first(alloc, keepers, entry) {
            Ok(instance) => instances.push(instance).unwrap(),
            Err(fault) => {
                close_all(instances, keepers);
                return Err(fault);
            }
        }
    }
    Ok(instances)
}

/// Puts the keeper of an instance back in front of the others.
pub fn close_first<K: Keeper>(instance: Instance<K>, keepers: &mut Vec<K>)
    requires { vec_len keepers.old < vec_capacity keepers.old }
    ensures keepers { map K.state keepers.new.items
        ≡ state_of instance ∷ map K.state keepers.old.items }
    ensures places { vec_len keepers.new ≡ 1 + vec_len keepers.old }
{
    put_first(keepers, instance.into_keeper());
}

/// Puts the keepers of instances back in front of the others.
pub(crate) fn close_all<K: Keeper>(mut instances: Vec<Instance<K>>, keepers: &mut Vec<K>)
    requires { vec_len instances + vec_len keepers.old ≤ vec_capacity keepers.old }
    ensures { map K.state keepers.new.items
        ≡ states_of instances.items ++ map K.state keepers.old.items }
{
    while let Some(instance) = instances.pop() {
        put_first(keepers, instance.into_keeper());
    }
}

#[tactic(auto, using(crate::proofs::Kept::first_and_rest))]
fn take_first<K: Drop>(keepers: &mut Vec<K>) -> K
    requires { 0 < vec_len keepers.old }
    ensures first { keepers.old.items ≡ result ∷ keepers.new.items }
    ensures room { vec_capacity keepers.new ≡ vec_capacity keepers.old }
{
    keepers.remove(0)
}

fn put_first<K: Drop>(keepers: &mut Vec<K>, keeper: K)
    requires { vec_len keepers.old < vec_capacity keepers.old }
    ensures first { keepers.new.items ≡ keeper ∷ keepers.old.items }
    ensures room { vec_capacity keepers.new ≡ vec_capacity keepers.old }
{
    keepers.insert(0, keeper).unwrap();
}
