//! Rows that are sought by their names: one name, those of some keys, and those that begin so.

ghost use Rattle.std.specs.Prelude.{◌≡◌, ◌++◌, ◌∷◌, [], Err, filter, bytes_eq, slice_index, IfOk, IfSome, OnOk};
ghost use Rattle.misp_outside.specs.Causes.{HasCause, StaysUnless};
ghost use Rattle.misp_outside.specs.Reporting.{StaysHeld};
ghost use Rattle.misp_outside.specs.Held.{rows_named};
ghost use Rattle.misp_elem.specs.Fields.{IsBytes};
ghost use Rattle.misp_elem.specs.Parents.{event_key};
ghost use Rattle.misp_elem.specs.Spelling.{name, uid};
ghost use Rattle.misp_store.specs.Seeking.{IsFirstHeld, rows_at, rows_of_keys};
ghost use Rattle.misp_store.specs.Seen.{kind_front, front_number, place_front};

use crate::looking::element_key;
use misp_elem::{Key, NoMemory, Place, encode_name};
use misp_ids::{EventId, OrgId, Uid};
use misp_outside::{Keeper, KeeperFault, RawRow};
use std::alloc::Global;
use std::cmp::Ordering;

// ---- its first bytes

// A byte of a name, and 0 after its end.
fn byte_at(name: &[u8], at: usize) -> u8
    ensures { result ≡ slice_index name.now at }
{
    match name.get(at) {
        Some(byte) => *byte,
        None => 0,
    }
}

/// The number of the first 16 bytes of a name.
#[tactic(auto, unfolding(crate::specs::Seen::front_number))]
pub(crate) fn front_number(name: &[u8]) -> u128
    ensures number { result ≡ front_number name.now }
    ensures bytes { IsBytes name.now }
{
    let mut bytes = [0u8; 16];
    for at in 0..16 {
        bytes[at] = byte_at(name, at);
    }
    u128::from_be_bytes(bytes)
}

// ---- one name

// Adds the row, where this is its name.
fn add_named(found: &mut Vec<RawRow>, row: RawRow, name: &[u8]) -> Result<(), NoMemory>
    ensures { OnOk result (found.new.items
        ≡ found.old.items ++ filter (λ raw. bytes_eq raw.name name.now) (row ∷ [])) }
{
    if row.name.as_slice() == name {
        Ok(found.push(row)?)
    } else {
        drop(row);
        Ok(())
    }
}

/// Adds the row of this name, where there is one.
pub(crate) fn add_row<K: Keeper>(
    keeper: &mut K,
    alloc: Global,
    event: &EventId,
    name: &[u8],
    found: &mut Vec<RawRow>,
) -> Result<(), KeeperFault>
    ensures found { OnOk result (IfSome (K.state keeper.new).held (λ held.
        found.new.items ≡ found.old.items ++ rows_at event.now name.now held.rows)) }
    ensures held { StaysHeld (K.state keeper.old).held (K.state keeper.new).held }
    ensures cause { HasCause (K.state keeper.old).faults (K.state keeper.new).faults
        (result ≡ Err KeeperFault.Failed) }
    ensures stays { StaysUnless (K.state keeper.old).faults (K.state keeper.new).faults
        (result ≡ Err KeeperFault.Failed) }
{
    match keeper.load_next(alloc, event, name)? {
        Some(row) => Ok(add_named(found, row, name)?),
        None => Ok(()),
    }
}

/// Adds the owner's rows of these keys.
pub(crate) fn add_keys<K: Keeper>(
    keeper: &mut K,
    alloc: Global,
    event: &EventId,
    owner: &OrgId,
    keys: &[Key],
    found: &mut Vec<RawRow>,
) -> Result<(), KeeperFault>
    ensures found { OnOk result (IfSome (K.state keeper.new).held (λ held. found.new.items
        ≡ found.old.items ++ rows_of_keys event.now owner.now keys.now held.rows)) }
    ensures held { StaysHeld (K.state keeper.old).held (K.state keeper.new).held }
    ensures cause { HasCause (K.state keeper.old).faults (K.state keeper.new).faults
        (result ≡ Err KeeperFault.Failed) }
    ensures stays { StaysUnless (K.state keeper.old).faults (K.state keeper.new).faults
        (result ≡ Err KeeperFault.Failed) }
{
    for key in keys {
        let name = encode_name(alloc, owner, key)?;
        add_row(keeper, alloc, event, name.as_slice(), found)?;
    }
    Ok(())
}

// Adds the owner's row of this key, where there is one. `first` is the first row that the owner may
// have, and is sought no more.
fn add_key<K: Keeper>(
    keeper: &mut K,
    alloc: Global,
    event: &EventId,
    owner: &OrgId,
    key: &Key,
    first: RawRow,
    found: &mut Vec<RawRow>,
) -> Result<(), KeeperFault>
    requires { IsFirstHeld event.now owner.now first (K.state keeper.old).held }
    ensures found { OnOk result (IfSome (K.state keeper.new).held (λ held. found.new.items
        ≡ found.old.items ++ rows_at event.now (name owner.now key.now) held.rows)) }
    ensures held { StaysHeld (K.state keeper.old).held (K.state keeper.new).held }
    ensures cause { HasCause (K.state keeper.old).faults (K.state keeper.new).faults
        (result ≡ Err KeeperFault.Failed) }
    ensures stays { StaysUnless (K.state keeper.old).faults (K.state keeper.new).faults
        (result ≡ Err KeeperFault.Failed) }
{
    let name = encode_name(alloc, owner, key)?;
    match first.name.as_slice().cmp(name.as_slice()) {
        Ordering::Less => {
            drop(first);
            add_row(keeper, alloc, event, name.as_slice(), found)
        }
        Ordering::Equal => Ok(found.push(first)?),
        Ordering::Greater => {
            drop(first);
            Ok(())
        }
    }
}

/// Adds the event's own row, as the owner has it, where `first` is the first row of the owner.
#[tactic(auto, unfolding(misp_elem::specs::Parents::event_key))]
pub(crate) fn add_event<K: Keeper>(
    keeper: &mut K,
    alloc: Global,
    event: &EventId,
    owner: &OrgId,
    first: RawRow,
    found: &mut Vec<RawRow>,
) -> Result<(), KeeperFault>
    requires { IsFirstHeld event.now owner.now first (K.state keeper.old).held }
    ensures found { OnOk result (IfSome (K.state keeper.new).held (λ held. found.new.items
        ≡ found.old.items ++ rows_at event.now (name owner.now (event_key event.now)) held.rows)) }
    ensures held { StaysHeld (K.state keeper.old).held (K.state keeper.new).held }
    ensures cause { HasCause (K.state keeper.old).faults (K.state keeper.new).faults
        (result ≡ Err KeeperFault.Failed) }
    ensures stays { StaysUnless (K.state keeper.old).faults (K.state keeper.new).faults
        (result ≡ Err KeeperFault.Failed) }
{
    let key = element_key(*event, Place::Event);
    add_key(keeper, alloc, event, owner, &key, first, found)
}

/// Adds the owner's rows of these keys, where `first` is the first row of the owner.
pub(crate) fn add_keys_from<K: Keeper>(
    keeper: &mut K,
    alloc: Global,
    event: &EventId,
    owner: &OrgId,
    keys: &[Key],
    first: RawRow,
    found: &mut Vec<RawRow>,
) -> Result<(), KeeperFault>
    requires { IsFirstHeld event.now owner.now first (K.state keeper.old).held }
    ensures found { OnOk result (IfSome (K.state keeper.new).held (λ held. found.new.items
        ≡ found.old.items ++ rows_of_keys event.now owner.now keys.now held.rows)) }
    ensures held { StaysHeld (K.state keeper.old).held (K.state keeper.new).held }
    ensures cause { HasCause (K.state keeper.old).faults (K.state keeper.new).faults
        (result ≡ Err KeeperFault.Failed) }
    ensures stays { StaysUnless (K.state keeper.old).faults (K.state keeper.new).faults
        (result ≡ Err KeeperFault.Failed) }
{
    match keys {
        [key, others @ ..] => {
            add_key(keeper, alloc, event, owner, key, first, found)?;
            add_keys(keeper, alloc, event, owner, others, found)
        }
        [] => {
            drop(first);
            Ok(())
        }
    }
}

// ---- names that begin so

#[tactic(auto, unfolding(misp_elem::specs::Spelling::uid))]
fn put_uid(front: &mut Vec<u8>, id: Uid) -> Result<(), NoMemory>
    ensures { OnOk result (front.new.items ≡ front.old.items ++ uid id) }
{
    Ok(front.extend_from_slice(&id.0.to_be_bytes())?)
}

/// What the names of the owner's rows of one kind begin with.
pub(crate) fn kind_front(
    alloc: Global,
    owner: &OrgId,
    event: &EventId,
    kind: u8,
) -> Result<Vec<u8>, NoMemory>
    ensures { IfOk result (λ front. front.items ≡ kind_front owner.now event.now kind) }
{
    let mut front = Vec::with_capacity(alloc, 34)?;
    put_uid(&mut front, owner.0)?;
    front.push(kind)?;
    put_uid(&mut front, event.0)?;
    Ok(front)
}

/// What those of its elements at places of one form begin with.
pub(crate) fn place_front(
    alloc: Global,
    owner: &OrgId,
    event: &EventId,
    form: u8,
) -> Result<Vec<u8>, NoMemory>
    ensures { IfOk result (λ front. front.items ≡ place_front owner.now event.now form) }
{
    let mut front = kind_front(alloc, owner, event, 0)?;
    front.push(form)?;
    Ok(front)
}

/// Adds the rows whose names begin so.
pub(crate) fn add_front<K: Keeper>(
    keeper: &mut K,
    alloc: Global,
    event: &EventId,
    front: &[u8],
    found: &mut Vec<RawRow>,
) -> Result<(), KeeperFault>
    ensures found { OnOk result (IfSome (K.state keeper.new).held (λ held. found.new.items
        ≡ found.old.items ++ rows_named event.now front.now held.rows)) }
    ensures held { StaysHeld (K.state keeper.old).held (K.state keeper.new).held }
    ensures cause { HasCause (K.state keeper.old).faults (K.state keeper.new).faults
        (result ≡ Err KeeperFault.Failed) }
    ensures stays { StaysUnless (K.state keeper.old).faults (K.state keeper.new).faults
        (result ≡ Err KeeperFault.Failed) }
{
    let mut rows = keeper.load_named(alloc, event, front)?;
    found.append(&mut rows)?;
    Ok(())
}
