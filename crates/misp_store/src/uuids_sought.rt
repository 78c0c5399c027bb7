//! Rows that are sought by the uuids in their names.

ghost use Rattle.std.specs.Prelude.{◌≡◌, ◌<◌, ◌^◌, ℕ, ◌++◌, Bool, Err, map, IfOk, IfSome, OnOk};
ghost use Rattle.std.specs.List.{AllByRecursion, list_any};
ghost use Rattle.std.specs.Ordering.{nat_cmp};
ghost use Rattle.std.specs.List.Sorted.{IsStrictlySortedBy};
ghost use Rattle.misp_outside.specs.Causes.{HasCause, StaysUnless};
ghost use Rattle.misp_outside.specs.Reporting.{StaysHeld};
ghost use Rattle.misp_store.specs.Seeking.{IsFirstHeld, elem_of, ends_among, rows_ending, rows_of_uuids};
ghost use Rattle.misp_store.specs.Seen.{attributes_of, end_number};

use crate::looking::element_key;
use crate::names_sought::{add_event, add_front, add_keys, front_number, kind_front, place_front};
use misp_elem::{Key, NoMemory, Place};
use misp_ids::{ElemId, EventId, OrgId, Uid};
use misp_outside::{Keeper, KeeperFault, RawRow};
use std::alloc::Global;

// ---- numbers

fn numbers(alloc: Global, uuids: &[ElemId]) -> Result<Vec<u128>, NoMemory>
    ensures value { IfOk result (λ numbers. numbers.items ≡ map (λ u. u.0.0) uuids.now) }
    ensures fit { IfOk result (λ numbers. AllByRecursion (λ n. n < 2 ^ 128) numbers.items) }
{
    let mut numbers = Vec::with_capacity(alloc, uuids.len())?;
    for uuid in uuids {
        numbers.push(uuid.0.0)?;
    }
    Ok(numbers)
}

/// The numbers of the uuids in order, each once.
pub(crate) fn numbers_in_order(alloc: Global, uuids: &[ElemId]) -> Result<Vec<u128>, NoMemory>
    ensures ascend { IfOk result (λ numbers. IsStrictlySortedBy nat_cmp numbers.items) }
    ensures fit { IfOk result (λ numbers. AllByRecursion (λ n. n < 2 ^ 128) numbers.items) }
    ensures same { IfOk result (λ numbers. (p : ℕ → Bool) →
        list_any p numbers.items ≡ list_any (λ u. p u.0.0) uuids.now) }
{
    let mut numbers = numbers(alloc, uuids)?;
    numbers.sort_unstable();
    numbers.dedup();
    Ok(numbers)
}

// ---- rows that end with a uuid

// The number of the last 16 bytes of a name.
#[tactic(auto, unfolding(crate::specs::Seen::end_number, crate::specs::Seen::front_number))]
fn end_number(name: &[u8]) -> u128
    ensures { result ≡ end_number name.now }
{
    front_number(&name[name.len().saturating_sub(16)..])
}

// Whether the name of a row ends with one of the numbers, which ascend.
fn ends_among(numbers: &[u128], row: &RawRow) -> bool
    requires { IsStrictlySortedBy nat_cmp numbers.now }
    ensures { result ≡ ends_among numbers.now row.now }
{
    let end = end_number(row.name.as_slice());
    numbers.binary_search_by(|number| number.cmp(&end)).is_ok()
}

// Adds the rows that begin so and end with one of the numbers.
fn add_ending<K: Keeper>(
    keeper: &mut K,
    alloc: Global,
    event: &EventId,
    front: &[u8],
    numbers: &[u128],
    found: &mut Vec<RawRow>,
) -> Result<(), KeeperFault>
    requires { IsStrictlySortedBy nat_cmp numbers.now }
    ensures found { OnOk result (IfSome (K.state keeper.new).held (λ held. found.new.items
        ≡ found.old.items ++ rows_ending event.now front.now numbers.now held.rows)) }
    ensures held { StaysHeld (K.state keeper.old).held (K.state keeper.new).held }
    ensures cause { HasCause (K.state keeper.old).faults (K.state keeper.new).faults
        (result ≡ Err KeeperFault.Failed) }
    ensures stays { StaysUnless (K.state keeper.old).faults (K.state keeper.new).faults
        (result ≡ Err KeeperFault.Failed) }
{
    let mut rows = keeper.load_named(alloc, event, front)?;
    rows.retain(|row| ends_among(numbers, row));
    found.append(&mut rows)?;
    Ok(())
}

// ---- rows by uuids

// The keys of the attributes of these numbers that are in no object.
fn attribute_keys(alloc: Global, event: &EventId, numbers: &[u128]) -> Result<Vec<Key>, NoMemory>
    ensures { IfOk result (λ keys.
        keys.items ≡ attributes_of event.now (map elem_of numbers.now)) }
{
    let mut keys = Vec::with_capacity(alloc, numbers.len())?;
    for number in numbers {
        keys.push(element_key(*event, Place::Attribute(ElemId(Uid(*number)))))?;
    }
    Ok(keys)
}

/// Adds the event's own row, those of its objects, and those of the attributes and references of
/// these numbers, where `first` is the first row of the owner.
pub(crate) fn add_uuids<K: Keeper>(
    keeper: &mut K,
    alloc: Global,
    event: &EventId,
    owner: &OrgId,
    numbers: &[u128],
    first: RawRow,
    found: &mut Vec<RawRow>,
) -> Result<(), KeeperFault>
    requires first { IsFirstHeld event.now owner.now first (K.state keeper.old).held }
    requires sorted { IsStrictlySortedBy nat_cmp numbers.now }
    requires fit { AllByRecursion (λ n. n < 2 ^ 128) numbers.now }
    ensures found { OnOk result (IfSome (K.state keeper.new).held (λ held. found.new.items
        ≡ found.old.items ++ rows_of_uuids event.now owner.now numbers.now held.rows)) }
    ensures held { StaysHeld (K.state keeper.old).held (K.state keeper.new).held }
    ensures cause { HasCause (K.state keeper.old).faults (K.state keeper.new).faults
        (result ≡ Err KeeperFault.Failed) }
    ensures stays { StaysUnless (K.state keeper.old).faults (K.state keeper.new).faults
        (result ≡ Err KeeperFault.Failed) }
{
    add_event(keeper, alloc, event, owner, first, found)?;
    let objects = place_front(alloc, owner, event, 1)?;
    add_front(keeper, alloc, event, objects.as_slice(), found)?;
    let attributes = attribute_keys(alloc, event, numbers)?;
    add_keys(keeper, alloc, event, owner, attributes.as_slice(), found)?;
    let within = place_front(alloc, owner, event, 3)?;
    add_ending(keeper, alloc, event, within.as_slice(), numbers, found)?;
    let references = kind_front(alloc, owner, event, 1)?;
    add_ending(keeper, alloc, event, references.as_slice(), numbers, found)?;
    Ok(())
}
