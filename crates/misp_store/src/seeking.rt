//! What a request looks at, as it is sought in what a keeper holds: of each owner what is looked at
//! of it, and from one owner to the next that has a row of the event.

ghost use Rattle.std.specs.Prelude.{◌≡◌, ◌==◌, ◌<◌, ◌++◌, [], false, Err, Some, IfOk, IfSome, IsTrue, OnOk};
ghost use Rattle.misp_lists.specs.Order.{ascend};
ghost use Rattle.misp_outside.specs.Causes.{HasCause, StaysUnless};
ghost use Rattle.misp_outside.specs.Reporting.{StaysHeld};
ghost use Rattle.misp_outside.specs.Held.{comes_before, rows_named};
ghost use Rattle.misp_ids.specs.Uid.{IsUid};
ghost use Rattle.misp_elem.specs.Fields.{IsBytes};
ghost use Rattle.misp_elem.specs.Spelling.{uid};
ghost use Rattle.misp_store.specs.Seeking.{HasKeysInOrder, IsFirstHeld, IsLookInOrder, is_own_alone, rows_from, rows_in_look, rows_of_statements};
ghost use Rattle.misp_store.specs.Seen.{front_number, kind_front, look_at, rows_looked};

use crate::names_sought::{
    add_event, add_front, add_keys, add_keys_from, front_number, kind_front,
};
use crate::uuids_sought::{add_uuids, numbers_in_order};
use misp_ids::{EventId, OrgId, Uid};
use misp_model::{Look, Looks};
use misp_outside::{Keeper, KeeperFault, RawRow};
use std::alloc::Global;

// ---- what is looked at of one owner

// Adds all rows that the owner has of the event.
#[tactic(auto, unfolding(misp_elem::specs::Spelling::uid))]
fn add_all<K: Keeper>(
    keeper: &mut K,
    alloc: Global,
    event: &EventId,
    owner: &OrgId,
    found: &mut Vec<RawRow>,
) -> Result<(), KeeperFault>
    ensures found { OnOk result (IfSome (K.state keeper.new).held (λ held. found.new.items
        ≡ found.old.items ++ rows_named event.now (uid owner.now.0) held.rows)) }
    ensures held { StaysHeld (K.state keeper.old).held (K.state keeper.new).held }
    ensures cause { HasCause (K.state keeper.old).faults (K.state keeper.new).faults
        (result ≡ Err KeeperFault.Failed) }
    ensures stays { StaysUnless (K.state keeper.old).faults (K.state keeper.new).faults
        (result ≡ Err KeeperFault.Failed) }
{
    let front = owner.0.0.to_be_bytes();
    add_front(keeper, alloc, event, front.as_slice(), found)
}

// Adds the rows that the owner has of one kind.
fn add_kind<K: Keeper>(
    keeper: &mut K,
    alloc: Global,
    event: &EventId,
    owner: &OrgId,
    kind: u8,
    found: &mut Vec<RawRow>,
) -> Result<(), KeeperFault>
    ensures found { OnOk result (IfSome (K.state keeper.new).held (λ held. found.new.items
        ≡ found.old.items
        ++ rows_named event.now (kind_front owner.now event.now kind) held.rows)) }
    ensures held { StaysHeld (K.state keeper.old).held (K.state keeper.new).held }
    ensures cause { HasCause (K.state keeper.old).faults (K.state keeper.new).faults
        (result ≡ Err KeeperFault.Failed) }
    ensures stays { StaysUnless (K.state keeper.old).faults (K.state keeper.new).faults
        (result ≡ Err KeeperFault.Failed) }
{
    let front = kind_front(alloc, owner, event, kind)?;
    add_front(keeper, alloc, event, front.as_slice(), found)
}

// Whether the name of a row begins with the owner.
fn is_of(owner: &OrgId, row: &RawRow) -> bool
    ensures number { result ≡ (front_number row.now.name == owner.now.0.0) }
    ensures bytes { IsBytes row.now.name }
    ensures fits { IsUid owner.now.0 }
{
    let number = owner.0.0;
    front_number(row.name.as_slice()) == number
}

// Whether the owner may have rows of statements: the first row from their names on is of the owner.
fn may_have_statements<K: Keeper>(
    keeper: &mut K,
    alloc: Global,
    event: &EventId,
    owner: &OrgId,
) -> Result<bool, KeeperFault>
    ensures none { IfOk result (λ may. IfSome (K.state keeper.new).held (λ held.
        may ≡ false → rows_of_statements event.now owner.now held.rows ≡ [])) }
    ensures held { StaysHeld (K.state keeper.old).held (K.state keeper.new).held }
    ensures cause { HasCause (K.state keeper.old).faults (K.state keeper.new).faults
        (result ≡ Err KeeperFault.Failed) }
    ensures stays { StaysUnless (K.state keeper.old).faults (K.state keeper.new).faults
        (result ≡ Err KeeperFault.Failed) }
{
    let front = kind_front(alloc, owner, event, 2)?;
    match keeper.load_next(alloc, event, front.as_slice())? {
        Some(row) => {
            let is_of_owner = is_of(owner, &row);
            drop(row);
            Ok(is_of_owner)
        }
        None => Ok(false),
    }
}

// Adds the rows of the owner's three kinds of statements.
fn add_kinds<K: Keeper>(
    keeper: &mut K,
    alloc: Global,
    event: &EventId,
    owner: &OrgId,
    found: &mut Vec<RawRow>,
) -> Result<(), KeeperFault>
    ensures found { OnOk result (IfSome (K.state keeper.new).held (λ held.
        IsTrue (ascend comes_before held.rows) → found.new.items
        ≡ found.old.items ++ rows_of_statements event.now owner.now held.rows)) }
    ensures held { StaysHeld (K.state keeper.old).held (K.state keeper.new).held }
    ensures cause { HasCause (K.state keeper.old).faults (K.state keeper.new).faults
        (result ≡ Err KeeperFault.Failed) }
    ensures stays { StaysUnless (K.state keeper.old).faults (K.state keeper.new).faults
        (result ≡ Err KeeperFault.Failed) }
{
    add_kind(keeper, alloc, event, owner, 2, found)?;
    add_kind(keeper, alloc, event, owner, 3, found)?;
    add_kind(keeper, alloc, event, owner, 4, found)
}

// Adds the rows of the owner's statements.
fn add_statements<K: Keeper>(
    keeper: &mut K,
    alloc: Global,
    event: &EventId,
    owner: &OrgId,
    found: &mut Vec<RawRow>,
) -> Result<(), KeeperFault>
    ensures found { OnOk result (IfSome (K.state keeper.new).held (λ held.
        IsTrue (ascend comes_before held.rows) → found.new.items
        ≡ found.old.items ++ rows_of_statements event.now owner.now held.rows)) }
    ensures held { StaysHeld (K.state keeper.old).held (K.state keeper.new).held }
    ensures cause { HasCause (K.state keeper.old).faults (K.state keeper.new).faults
        (result ≡ Err KeeperFault.Failed) }
    ensures stays { StaysUnless (K.state keeper.old).faults (K.state keeper.new).faults
        (result ≡ Err KeeperFault.Failed) }
{
    if may_have_statements(keeper, alloc, event, owner)? {
        add_kinds(keeper, alloc, event, owner, found)
    } else {
        Ok(())
    }
}

// Adds the rows of the owner that are looked at, where `first` is the first row that it may have.
fn add_look<K: Keeper>(
    keeper: &mut K,
    alloc: Global,
    look: &Look,
    event: &EventId,
    owner: &OrgId,
    first: RawRow,
    found: &mut Vec<RawRow>,
) -> Result<(), KeeperFault>
    requires order { IsLookInOrder look.now }
    requires first { IsFirstHeld event.now owner.now first (K.state keeper.old).held }
    ensures found { OnOk result (IfSome (K.state keeper.new).held (λ held. found.new.items
        ≡ found.old.items ++ rows_in_look look.now event.now owner.now held.rows)) }
    ensures held { StaysHeld (K.state keeper.old).held (K.state keeper.new).held }
    ensures cause { HasCause (K.state keeper.old).faults (K.state keeper.new).faults
        (result ≡ Err KeeperFault.Failed) }
    ensures stays { StaysUnless (K.state keeper.old).faults (K.state keeper.new).faults
        (result ≡ Err KeeperFault.Failed) }
{
    match look {
        Look::Keys(keys) => {
            add_keys_from(keeper, alloc, event, owner, keys.as_slice(), first, found)
        }
        Look::Uuids { uuids, keys } => {
            let numbers = numbers_in_order(alloc, uuids.as_slice())?;
            add_uuids(
                keeper,
                alloc,
                event,
                owner,
                numbers.as_slice(),
                first,
                found,
            )?;
            add_keys(keeper, alloc, event, owner, keys.as_slice(), found)
        }
        Look::Statements => {
            add_event(keeper, alloc, event, owner, first, found)?;
            add_statements(keeper, alloc, event, owner, found)
        }
        Look::All => {
            drop(first);
            add_all(keeper, alloc, event, owner, found)
        }
    }
}

// How the rows of an owner are looked at.
#[tactic(auto, unfolding(misp_ids::specs::Same::same_org))]
fn look_at<'a>(looks: &'a Looks, owner: &OrgId) -> &'a Look
    requires { HasKeysInOrder looks.now }
    ensures look { result.now ≡ look_at looks.now owner.now }
    ensures order { IsLookInOrder result.now }
{
    if owner.0.0 == looks.of.0.0 {
        &looks.own
    } else {
        &looks.others
    }
}

// ---- one owner after the other

// Adds what is looked at of the first owner that is not before this one, and gives the number after
// that owner's.
fn add_next<K: Keeper>(
    keeper: &mut K,
    alloc: Global,
    looks: &Looks,
    least: u128,
    found: &mut Vec<RawRow>,
) -> Result<Option<u128>, KeeperFault>
    requires { HasKeysInOrder looks.now }
    ensures found { IfOk result (λ next. IfSome (K.state keeper.new).held (λ held.
        found.new.items ++ rows_from looks.now next held.rows
        ≡ found.old.items ++ rows_from looks.now (Some least) held.rows)) }
    ensures order { IfOk result (λ _. IfSome (K.state keeper.new).held
        (λ held. IsTrue (ascend comes_before held.rows))) }
    ensures more { IfOk result (λ next. IfSome next (λ next. least < next)) }
    ensures held { StaysHeld (K.state keeper.old).held (K.state keeper.new).held }
    ensures cause { HasCause (K.state keeper.old).faults (K.state keeper.new).faults
        (result ≡ Err KeeperFault.Failed) }
    ensures stays { StaysUnless (K.state keeper.old).faults (K.state keeper.new).faults
        (result ≡ Err KeeperFault.Failed) }
{
    let from = least.to_be_bytes();
    match keeper.load_next(alloc, &looks.event, from.as_slice())? {
        Some(first) => {
            let number = front_number(first.name.as_slice());
            let owner = OrgId(Uid(number.max(least)));
            let look = look_at(looks, &owner);
            add_look(keeper, alloc, look, &looks.event, &owner, first, found)?;
            Ok(owner.0.0.checked_add(1))
        }
        None => Ok(None),
    }
}

// Whether of the rows of others none is looked at.
fn is_own_alone(looks: &Looks) -> bool
    ensures { result ≡ is_own_alone looks.now }
{
    match &looks.others {
        Look::Keys(keys) => keys.as_slice().is_empty(),
        _ => false,
    }
}

// The own rows that are looked at, where those of others are not.
fn seek_own<K: Keeper>(
    keeper: &mut K,
    alloc: Global,
    looks: &Looks,
) -> Result<Vec<RawRow>, KeeperFault>
    requires order { HasKeysInOrder looks.now }
    requires alone { IsTrue (is_own_alone looks.now) }
    ensures found { IfOk result (λ found. IfSome (K.state keeper.new).held
        (λ held. found.items ≡ rows_looked looks.now held.rows)) }
    ensures order { IfOk result (λ found. IfSome (K.state keeper.new).held
        (λ _. IsTrue (ascend comes_before found.items))) }
    ensures held { StaysHeld (K.state keeper.old).held (K.state keeper.new).held }
    ensures cause { HasCause (K.state keeper.old).faults (K.state keeper.new).faults
        (result ≡ Err KeeperFault.Failed) }
    ensures stays { StaysUnless (K.state keeper.old).faults (K.state keeper.new).faults
        (result ≡ Err KeeperFault.Failed) }
{
    let mut found = Vec::new(alloc);
    add_next(keeper, alloc, looks, looks.of.0.0, &mut found)?;
    Ok(found)
}

// The rows that are looked at, of one owner after the other.
fn seek_all<K: Keeper>(
    keeper: &mut K,
    alloc: Global,
    looks: &Looks,
) -> Result<Vec<RawRow>, KeeperFault>
    requires { HasKeysInOrder looks.now }
    ensures found { IfOk result (λ found. IfSome (K.state keeper.new).held
        (λ held. found.items ≡ rows_looked looks.now held.rows)) }
    ensures order { IfOk result (λ found. IfSome (K.state keeper.new).held
        (λ _. IsTrue (ascend comes_before found.items))) }
    ensures held { StaysHeld (K.state keeper.old).held (K.state keeper.new).held }
    ensures cause { HasCause (K.state keeper.old).faults (K.state keeper.new).faults
        (result ≡ Err KeeperFault.Failed) }
    ensures stays { StaysUnless (K.state keeper.old).faults (K.state keeper.new).faults
        (result ≡ Err KeeperFault.Failed) }
{
    let mut found = Vec::new(alloc);
    let mut least = Some(0);
    while let Some(from) = least {
        least = add_next(keeper, alloc, looks, from, &mut found)?;
    }
    Ok(found)
}

/// The rows of an event that are looked at.
pub(crate) fn seek<K: Keeper>(
    keeper: &mut K,
    alloc: Global,
    looks: &Looks,
) -> Result<Vec<RawRow>, KeeperFault>
    requires { HasKeysInOrder looks.now }
    ensures found { IfOk result (λ found. IfSome (K.state keeper.new).held
        (λ held. found.items ≡ rows_looked looks.now held.rows)) }
    ensures order { IfOk result (λ found. IfSome (K.state keeper.new).held
        (λ _. IsTrue (ascend comes_before found.items))) }
    ensures held { StaysHeld (K.state keeper.old).held (K.state keeper.new).held }
    ensures cause { HasCause (K.state keeper.old).faults (K.state keeper.new).faults
        (result ≡ Err KeeperFault.Failed) }
    ensures stays { StaysUnless (K.state keeper.old).faults (K.state keeper.new).faults
        (result ≡ Err KeeperFault.Failed) }
{
    if is_own_alone(looks) {
        seek_own(keeper, alloc, looks)
    } else {
        seek_all(keeper, alloc, looks)
    }
}
