//! Groups that arrive by a synchronisation, and are taken.

ghost use Rattle.std.specs.Prelude.{◌≡◌, ◌&&◌, ◌++◌, List, [], ◌∷◌, true, cond, length, ltb, Ok, Err, IfOk, OnOk, OnErr, option_map};
ghost use Rattle.std.specs.List.{AllByRecursion};
ghost use Rattle.misp_groups.specs.Changes.{put_group, take_group, take_groups, takes_group};
ghost use Rattle.misp_groups.specs.Group.{IsGroup};
ghost use Rattle.misp_groups.specs.Groups.{put_groups};
ghost use Rattle.misp_groups.specs.declared.group.GroupFields.{GroupFields};
ghost use Rattle.misp_outside.specs.Causes.{HasCause, StaysUnless};
ghost use Rattle.misp_outside.specs.Reporting.{StaysHeld, WhereReported};
ghost use Rattle.misp_effects.specs.Batches.{batch};
ghost use Rattle.misp_store.specs.Sharing.{AreStorable, HoldsGroups};
ghost use Rattle.misp_core.specs.Planning.{batch_of};
ghost use Rattle.misp_core.specs.Taking.{IsOver, groups_taken, latest_of, with_groups};

use crate::planning::Batch;
use crate::settling::settle;
use misp_groups::{Group, Groups};
use misp_ids::{GroupId, Items, NoMemory};
use misp_outside::{Keeper, KeeperFault};
use std::alloc::Global;

// The group of a name: the last of it that is taken, or else the one that was known before.
fn known<'a>(groups: &'a Groups, latest: &'a Groups, id: &GroupId) -> Option<&'a Group>
    ensures { option_map (λ group. group.now) result
        ≡ latest_of groups.now latest.now id.now }
{
    match latest.get(id) {
        Some(group) => Some(group),
        None => groups.get(id),
    }
}

// Whether the group that is known came so too and is older than the other.
fn is_older(held: &Group, group: &Group) -> bool
    ensures { result ≡ (held.now.carried && ltb held.now.modified group.now.modified) }
{
    held.carried && held.modified.get() < group.modified.get()
}

// Whether the group is taken: none of its name is known, or an older one that came so too.
fn is_taken(groups: &Groups, latest: &Groups, group: &Group) -> bool
    ensures { (all : List GroupFields) → IsOver all groups.now latest.now →
        result ≡ takes_group all group.now }
{
    match known(groups, latest, &group.id) {
        Some(held) => is_older(held, group),
        None => true,
    }
}

// The group as one that came by a synchronisation.
fn carried(mut group: Group) -> Group
    ensures { result ≡ record group { carried = true } }
{
    group.carried = true;
    group
}

// Puts a copy of a group in its place.
fn put_copy(latest: &mut Groups, group: &Group) -> Result<(), NoMemory>
    ensures { OnOk result (latest.new ≡ put_group group.now latest.old) }
{
    let copy = group.copied()?;
    drop(latest.put(copy)?);
    Ok(())
}

// Adds a group to those that are taken.
fn add(latest: &mut Groups, taken: &mut Vec<Group>, group: Group) -> Result<(), NoMemory>
    ensures latest { OnOk result (latest.new ≡ put_group group latest.old) }
    ensures taken { OnOk result (taken.new.items ≡ taken.old.items ++ group ∷ []) }
{
    match put_copy(latest, &group) {
        Ok(()) => Ok(taken.push(group)?),
        Err(NoMemory) => {
            drop(group);
            Err(NoMemory)
        }
    }
}

// Takes a group over those that were known and those that are taken, and adds it to the latter
// where it is.
fn take_one(
    groups: &Groups,
    latest: &mut Groups,
    taken: &mut Vec<Group>,
    group: Group,
) -> Result<(), NoMemory>
    ensures known { OnOk result ((all : List GroupFields) → IsOver all groups.now latest.old →
        IsOver (take_group all group) groups.now latest.new) }
    ensures taken { OnOk result ((all : List GroupFields) → IsOver all groups.now latest.old →
        taken.new.items ≡ taken.old.items
        ++ cond (takes_group all group) (record group { carried = true } ∷ []) []) }
{
    if !is_taken(groups, latest, &group) {
        drop(group);
        return Ok(());
    }
    add(latest, taken, carried(group))
}

/// Those of the groups that are taken, one after another, where these are known. Of the groups that
/// are known none is copied.
pub(crate) fn taken_of(
    alloc: Global,
    groups: &Groups,
    coming: Vec<Group>,
) -> Result<Vec<Group>, NoMemory>
    ensures { IfOk result (λ taken. taken.items ≡ groups_taken groups.now coming.items) }
{
    let _ascending = groups.as_slice();
    let mut latest = Groups::new(alloc);
    let mut taken = Vec::new(alloc);
    for group in coming {
        take_one(groups, &mut latest, &mut taken, group)?;
    }
    Ok(taken)
}

/// These groups together, and no rows.
pub(crate) fn groups_alone(alloc: Global, groups: Vec<Group>) -> Batch
    ensures batch { batch_of result ≡ batch [] groups.items }
    ensures groups { result.groups ≡ groups.items }
    ensures rows { result.rows ≡ [] }
{
    Batch {
        rows: Items::of(Vec::new(alloc)),
        groups: Items::of(groups),
    }
}

// Puts the groups in one batch, and no groups in none.
fn put_groups<K: Keeper>(
    keeper: &mut K,
    groups: &mut Groups,
    alloc: Global,
    taken: Vec<Group>,
) -> Result<(), KeeperFault>
    ensures put { OnOk result (WhereReported (K.state keeper.old).held (K.state keeper.new).held
        (λ held new. new ≡ with_groups taken.items held)) }
    ensures groups { OnOk result (groups.new ≡ put_groups groups.old taken.items) }
    ensures storable { OnOk result (AreStorable taken.items) }
    ensures none { taken.items ≡ [] → (keeper.new ≡ keeper.old) × (groups.new ≡ groups.old) }
    ensures err { OnErr result (StaysHeld (K.state keeper.old).held (K.state keeper.new).held) }
    ensures beside { HoldsGroups (K.state keeper.old).held groups.old →
        HoldsGroups (K.state keeper.new).held groups.new }
    ensures cause { HasCause (K.state keeper.old).faults (K.state keeper.new).faults
        (result ≡ Err KeeperFault.Failed) }
    ensures stays { StaysUnless (K.state keeper.old).faults (K.state keeper.new).faults
        (result ≡ Err KeeperFault.Failed) }
{
    let [_, ..] = taken.as_slice() else {
        return Ok(());
    };
    settle(keeper, groups, alloc, groups_alone(alloc, taken))
}

/// Takes what is new of the groups: all memory first, then one batch of those that are taken, or
/// none where there are none.
pub(crate) fn take_groups<K: Keeper>(
    keeper: &mut K,
    groups: &mut Groups,
    alloc: Global,
    coming: Vec<Group>,
) -> Result<u64, KeeperFault>
    ensures count { IfOk result (λ n. n ≡ length (groups_taken groups.old coming.items)) }
    ensures put { OnOk result (WhereReported (K.state keeper.old).held (K.state keeper.new).held
        (λ held new. new ≡ with_groups (groups_taken groups.old coming.items) held)) }
    ensures groups { OnOk result (groups.new ≡ take_groups groups.old coming.items) }
    ensures fits { OnOk result (AllByRecursion IsGroup (groups_taken groups.old coming.items)) }
    ensures none { result ≡ Ok 0 → (keeper.new ≡ keeper.old) × (groups.new ≡ groups.old) }
    ensures err { OnErr result (StaysHeld (K.state keeper.old).held (K.state keeper.new).held) }
    ensures beside { HoldsGroups (K.state keeper.old).held groups.old →
        HoldsGroups (K.state keeper.new).held groups.new }
    ensures cause { HasCause (K.state keeper.old).faults (K.state keeper.new).faults
        (result ≡ Err KeeperFault.Failed) }
    ensures stays { StaysUnless (K.state keeper.old).faults (K.state keeper.new).faults
        (result ≡ Err KeeperFault.Failed) }
{
    let taken = taken_of(alloc, groups, coming)?;
    let count = taken.len() as u64;
    match put_groups(keeper, groups, alloc, taken) {
        Ok(()) => Ok(count),
        Err(stop) => Err(stop),
    }
}
