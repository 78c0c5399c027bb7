//! Where rows of events and groups are put.

ghost use Rattle.std.specs.Prelude.{◌≡◌, ◌≤◌, Err, length, OnOk, OnErr};
ghost use Rattle.misp_groups.specs.declared.group.GroupFields.{GroupFields};
ghost use Rattle.misp_outside.specs.Causes.{HasCause, StaysUnless};
ghost use Rattle.misp_outside.specs.Reporting.{StaysHeld, WhereReported};
ghost use Rattle.misp_outside.specs.Held.{with_batch};
ghost use Rattle.misp_groups.specs.Groups.{put_groups};
ghost use Rattle.misp_store.specs.Sharing.{AreStorable, HoldsGroups};
ghost use Rattle.misp_store.specs.Batches.{spelled};
ghost use Rattle.misp_core.specs.Planning.{batch_of};

use crate::planning::Batch;
use misp_groups::{Group, Groups, Room};
use misp_outside::{Keeper, KeeperFault};
use misp_store::{groups_are_held_as_their_rows, spell};
use std::alloc::Global;

// Puts one group after another.
fn put_all(room: &mut Room, groups: Vec<Group>)
    requires { length groups.items ≤ room.old.spare }
    ensures { room.new.groups ≡ put_groups room.old.groups groups.items }
{
    for group in groups {
        room.put(group);
    }
}

/// Takes all memory, puts the batch, and keeps its groups beside.
pub(crate) fn settle<K: Keeper>(
    keeper: &mut K,
    groups: &mut Groups,
    alloc: Global,
    put: Batch,
) -> Result<(), KeeperFault>
    ensures put { OnOk result (WhereReported (K.state keeper.old).held (K.state keeper.new).held
        (λ held new. new ≡ with_batch (spelled (batch_of put)) held)) }
    ensures groups { OnOk result (groups.new ≡ put_groups groups.old put.groups) }
    ensures storable { OnOk result (AreStorable put.groups) }
    ensures err { OnErr result (StaysHeld (K.state keeper.old).held (K.state keeper.new).held) }
    ensures same { OnErr result (groups.new ≡ groups.old) }
    ensures beside { HoldsGroups (K.state keeper.old).held groups.old →
        HoldsGroups (K.state keeper.new).held groups.new }
    ensures cause { HasCause (K.state keeper.old).faults (K.state keeper.new).faults
        (result ≡ Err KeeperFault.Failed) }
    ensures stays { StaysUnless (K.state keeper.old).faults (K.state keeper.new).faults
        (result ≡ Err KeeperFault.Failed) }
{
    groups_are_held_as_their_rows();
    let raw = spell(alloc, put.rows.as_slice(), put.groups.as_slice())?;
    let more = put.groups.into_vec();
    let mut room = groups.with_room(alloc, more.len())?;
    match keeper.apply(raw) {
        Ok(()) => {
            put_all(&mut room, more);
            *groups = room.into_groups();
            Ok(())
        }
        Err(stop) => {
            *groups = room.into_groups();
            Err(stop)
        }
    }
}
