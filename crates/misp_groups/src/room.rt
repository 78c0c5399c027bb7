//! Groups with memory for more of them, so that putting one cannot fail.

ghost use Rattle.std.specs.Prelude.{◌≡◌, ◌<◌, ◌≤◌, ◌+◌, ◌-◌, IfOk, OnErr, vec_len, vec_capacity};
ghost use Rattle.std.specs.List.Sorted.{IsStrictlySortedBy};
ghost use Rattle.misp_groups.specs.Changes.{put_group};
ghost use Rattle.misp_groups.specs.Groups.{by_name};
ghost use Rattle.misp_groups.specs.Rooms.{roomy};

use crate::group::Group;
use crate::groups::{Groups, place_of};
use misp_ids::NoMemory;
use std::alloc::Global;
use std::marker::Model;
use std::mem;

/// Groups, by their names, with memory for some more.
///
/// A contract sees it as the list of its groups, and the number of those for which there is memory.
#[derive(Drop)]
pub struct Room {
    groups: Vec<Group>,
    spare: usize,
}

impl Model for Room {
    ghost use Rattle.std.specs.Prelude.{◌≤◌, ◌+◌, vec_len, vec_capacity};
    ghost use Rattle.std.specs.List.Sorted.{IsStrictlySortedBy};
    ghost use Rattle.misp_groups.specs.Groups.{by_name};
    ghost use Rattle.misp_groups.specs.Rooms.{Roomy, roomy};

    ghost Value = { Roomy };

    ghost view = { λ r. roomy r.groups.items r.spare };

    ghost invariant = { λ r. IsStrictlySortedBy by_name r.groups.items
        × (vec_len r.groups + r.spare ≤ vec_capacity r.groups) };
}

// Puts a group in the place of the one of its name, or into the gap for it.
fn put_within(groups: &mut Vec<Group>, group: Group)
    requires ascend { IsStrictlySortedBy by_name groups.old.items }
    requires room { vec_len groups.old < vec_capacity groups.old }
    ensures put { groups.new.items ≡ put_group group groups.old.items }
    ensures ascend { IsStrictlySortedBy by_name groups.new.items }
    ensures len { vec_len groups.new ≤ vec_len groups.old + 1 }
    ensures capacity { vec_capacity groups.old ≤ vec_capacity groups.new }
{
    match place_of(groups.as_slice(), &group.id) {
        Ok(place) => groups[place] = group,
        Err(gap) => groups.insert(gap, group).unwrap(),
    }
}

impl Groups {
    /// Takes memory for so many groups more, and takes the groups out: none are left here.
    pub fn with_room(&mut self, alloc: Global, more: usize) -> Result<Room, NoMemory>
        ensures ok { IfOk result (λ room. room ≡ roomy self.old more) }
        ensures err { OnErr result (self.new ≡ self.old) }
    {
        self.groups.reserve(more)?;
        Ok(Room {
            groups: mem::replace(&mut self.groups, Vec::new(alloc)),
            spare: more,
        })
    }
}

impl Room {
    /// Puts a group in the place of the one that is known by its name. It takes no memory.
    pub fn put(&mut self, group: Group)
        requires { 0 < self.old.spare }
        ensures { self.new ≡ roomy (put_group group self.old.groups) (self.old.spare - 1) }
    {
        self.spare -= 1;
        put_within(&mut self.groups, group);
    }

    /// The groups.
    pub fn into_groups(self) -> Groups
        ensures { result ≡ self.groups }
    {
        Groups {
            groups: self.groups,
        }
    }
}
