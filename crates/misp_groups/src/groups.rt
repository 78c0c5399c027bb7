//! The groups that are known at an instance.

ghost use Rattle.std.specs.Prelude.{◌≡◌, true, false, [], option_map, Some, IfOk, IfErr, OnOk, OnErr};
ghost use Rattle.std.specs.List.Sorted.{IsStrictlySortedBy};
ghost use Rattle.misp_groups.specs.Changes.{put_group, take_group};
ghost use Rattle.misp_groups.specs.Audience.{known_group, is_known_group};
ghost use Rattle.misp_groups.specs.Groups.{by_id, by_name, is_older, taken_by, IsPlaceOf, IsGapFor};

use crate::group::Group;
use misp_ids::{GroupId, NoMemory};
use std::alloc::Global;
use std::cmp::Ordering;
use std::marker::Model;
use std::mem;

/// The groups that are known at an instance, by their names.
///
/// A contract sees it as the list of its groups, which ascend by creator and then by uuid.
#[derive(Drop)]
pub struct Groups {
    pub(crate) groups: Vec<Group>,
}

impl Model for Groups {
    ghost use Rattle.std.specs.Prelude.{List};
    ghost use Rattle.std.specs.List.Sorted.{IsStrictlySortedBy};
    ghost use Rattle.misp_groups.specs.declared.group.GroupFields.{GroupFields as Group};
    ghost use Rattle.misp_groups.specs.Groups.{by_name};

    ghost Value = { List Group };

    ghost view = { λ g. g.groups.items };

    ghost invariant = { λ g. IsStrictlySortedBy by_name g.groups.items };
}

fn compare(a: &GroupId, b: &GroupId) -> Ordering
    ensures { result ≡ by_id a.now b.now }
{
    let by_creator = a.creator.0.0.cmp(&b.creator.0.0);
    by_creator.then(a.uuid.0.cmp(&b.uuid.0))
}

// Where the group of a name is, or where it would stand.
pub(crate) fn place_of(groups: &[Group], id: &GroupId) -> Result<usize, usize>
    requires { IsStrictlySortedBy by_name groups.now }
    ensures found { IfOk result (IsPlaceOf groups.now id.now) }
    ensures absent { IfErr result (IsGapFor groups.now id.now) }
{
    groups.binary_search_by(|group| compare(&group.id, id))
}

/// What became of a group that came by a synchronisation.
#[derive(Clone, Copy, PartialEq, Eq)]
pub enum Taken {
    /// None of its name was known.
    New,
    /// It replaced an older one that had come so too.
    Newer,
    /// The one that was known stays.
    Held,
}

// Whether the group that is known came by a synchronisation and is older than the other.
#[tactic(auto, unfolding(crate::specs::Groups::is_older))]
fn is_older(held: &Group, group: &Group) -> bool
    ensures { result ≡ is_older held.now group.now }
{
    held.carried && held.modified.get() < group.modified.get()
}

// The group as one that came by a synchronisation.
fn carried(mut group: Group) -> Group
    ensures { result ≡ record group { carried = true } }
{
    group.carried = true;
    group
}

impl Groups {
    /// No groups.
    pub fn new(alloc: Global) -> Groups
        ensures { result ≡ [] }
    {
        Groups {
            groups: Vec::new(alloc),
        }
    }

    /// The groups in their order.
    pub fn as_slice(&self) -> &[Group]
        ensures all { result.now ≡ self.now }
        ensures ascend { IsStrictlySortedBy by_name self.now }
    {
        self.groups.as_slice()
    }

    /// The group of a name.
    pub fn get(&self, id: &GroupId) -> Option<&Group>
        ensures { option_map (λ group. group.now) result ≡ known_group self.now id.now }
    {
        let groups = self.groups.as_slice();
        match place_of(groups, id) {
            Ok(place) => Some(&groups[place]),
            Err(_) => None,
        }
    }

    /// Puts a group in the place of the one that is known by its name, and gives that one back.
    /// Only where none is known it takes memory.
    pub fn put(&mut self, group: Group) -> Result<Option<Group>, NoMemory>
        ensures ok { OnOk result (self.new ≡ put_group group self.old) }
        ensures before { IfOk result (λ before. before ≡ known_group self.old group.id) }
        ensures err { OnErr result (self.new ≡ self.old) }
        ensures full { OnErr result (is_known_group self.old group.id ≡ false) }
    {
        match place_of(self.groups.as_slice(), &group.id) {
            Ok(place) => Ok(Some(self.put_at(place, group))),
            Err(gap) => {
                self.put_into(gap, group)?;
                Ok(None)
            }
        }
    }

    /// Takes a group that comes by a synchronisation where none of its name is known, or an older one
    /// that came so too. It takes memory only where none is known.
    pub fn take(&mut self, group: Group) -> Result<Taken, NoMemory>
        ensures ok { OnOk result (self.new ≡ take_group self.old group) }
        ensures taken { IfOk result (λ taken. taken ≡ taken_by (known_group self.old group.id) group) }
        ensures err { OnErr result (self.new ≡ self.old) }
    {
        let groups = self.groups.as_slice();
        match place_of(groups, &group.id) {
            Ok(place) => {
                if !is_older(&groups[place], &group) {
                    return Ok(Taken::Held);
                }
                drop(self.put_at(place, carried(group)));
                Ok(Taken::Newer)
            }
            Err(gap) => {
                self.put_into(gap, carried(group))?;
                Ok(Taken::New)
            }
        }
    }

    // Puts a group in the place of the one of its name.
    fn put_at(&mut self, place: usize, group: Group) -> Group
        requires { IsPlaceOf self.old group.id place }
        ensures put { self.new ≡ put_group group self.old }
        ensures before { known_group self.old group.id ≡ Some result }
    {
        mem::replace(&mut self.groups[place], group)
    }

    // Puts a group into the gap for its name.
    fn put_into(&mut self, gap: usize, group: Group) -> Result<(), NoMemory>
        requires { IsGapFor self.old group.id gap }
        ensures ok { OnOk result (self.new ≡ put_group group self.old) }
        ensures err { OnErr result (self.new ≡ self.old) }
    {
        Ok(self.groups.insert(gap, group)?)
    }
}
