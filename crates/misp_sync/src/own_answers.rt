//! What the own instance answers in a synchronisation, request by request.

ghost use Rattle.std.specs.Prelude.{◌≡◌};
ghost use Rattle.std.specs.List.{AllByRecursion};
ghost use Rattle.misp_groups.specs.Group.{IsGroup};
ghost use Rattle.misp_ids.specs.Same.{Inst};
ghost use Rattle.misp_ids.specs.declared.uid.OrgId.{OrgId as Owner};
ghost use Rattle.misp_core.specs.Wanting.{IsSomeWanted};
ghost use Rattle.misp_protocol.specs.declared.request.Request.TheVariants as requests;
ghost use Rattle.misp_sync.specs.OwnAnswers.{IsAsked, unread_cause, wanted_list};
ghost use Rattle.misp_sync.specs.Ways.{push_way};

use misp_core::{Instance, LoadFault};
use misp_elem::Key;
use misp_groups::Group;
use misp_ids::{Items, NoMemory, Way};
use misp_manifest::{Wanted, WantedFields};
use misp_model::Package;
use misp_orgs::Link;
use misp_outside::{Keeper, KeeperFault};
use misp_protocol::{Answer, Cause, PartKeys};
use std::alloc::Global;

// Why rows were not read, as a cause.
fn unread(fault: LoadFault) -> Cause
    ensures { result ≡ unread_cause fault }
{
    match fault {
        LoadFault::KeeperFault => Cause::Keeper,
        LoadFault::BadRow { name } => Cause::BadRow(name),
        LoadFault::NoMemory => Cause::NoMemory,
    }
}

/// Answers which groups pass.
pub(crate) fn groups<K: Keeper>(
    alloc: Global,
    instance: &mut Instance<K>,
    link: &Link,
) -> Result<Answer, Cause>
    ensures { IsAsked link.now requests.Groups instance.old result instance.new }
{
    instance.holds_sound_rows();
    match instance.carrying_groups(alloc, &link.push_org, &link.peer) {
        Ok(groups) => Ok(Answer::Groups(Items::of(groups))),
        Err(NoMemory) => Err(Cause::NoMemory),
    }
}

// The way of a push over the link.
fn way_over(link: &Link) -> Way
    ensures { result ≡ push_way link.now.internal }
{
    if link.internal {
        Way::Internal
    } else {
        Way::Push
    }
}

/// Answers the packages that pass.
pub(crate) fn packages<K: Keeper>(
    alloc: Global,
    instance: &mut Instance<K>,
    link: &Link,
) -> Result<Answer, Cause>
    ensures { IsAsked link.now requests.Packages instance.old result instance.new }
{
    instance.holds_sound_rows();
    match instance.pushed_packages(alloc, way_over(link), &link.push_org, &link.peer) {
        Ok(packages) => Ok(Answer::Packages(Items::of(packages))),
        Err(fault) => Err(unread(fault)),
    }
}

// Shows what holds of groups.
#[tactic(auto, using(crate::proofs::GroupLists::groups_all))]
fn are_groups(groups: &[Group])
    ensures { AllByRecursion IsGroup groups.now }
{
    for group in groups {
        let _modified = group.modified;
    }
}

/// Takes what is new of groups.
pub(crate) fn take_groups<K: Keeper>(
    alloc: Global,
    instance: &mut Instance<K>,
    link: &Link,
    groups: Items<Group>,
) -> Result<Answer, Cause>
    ensures { IsAsked link.now (requests.TakeGroups groups) instance.old result instance.new }
{
    are_groups(groups.as_slice());
    instance.holds_sound_rows();
    match instance.take_groups(alloc, groups.into_vec()) {
        Ok(taken) => Ok(Answer::Taken(taken)),
        Err(KeeperFault::Failed) => Err(Cause::Keeper),
        Err(KeeperFault::NoMemory) => Err(Cause::NoMemory),
    }
}

// The wanted list of these keys of a part, where there are any.
fn wanted_list(part: &PartKeys, keys: Vec<Key>) -> Option<Wanted>
    requires { (here : Inst) × (owner : Owner) ×
        IsSomeWanted here owner part.now.event part.now.keys keys.items }
    ensures { result ≡ wanted_list part.now keys.items }
{
    if keys.as_slice().is_empty() {
        return None;
    }
    let fields = part.get();
    Some(Wanted::of(WantedFields {
        event: fields.event,
        part: fields.part,
        keys: Items::of(keys),
    }))
}

/// Answers which rows of a part are wanted.
pub(crate) fn missing<K: Keeper>(
    alloc: Global,
    instance: &mut Instance<K>,
    link: &Link,
    part: &PartKeys,
) -> Result<Answer, Cause>
    ensures { IsAsked link.now (requests.Missing part.now) instance.old result instance.new }
{
    instance.holds_sound_rows();
    let fields = part.get();
    match instance.wanted(alloc, &link.holder, &fields.event, fields.keys.as_slice()) {
        Ok(keys) => Ok(Answer::Wanted(wanted_list(part, keys))),
        Err(fault) => Err(unread(fault)),
    }
}

/// Takes what is new of a package.
pub(crate) fn take_part<K: Keeper>(
    alloc: Global,
    instance: &mut Instance<K>,
    link: &Link,
    coming: &Package,
) -> Result<Answer, Cause>
    ensures { IsAsked link.now (requests.TakePart coming.now) instance.old result instance.new }
{
    instance.holds_sound_rows();
    let _fields = coming.get();
    match instance.take_part(alloc, &link.holder, coming) {
        Ok(taken) => Ok(Answer::Taken(taken)),
        Err(fault) => Err(unread(fault)),
    }
}
