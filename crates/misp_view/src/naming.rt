//! The names of the groups that the labels of a shown event name.

ghost use Rattle.std.specs.Prelude.{◌≡◌, ◌||◌, map, IfOk, OnOk};
ghost use Rattle.std.specs.List.{list_any, filter};
ghost use Rattle.misp_ids.specs.declared.uid.GroupId.{GroupId as Id};
ghost use Rattle.misp_view.specs.Naming.{label_names, attribute_names, object_names, event_names, group_names, has_group, hit_names, with_name};

use misp_elem::{NoMemory, Row, VisibleAttribute, VisibleEvent, VisibleObject};
use misp_groups::Groups;
use misp_ids::{GroupId, Label, Text};
use std::alloc::Global;
use std::collections::BTreeSet;

/// Groups, as the numbers of their creators and their own.
type Ids = BTreeSet<(u128, u128)>;

// With the group that a label names.
#[tactic(auto, unfolding(crate::specs::Naming::label_names))]
fn note(ids: &mut Ids, label: Label) -> Result<(), NoMemory>
    ensures { OnOk result ((id : Id) → has_group ids.new id
        ≡ (has_group ids.old id || label_names id label)) }
{
    if let Label::Group(group) = label {
        ids.insert((group.creator.0.0, group.uuid.0))?;
    }
    Ok(())
}

// With the group that the label of a row names.
fn note_row(ids: &mut Ids, row: &Row) -> Result<(), NoMemory>
    ensures { OnOk result ((id : Id) → has_group ids.new id
        ≡ (has_group ids.old id || label_names id row.now.label)) }
{
    note(ids, row.label)
}

#[tactic(auto, unfolding(crate::specs::Naming::attribute_names))]
fn note_attribute(ids: &mut Ids, attribute: &VisibleAttribute) -> Result<(), NoMemory>
    ensures { OnOk result ((id : Id) → has_group ids.new id
        ≡ (has_group ids.old id || attribute_names id attribute.now)) }
{
    note_row(ids, &attribute.row)
}

fn note_attributes(ids: &mut Ids, attributes: &[VisibleAttribute]) -> Result<(), NoMemory>
    ensures { OnOk result ((id : Id) → has_group ids.new id
        ≡ (has_group ids.old id || list_any (attribute_names id) attributes.now)) }
{
    for attribute in attributes {
        note_attribute(ids, attribute)?;
    }
    Ok(())
}

// With those of an object and its attributes.
fn note_object(ids: &mut Ids, object: &VisibleObject) -> Result<(), NoMemory>
    ensures { OnOk result ((id : Id) → has_group ids.new id
        ≡ (has_group ids.old id || object_names id object.now)) }
{
    note_row(ids, &object.row)?;
    note_attributes(ids, object.attributes.as_slice())
}

fn note_objects(ids: &mut Ids, objects: &[VisibleObject]) -> Result<(), NoMemory>
    ensures { OnOk result ((id : Id) → has_group ids.new id
        ≡ (has_group ids.old id || list_any (object_names id) objects.now)) }
{
    for object in objects {
        note_object(ids, object)?;
    }
    Ok(())
}

// The groups that the labels of an event name.
fn named(alloc: Global, event: &VisibleEvent) -> Result<Ids, NoMemory>
    ensures { IfOk result (λ ids. (id : Id) → has_group ids id ≡ event_names id event.now) }
{
    let mut ids = BTreeSet::new(alloc);
    note_row(&mut ids, &event.row)?;
    note_attributes(&mut ids, event.attributes.as_slice())?;
    note_objects(&mut ids, event.objects.as_slice())?;
    Ok(ids)
}

#[tactic(auto, unfolding(crate::specs::Naming::has_group))]
fn has_group(ids: &Ids, id: &GroupId) -> bool
    ensures { result ≡ has_group ids.now id.now }
{
    ids.contains(&(id.creator.0.0, id.uuid.0))
}

// Those of the known groups that are among these, with their names.
fn names_of(alloc: Global, groups: &Groups, ids: &Ids) -> Result<Vec<(GroupId, Text)>, NoMemory>
    ensures { IfOk result (λ names. names.items
        ≡ map with_name (filter (λ g. has_group ids.now g.id) groups.now)) }
{
    let mut names = Vec::new(alloc);
    for group in groups.as_slice() {
        if has_group(ids, &group.id) {
            names.push((group.id, group.name.clone()?))?;
        }
    }
    Ok(names)
}

/// The known groups that the labels of an event name, each once with its name.
pub fn group_names(
    alloc: Global,
    groups: &Groups,
    event: &VisibleEvent,
) -> Result<Vec<(GroupId, Text)>, NoMemory>
    ensures { IfOk result (λ names. names.items ≡ group_names groups.now event.now) }
{
    let ids = named(alloc, event)?;
    names_of(alloc, groups, &ids)
}

// The groups that the labels of attributes name.
fn named_in(alloc: Global, attributes: &[VisibleAttribute]) -> Result<Ids, NoMemory>
    ensures { IfOk result (λ ids. (id : Id) →
        has_group ids id ≡ list_any (attribute_names id) attributes.now) }
{
    let mut ids = BTreeSet::new(alloc);
    note_attributes(&mut ids, attributes)?;
    Ok(ids)
}

/// The known groups that the labels of attributes name, each once with its name.
pub fn hit_names(
    alloc: Global,
    groups: &Groups,
    hits: &[VisibleAttribute],
) -> Result<Vec<(GroupId, Text)>, NoMemory>
    ensures { IfOk result (λ names. names.items ≡ hit_names groups.now hits.now) }
{
    let ids = named_in(alloc, hits)?;
    names_of(alloc, groups, &ids)
}
