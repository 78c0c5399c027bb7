//! Sets of objects: those of the caller's copy, and those that a body brings.

ghost use Rattle.std.specs.Prelude.{◌≡◌, ℕ, ◌||◌, IfOk, OnOk};
ghost use Rattle.std.specs.Ordering.{nat_cmp};
ghost use Rattle.std.specs.BTreeSet.{contains};
ghost use Rattle.misp_ids.specs.declared.uid.ElemId.{ElemId};
ghost use Rattle.misp_elem.specs.declared.key.Place.TheVariants as places;
ghost use Rattle.misp_elem.specs.Row.{AreRows, IsRow};
ghost use Rattle.misp_elem.specs.SameKey.{same_place};
ghost use Rattle.misp_copies.specs.Uuids.{is_at};
ghost use Rattle.misp_edit.specs.Objects.{AreObjects, is_object_row, has_object_row, is_live_object, is_brought};

use misp_copies::has_gone;
use misp_elem::{Draft, KeyForm, Place, Row};
use misp_ids::{EventId, NoMemory, OrgId};
use std::alloc::Global;
use std::collections::BTreeSet;

/// Objects, by their uuids.
pub(crate) type Objects = BTreeSet<u128>;

// The uuid of the object at a place.
#[tactic(auto, unfolding(misp_elem::specs::SameKey::same_place, misp_ids::specs::Same::same_elem))]
fn object_at(place: Place) -> Option<u128>
    ensures { (x : ElemId) → is_at result x.0.0 ≡ same_place place (places.Object x) }
{
    match place {
        Place::Object(object) => Some(object.0.0),
        _ => None,
    }
}

// The uuid of the object, if the row is the owner's of one in the event, and is deleted or is not.
#[tactic(auto, unfolding(crate::specs::Objects::is_object_row, misp_model::specs::View::is_row_of, misp_elem::specs::SameKey::same_key, misp_ids::specs::Same::same_event, misp_ids::specs::Same::same_org))]
fn own_object(row: &Row, owner: OrgId, event: EventId, deleted: bool) -> Option<u128>
    ensures uuid { (x : ElemId) →
        is_at result x.0.0 ≡ is_object_row owner event deleted x row.now }
    ensures row { IsRow row.now }
{
    match row.key.form {
        KeyForm::Element { event: of, place } => {
            if row.owner.0.0 == owner.0.0 && of.0.0 == event.0.0 && row.is_deleted() == deleted {
                object_at(place)
            } else {
                None
            }
        }
        _ => None,
    }
}

// With the object, if there is one.
fn note(objects: &mut Objects, object: Option<u128>) -> Result<(), NoMemory>
    ensures { OnOk result ((u : ℕ) → contains nat_cmp objects.new u
        ≡ (contains nat_cmp objects.old u || is_at object u)) }
{
    if let Some(uuid) = object {
        objects.insert(uuid)?;
    }
    Ok(())
}

// The objects of the owner's copy that are deleted, or those that are not.
#[tactic(auto, unfolding(crate::specs::Objects::has_object_row))]
pub(crate) fn own_objects(
    alloc: Global,
    rows: &[Row],
    owner: OrgId,
    event: EventId,
    deleted: bool,
) -> Result<Objects, NoMemory>
    ensures found { IfOk result (λ objects.
        AreObjects objects (has_object_row rows.now owner event deleted)) }
    ensures rows { OnOk result (AreRows rows.now) }
{
    let mut objects = BTreeSet::new(alloc);
    for row in rows {
        note(&mut objects, own_object(row, owner, event, deleted))?;
    }
    Ok(objects)
}

// The live objects of the owner's copy.
pub(crate) fn live_objects(
    alloc: Global,
    rows: &[Row],
    owner: OrgId,
    event: EventId,
) -> Result<Objects, NoMemory>
    ensures { IfOk result (λ objects.
        AreObjects objects (is_live_object rows.now owner event)) }
{
    if has_gone(rows, &owner, &event) {
        return Ok(BTreeSet::new(alloc));
    }
    Ok(own_objects(alloc, rows, owner, event, false)?)
}

// The objects among the parts.
#[tactic(auto, unfolding(crate::specs::Objects::is_brought))]
pub(crate) fn brought_objects(alloc: Global, parts: &[Draft]) -> Result<Objects, NoMemory>
    ensures { IfOk result (λ objects. AreObjects objects (is_brought parts.now)) }
{
    let mut objects = BTreeSet::new(alloc);
    for draft in parts {
        note(&mut objects, object_at(draft.place))?;
    }
    Ok(objects)
}
