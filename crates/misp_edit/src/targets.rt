//! What references name: parts of the same body, and live elements of the caller's copy.

ghost use Rattle.std.specs.Prelude.{◌≡◌, ◌++◌, List, map, IfOk, OnOk};
ghost use Rattle.std.specs.List.{filter_map};
ghost use Rattle.std.specs.Ordering.{nat_cmp};
ghost use Rattle.std.specs.BTreeSet.{contains};
ghost use Rattle.misp_ids.specs.declared.uid.ElemId.{ElemId};
ghost use Rattle.misp_elem.specs.declared.key.Place.{Place as SomePlace};
ghost use Rattle.misp_model.specs.Adding.{is_place_of};
ghost use Rattle.misp_copies.specs.Uuids.{is_at};
ghost use Rattle.misp_edit.specs.Targets.{kept_place, target_places, or_place, target_in, AreTargets, is_under};

use crate::objects::{Objects, own_objects};
use misp_copies::has_gone;
use misp_elem::{Draft, KeyForm, Place, Row};
use misp_ids::{EventId, NoMemory, OrgId};
use std::alloc::Global;
use std::collections::BTreeMap;

/// The places that references can name, by their uuids.
pub(crate) type Targets = BTreeMap<u128, Place>;

#[tactic(auto, unfolding(crate::specs::Targets::is_under))]
fn is_under(deleted: &Objects, place: Place) -> bool
    ensures { result ≡ is_under (contains nat_cmp deleted.now) place }
{
    match place {
        Place::ObjectAttribute(object, _) => deleted.contains(&object.0.0),
        _ => false,
    }
}

// The place of an element of the owner's copy, if neither it nor its object is deleted.
#[tactic(auto, unfolding(crate::specs::Targets::kept_place, crate::specs::Targets::element_place, misp_model::specs::Adding::place_in, misp_elem::specs::Parents::event_of, misp_ids::specs::Same::same_event, misp_ids::specs::Same::same_org))]
fn kept_place(row: &Row, owner: OrgId, event: EventId, deleted: &Objects) -> Option<Place>
    ensures { result ≡ kept_place (contains nat_cmp deleted.now) owner event row.now }
{
    match row.key.form {
        KeyForm::Element { event: of, place } => {
            if row.owner.0.0 == owner.0.0
                && of.0.0 == event.0.0
                && !row.is_deleted()
                && !is_under(deleted, place)
            {
                Some(place)
            } else {
                None
            }
        }
        _ => None,
    }
}

// The uuid by which a reference names a place.
#[tactic(auto, unfolding(misp_model::specs::Adding::is_place_of, misp_ids::specs::Same::same_elem))]
fn uuid_of(place: Place) -> Option<u128>
    ensures { (u : ElemId) → is_at result u.0.0 ≡ is_place_of u place }
{
    match place {
        Place::Event => None,
        Place::Object(uuid) | Place::Attribute(uuid) | Place::ObjectAttribute(_, uuid) => {
            Some(uuid.0.0)
        }
    }
}

// With the place, if none of its uuid is there.
#[tactic(auto, unfolding(crate::specs::Targets::or_place))]
fn note(targets: &mut Targets, place: Place) -> Result<(), NoMemory>
    ensures { OnOk result ((u : ElemId) →
        target_in targets.new u ≡ or_place u place (target_in targets.old u)) }
{
    if let Some(uuid) = uuid_of(place) {
        targets.entry(uuid)?.or_insert(place);
    }
    Ok(())
}

// The places of the parts.
fn of_parts(alloc: Global, parts: &[Draft]) -> Result<Targets, NoMemory>
    ensures { IfOk result (λ targets. AreTargets targets (map (λ d. d.place) parts.now)) }
{
    let mut targets = BTreeMap::new(alloc);
    for draft in parts {
        note(&mut targets, draft.place)?;
    }
    Ok(targets)
}

// With the places of the elements of the owner's copy after them. A set has its deleted objects.
fn with_kept(
    mut targets: Targets,
    rows: &[Row],
    owner: OrgId,
    event: EventId,
    deleted: &Objects,
) -> Result<Targets, NoMemory>
    ensures { IfOk result (λ all. (places : List SomePlace) → AreTargets targets places →
        AreTargets all
        (places ++ filter_map (kept_place (contains nat_cmp deleted.now) owner event) rows.now)) }
{
    for row in rows {
        if let Some(place) = kept_place(row, owner, event, deleted) {
            note(&mut targets, place)?;
        }
    }
    Ok(targets)
}

// What references of a body with these parts name.
#[tactic(auto, unfolding(crate::specs::Targets::target_places))]
pub(crate) fn targets(
    alloc: Global,
    parts: &[Draft],
    rows: &[Row],
    owner: OrgId,
    event: EventId,
) -> Result<Targets, NoMemory>
    ensures { IfOk result (λ targets.
        AreTargets targets (target_places rows.now owner event parts.now)) }
{
    let targets = of_parts(alloc, parts)?;
    if has_gone(rows, &owner, &event) {
        return Ok(targets);
    }
    let deleted = own_objects(alloc, rows, owner, event, true)?;
    Ok(with_kept(targets, rows, owner, event, &deleted)?)
}
