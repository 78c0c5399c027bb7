//! Sets of elements, each with the owner of a copy that it is in.

ghost use Rattle.std.specs.Prelude.{◌≡◌, ◌&&◌, ◌||◌, OnOk};
ghost use Rattle.std.specs.List.{list_all};
ghost use Rattle.misp_ids.specs.declared.uid.OrgId.{OrgId as Owner};
ghost use Rattle.misp_ids.specs.declared.uid.EventId.{EventId as Event};
ghost use Rattle.misp_elem.specs.Key.{place_kind};
ghost use Rattle.misp_elem.specs.declared.key.Place.{Place as SomePlace};
ghost use Rattle.misp_elem.specs.declared.key.KeyForm.TheVariants.{Element};
ghost use Rattle.misp_ids.specs.Same.{same_event, same_org};
ghost use Rattle.misp_elem.specs.SameKey.{same_key, same_place};
ghost use Rattle.misp_elem.specs.Parents.{parents};
ghost use Rattle.misp_model.specs.View.{is_row_of};
ghost use Rattle.misp_copies.specs.ElementSet.{first_of, second_of, has_element, has_key, key_is};

use misp_elem::{Key, KeyForm, Place, Row, parents};
use misp_ids::{EventId, NoMemory, OrgId};
use std::collections::BTreeSet;

/// Owners, events and places, as their numbers.
pub type ElementSet = BTreeSet<(u128, u128, u8, u128, u128)>;

// The number of the place's form.
fn kind(place: &Place) -> u8
    ensures { result ≡ place_kind place.now }
{
    match place {
        Place::Event => 0,
        Place::Object(_) => 1,
        Place::Attribute(_) => 2,
        Place::ObjectAttribute(_, _) => 3,
    }
}

// The number of the element at the place, or of the object around it.
fn first(place: &Place) -> u128
    ensures { result ≡ first_of place.now }
{
    match place {
        Place::Event => 0,
        Place::Object(element) | Place::Attribute(element) => element.0.0,
        Place::ObjectAttribute(object, _) => object.0.0,
    }
}

// The number of an attribute in an object.
fn second(place: &Place) -> u128
    ensures { result ≡ second_of place.now }
{
    match place {
        Place::Event | Place::Object(_) | Place::Attribute(_) => 0,
        Place::ObjectAttribute(_, attribute) => attribute.0.0,
    }
}

// Adds a place of an event, for this owner.
fn put(
    elements: &mut ElementSet,
    owner: &OrgId,
    event: &EventId,
    place: &Place,
) -> Result<(), NoMemory>
    ensures { OnOk result ((w : Owner) (e : Event) (p : SomePlace) → has_element elements.new w e p
        ≡ (has_element elements.old w e p
        || same_org owner.now w && (same_event event.now e && same_place place.now p))) }
{
    elements.insert((
        owner.0.0,
        event.0.0,
        kind(place),
        first(place),
        second(place),
    ))?;
    Ok(())
}

/// Adds what the row's key names, for this owner, where it is an element and is wanted.
#[tactic(auto, unfolding(misp_elem::specs::SameKey::same_key))]
pub fn add(
    elements: &mut ElementSet,
    owner: &OrgId,
    row: &Row,
    wanted: bool,
) -> Result<(), NoMemory>
    ensures { OnOk result ((w : Owner) (e : Event) (p : SomePlace) → has_element elements.new w e p
        ≡ (has_element elements.old w e p
        || (same_org owner.now w && same_key row.now.key (Element e p)) && wanted)) }
{
    if !wanted {
        return Ok(());
    }
    match &row.key.form {
        KeyForm::Element { event, place } => {
            put(elements, owner, event, place)?;
            Ok(())
        }
        _ => Ok(()),
    }
}

/// The same, for the row's own owner.
#[tactic(auto, unfolding(misp_model::specs::View::is_row_of))]
pub fn add_own(elements: &mut ElementSet, row: &Row, wanted: bool) -> Result<(), NoMemory>
    ensures { OnOk result ((w : Owner) (e : Event) (p : SomePlace) → has_element elements.new w e p
        ≡ (has_element elements.old w e p || is_row_of w (Element e p) row.now && wanted)) }
{
    add(elements, &row.owner, row, wanted)?;
    Ok(())
}

/// Whether the place of the event is among these, for this owner.
#[tactic(auto, unfolding(crate::specs::ElementSet::has_element))]
pub fn has_element(elements: &ElementSet, owner: &OrgId, event: &EventId, place: &Place) -> bool
    ensures { result ≡ has_element elements.now owner.now event.now place.now }
{
    elements.contains(&(
        owner.0.0,
        event.0.0,
        kind(place),
        first(place),
        second(place),
    ))
}

// Whether the element of the key is among these, for this owner.
#[tactic(auto, unfolding(crate::specs::ElementSet::has_key))]
fn has_key(elements: &ElementSet, owner: &OrgId, key: &Key) -> bool
    ensures { result ≡ has_key elements.now owner.now key.now }
{
    match &key.form {
        KeyForm::Element { event, place } => has_element(elements, owner, event, place),
        _ => false,
    }
}

// Whether each of what stands above the key is among these, for this owner, or none is.
fn each_is(elements: &ElementSet, owner: &OrgId, key: &Key, there: bool) -> bool
    ensures { result ≡ list_all (key_is elements.now owner.now there) (parents key.now) }
{
    let above = parents(key);
    above
        .as_slice()
        .iter()
        .all(|key| has_key(elements, owner, key) == there)
}

/// Whether each of what stands above the row is among these, for this owner, or none is. Above most
/// rows the event stands alone.
#[tactic(auto, unfolding(misp_elem::specs::Parents::parents, misp_elem::specs::Parents::above, misp_elem::specs::Parents::event_key, crate::specs::ElementSet::has_key))]
pub fn parents_are(elements: &ElementSet, owner: &OrgId, row: &Row, there: bool) -> bool
    ensures { result ≡ list_all (key_is elements.now owner.now there) (parents row.now.key) }
{
    match &row.key.form {
        KeyForm::Element {
            event,
            place: Place::Object(_) | Place::Attribute(_),
        } => has_element(elements, owner, event, &Place::Event) == there,
        _ => each_is(elements, owner, &row.key, there),
    }
}
