//! What stands above what a key names.

ghost use Rattle.std.specs.Prelude.{◌≡◌, ◌∷◌};
ghost use Rattle.misp_elem.specs.Parents.{event_of, above, up_to, parents};
ghost use Rattle.misp_elem.specs.declared.key.KeyForm.TheVariants.{Element};
ghost use Rattle.misp_elem.specs.declared.key.Place.TheVariants.{Object};

use crate::key::{Key, KeyForm, Place};
use crate::key_list::{MOST, Parents};
use misp_ids::{ElemId, EventId};

impl Key {
    /// The event that it belongs to.
    #[tactic(auto, unfolding(crate::specs::Parents::event_of))]
    pub fn event(&self) -> EventId
        ensures { result ≡ event_of self.now }
    {
        match self.form {
            KeyForm::Element { event, .. } => event,
            KeyForm::Reference { event, .. } => event,
            KeyForm::Proposal { event, .. } => event,
            KeyForm::Verdict { event, .. } => event,
            KeyForm::Sighting { event, .. } => event,
        }
    }
}

/// The key of the element at a place.
fn element(event: EventId, place: Place) -> Key
    ensures { result ≡ Element event place }
{
    Key {
        form: KeyForm::Element { event, place },
    }
}

/// The keys of what stands above a place of an event.
#[tactic(auto, unfolding(crate::specs::Parents::above))]
fn above(event: EventId, place: Place) -> Parents
    ensures { result ≡ above event place }
{
    let top = element(event, Place::Event);
    match place {
        Place::Event => Parents {
            count: 0,
            keys: [top; MOST],
        },
        Place::Object(_) | Place::Attribute(_) => Parents {
            count: 1,
            keys: [top; MOST],
        },
        Place::ObjectAttribute(object, _) => Parents {
            count: 2,
            keys: [top, element(event, Place::Object(object)), top, top],
        },
    }
}

/// The same, and the key of the element at that place.
#[tactic(auto, unfolding(crate::specs::Parents::above, crate::specs::Parents::up_to))]
fn up_to(event: EventId, place: Place) -> Parents
    ensures { result ≡ up_to event place }
{
    let top = element(event, Place::Event);
    let last = element(event, place);
    match place {
        Place::Event => Parents {
            count: 1,
            keys: [top; MOST],
        },
        Place::Object(_) | Place::Attribute(_) => Parents {
            count: 2,
            keys: [top, last, top, top],
        },
        Place::ObjectAttribute(object, _) => Parents {
            count: 3,
            keys: [top, element(event, Place::Object(object)), last, top],
        },
    }
}

/// A reference's parents: its object, and what leads to its target.
#[tactic(auto, unfolding(crate::specs::Parents::above, crate::specs::Parents::up_to))]
fn of_reference(event: EventId, object: ElemId, target: Place) -> Parents
    ensures { result ≡ Element event (Object object) ∷ up_to event target }
{
    let own = element(event, Place::Object(object));
    let top = element(event, Place::Event);
    let last = element(event, target);
    match target {
        Place::Event => Parents {
            count: 2,
            keys: [own, top, top, top],
        },
        Place::Object(_) | Place::Attribute(_) => Parents {
            count: 3,
            keys: [own, top, last, top],
        },
        Place::ObjectAttribute(around, _) => Parents {
            count: 4,
            keys: [own, top, element(event, Place::Object(around)), last],
        },
    }
}

/// The keys of what stands above what a key names.
#[tactic(auto, unfolding(crate::specs::Parents::parents))]
pub fn parents(key: &Key) -> Parents
    ensures { result ≡ parents key.now }
{
    match key.form {
        KeyForm::Element { event, place } => above(event, place),
        KeyForm::Reference {
            event,
            object,
            target,
            ..
        } => of_reference(event, object, target),
        KeyForm::Proposal { event, name } => up_to(event, name.target),
        KeyForm::Verdict { event, name, .. } => up_to(event, name.target),
        KeyForm::Sighting { event, target, .. } => up_to(event, target),
    }
}
