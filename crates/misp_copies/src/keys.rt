//! Keys: their order, and what they are about.

ghost use Rattle.std.specs.Prelude.{◌≡◌};
ghost use Rattle.misp_elem.specs.Parents.{event_key};
ghost use Rattle.misp_elem.specs.declared.key.KeyForm.TheVariants.{Element};
ghost use Rattle.misp_elem.specs.SameKey.{same_key};
ghost use Rattle.misp_copies.specs.Keys.{key_cmp, target_of};

use misp_elem::{Key, KeyForm, Place, Row};
use misp_ids::EventId;
use std::cmp::Ordering;

/// How the first stands to the second.
pub fn compare(a: &Key, b: &Key) -> Ordering
    ensures { result ≡ key_cmp a.now b.now }
{
    a.form.cmp(&b.form)
}

/// Whether the two are the same.
#[tactic(auto, using(crate::proofs::KeyOrder::level_is))]
pub fn are_same(a: &Key, b: &Key) -> bool
    ensures { result ≡ same_key a.now b.now }
{
    compare(a, b).is_eq()
}

/// The key of the element at this place.
pub fn element_key(event: EventId, place: Place) -> Key
    ensures { result ≡ Element event place }
{
    Key {
        form: KeyForm::Element { event, place },
    }
}

/// The key of the event itself.
#[tactic(auto, unfolding(misp_elem::specs::Parents::event_key))]
pub fn event_key(event: &EventId) -> Key
    ensures { result ≡ event_key event.now }
{
    element_key(*event, Place::Event)
}

/// What the row is about: the proposal of a verdict, the target of a proposal or a sighting, and
/// itself where it is none of these.
#[tactic(auto, unfolding(crate::specs::Keys::target_of))]
pub fn target_of(row: &Row) -> Key
    ensures { result ≡ target_of row.now.key }
{
    let form = match &row.key.form {
        KeyForm::Proposal { event, name } => KeyForm::Element {
            event: *event,
            place: name.target,
        },
        KeyForm::Verdict { event, name, .. } => KeyForm::Proposal {
            event: *event,
            name: *name,
        },
        KeyForm::Sighting { event, target, .. } => KeyForm::Element {
            event: *event,
            place: *target,
        },
        KeyForm::Element { .. } | KeyForm::Reference { .. } => row.key.form,
    };
    Key { form }
}
