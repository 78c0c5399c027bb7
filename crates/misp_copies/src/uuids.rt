//! The uuids that an owner's copy of an event has.

ghost use Rattle.std.specs.Prelude.{◌≡◌, ℕ};
ghost use Rattle.std.specs.List.{list_any};
ghost use Rattle.misp_model.specs.Adding.{takes_uuid};
ghost use Rattle.misp_copies.specs.Uuids.{is_at, has_uuid, is_used};

use misp_elem::{KeyForm, Row, uuid_at};
use misp_ids::{EventId, OrgId};

// The uuid of an element or a reference.
#[tactic(auto, unfolding(misp_model::specs::Adding::takes_uuid))]
fn uuid_in(form: KeyForm) -> Option<u128>
    ensures { (u : ℕ) → is_at result u ≡ takes_uuid u form }
{
    match form {
        KeyForm::Element { event, place } => Some(uuid_at(event, place)),
        KeyForm::Reference { uuid, .. } => Some(uuid.0.0),
        _ => None,
    }
}

/// The uuid in a row, if the row is one of the owner's copy of the event.
#[tactic(auto, unfolding(crate::specs::Uuids::has_uuid, misp_ids::specs::Same::same_event, misp_ids::specs::Same::same_org))]
pub fn own_uuid(row: &Row, owner: OrgId, event: EventId) -> Option<u128>
    ensures { (u : ℕ) → is_at result u ≡ has_uuid owner event u row.now }
{
    if row.owner.0.0 == owner.0.0 && row.key.event().0.0 == event.0.0 {
        uuid_in(row.key.form)
    } else {
        None
    }
}

// Whether the row is one of the owner's copy of the event, and has this uuid.
fn has_uuid(row: &Row, owner: OrgId, event: EventId, uuid: u128) -> bool
    ensures { result ≡ has_uuid owner event uuid row.now }
{
    match own_uuid(row, owner, event) {
        Some(own) => own == uuid,
        None => false,
    }
}

// Whether a row of the owner's copy of the event has this uuid.
fn copy_has(rows: &[Row], owner: OrgId, event: EventId, uuid: u128) -> bool
    ensures { result ≡ list_any (has_uuid owner event uuid) rows.now }
{
    rows.iter().any(|row| has_uuid(row, owner, event, uuid))
}

/// Whether the uuid is that of the event, or of an element or reference of the owner's copy of it.
#[tactic(auto, unfolding(crate::specs::Uuids::is_used))]
pub fn is_used(rows: &[Row], owner: OrgId, event: EventId, uuid: u128) -> bool
    ensures { result ≡ is_used rows.now owner event uuid }
{
    event.0.0 == uuid || copy_has(rows, owner, event, uuid)
}
