//! The rows that show, by their kinds.

ghost use Rattle.std.specs.Prelude.{◌≡◌, ◌&&◌, map, IfOk};
ghost use Rattle.std.specs.List.{filter};
ghost use Rattle.misp_model.specs.Shown.{is_plain_attribute, is_object};
ghost use Rattle.misp_view.specs.Kinds.{is_inner, is_seen_reference, is_of_kind, is_one};

use misp_copies::{CopyView, ElementSet, has_element};
use misp_elem::{KeyForm, Place, Row};
use misp_ids::{EventId, NoMemory, OrgId};
use std::alloc::{AllocError, Global};

/// Attributes outside objects, objects, attributes in objects, and references whose target shows.
#[derive(Clone, Copy)]
pub(crate) enum Kind {
    Attribute,
    Object,
    Inner,
    Reference,
}

// Whether it is an attribute of the event outside objects.
#[tactic(auto, unfolding(misp_model::specs::Shown::is_plain_attribute, misp_ids::specs::Same::same_event))]
fn is_plain_attribute(row: &Row, event: &EventId) -> bool
    ensures { result ≡ is_plain_attribute event.now row.now.key }
{
    match &row.key.form {
        KeyForm::Element {
            event: of,
            place: Place::Attribute(_),
        } => of == event,
        _ => false,
    }
}

// Whether it is an object of the event.
#[tactic(auto, unfolding(misp_model::specs::Shown::is_object, misp_ids::specs::Same::same_event))]
fn is_object(row: &Row, event: &EventId) -> bool
    ensures { result ≡ is_object event.now row.now.key }
{
    match &row.key.form {
        KeyForm::Element {
            event: of,
            place: Place::Object(_),
        } => of == event,
        _ => false,
    }
}

// Whether it is an attribute in an object of the event.
#[tactic(auto, unfolding(crate::specs::Kinds::is_inner, misp_ids::specs::Same::same_event))]
fn is_inner(row: &Row, event: &EventId) -> bool
    ensures { result ≡ is_inner event.now row.now.key }
{
    match &row.key.form {
        KeyForm::Element {
            event: of,
            place: Place::ObjectAttribute(_, _),
        } => of == event,
        _ => false,
    }
}

// Whether it is a reference of the event whose target shows.
#[tactic(auto, unfolding(crate::specs::Kinds::is_seen_reference, misp_ids::specs::Same::same_event))]
fn is_seen_reference(row: &Row, owner: &OrgId, event: &EventId, seen: &ElementSet) -> bool
    ensures { result ≡ is_seen_reference seen.now owner.now event.now row.now.key }
{
    match &row.key.form {
        KeyForm::Reference {
            event: of,
            target,
            ..
        } => of == event && has_element(seen, owner, event, target),
        _ => false,
    }
}

// Whether it is of this kind.
#[tactic(auto, unfolding(crate::specs::Kinds::is_of_kind))]
fn is_of_kind(kind: Kind, row: &Row, owner: &OrgId, event: &EventId, seen: &ElementSet) -> bool
    ensures { result ≡ is_of_kind kind seen.now owner.now event.now row.now.key }
{
    match kind {
        Kind::Attribute => is_plain_attribute(row, event),
        Kind::Object => is_object(row, event),
        Kind::Inner => is_inner(row, event),
        Kind::Reference => is_seen_reference(row, owner, event, seen),
    }
}

// Whether it shows, and is of this kind.
#[tactic(auto, unfolding(crate::specs::Kinds::is_one))]
fn is_one(kind: Kind, copy_view: &CopyView, seen: &ElementSet, row: &Row) -> bool
    ensures { result ≡ is_one kind copy_view.now seen.now row.now }
{
    let is_kind = is_of_kind(kind, row, &copy_view.owner, &copy_view.event, seen);
    is_kind && copy_view.shows(row)
}

/// The rows that show and are of this kind, in the order in which they stand.
pub(crate) fn collect<'a>(
    alloc: Global,
    kind: Kind,
    copy_view: &CopyView,
    seen: &ElementSet,
    rows: &'a [Row],
) -> Result<Vec<&'a Row>, AllocError>
    ensures { IfOk result (λ list. map (λ r. r.now) list.items
        ≡ filter (is_one kind copy_view.now seen.now) rows.now) }
{
    rows.iter()
        .filter(|row| is_one(kind, copy_view, seen, row))
        .collect(alloc)
}
