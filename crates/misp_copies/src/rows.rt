//! What one row says.

ghost use Rattle.std.specs.Prelude.{◌≡◌, map, IfOk};
ghost use Rattle.misp_elem.specs.Parents.{event_key};
ghost use Rattle.misp_elem.specs.SameKey.{same_key};
ghost use Rattle.misp_ids.specs.Same.{same_org};
ghost use Rattle.misp_copies.specs.Kinds.{is_upper, is_link};
ghost use Rattle.misp_groups.specs.Audience.{SaysOfGroup};
ghost use Rattle.misp_model.specs.View.{is_row_of, row_is_open, is_before};

use crate::keys::are_same;
use crate::viewer::Viewer;
use misp_elem::{Key, KeyForm, Place, Row};
use misp_groups::{allows, open};
use misp_ids::{EventId, Items, Label, NoMemory, OrgId};
use std::alloc::Global;

// Whether a label is that of a group that is known and allows the organisation.
#[tactic(auto, unfolding(misp_groups::specs::Audience::group_passes))]
fn group_allows(label: &Label, who: &Viewer) -> bool
    ensures { SaysOfGroup who.now.groups.now who.now.here who.now.org label.now result }
{
    match label {
        Label::Group(id) => match who.groups.get(id) {
            Some(group) => allows(group, &who.org, &who.here),
            None => false,
        },
        _ => false,
    }
}

/// Whether it is open to the organisation. The group of its label is looked up where it is not the
/// organisation's own.
#[tactic(auto, unfolding(misp_model::specs::View::row_is_open, misp_groups::specs::Audience::is_open, misp_ids::specs::Same::same_org))]
pub fn is_open(row: &Row, who: &Viewer) -> bool
    ensures { result ≡ row_is_open who.now.groups.now who.now.here who.now.org row.now }
{
    who.org == row.owner
        || open(
            &who.org,
            &row.owner,
            &row.label,
            group_allows(&row.label, who),
        )
}

/// Whether it is a row of the event itself.
#[tactic(auto, unfolding(misp_elem::specs::SameKey::same_key, misp_ids::specs::Same::same_event, misp_elem::specs::SameKey::same_place, misp_elem::specs::Parents::event_key))]
pub fn is_itself(row: &Row, event: &EventId) -> bool
    ensures { result ≡ same_key row.now.key (event_key event.now) }
{
    match &row.key.form {
        KeyForm::Element {
            event: of,
            place: Place::Event,
        } => of == event,
        _ => false,
    }
}

/// Whether it is a row of this owner.
#[tactic(auto, unfolding(misp_ids::specs::Same::same_org))]
pub fn is_owned(row: &Row, owner: &OrgId) -> bool
    ensures { result ≡ same_org row.now.owner owner.now }
{
    row.owner == *owner
}

/// Whether the two are the same organisation.
#[tactic(auto, unfolding(misp_ids::specs::Same::same_org))]
pub fn is_same_org(a: &OrgId, b: &OrgId) -> bool
    ensures { result ≡ same_org a.now b.now }
{
    a == b
}

/// Whether the organisation is its owner.
#[tactic(auto, unfolding(misp_ids::specs::Same::same_org))]
pub fn is_of(org: &OrgId, row: &Row) -> bool
    ensures { result ≡ same_org org.now row.now.owner }
{
    *org == row.owner
}

/// Whether it is the owner's row of the event itself.
#[tactic(auto, unfolding(misp_model::specs::View::is_row_of))]
pub fn is_row_of_event(row: &Row, owner: &OrgId, event: &EventId) -> bool
    ensures { result ≡ is_row_of owner.now (event_key event.now) row.now }
{
    is_owned(row, owner) && is_itself(row, event)
}

/// Whether it is the owner's row of this key.
#[tactic(auto, unfolding(misp_model::specs::View::is_row_of))]
pub fn is_row_of(row: &Row, owner: &OrgId, key: &Key) -> bool
    ensures { result ≡ is_row_of owner.now key.now row.now }
{
    is_owned(row, owner) && are_same(&row.key, key)
}

/// Whether it is of an event itself or of an object.
#[tactic(auto, unfolding(crate::specs::Kinds::is_upper))]
pub fn is_upper(row: &Row) -> bool
    ensures { result ≡ is_upper row.now.key }
{
    match &row.key.form {
        KeyForm::Element {
            place: Place::Event | Place::Object(_),
            ..
        } => true,
        _ => false,
    }
}

/// Whether it is a reference or a statement.
#[tactic(auto, unfolding(crate::specs::Kinds::is_link))]
pub fn is_link(row: &Row) -> bool
    ensures { result ≡ is_link row.now.key }
{
    !matches!(&row.key.form, KeyForm::Element { .. })
}

/// Whether the first goes before the second, where the rows of copies are chosen from.
#[tactic(auto, unfolding(misp_model::specs::View::is_before))]
pub fn is_before(a: &Row, b: &Row) -> bool
    ensures { result ≡ is_before a.now b.now }
{
    b.stamp.get() < a.stamp.get()
        || b.stamp.get() == a.stamp.get()
            && (b.carried && !a.carried || b.carried == a.carried && a.owner.0.0 < b.owner.0.0)
}

/// The same row once more.
pub fn copy(row: &Row) -> Result<Row, NoMemory>
    ensures { IfOk result (λ copy. copy ≡ row.now) }
{
    Ok(row.clone()?)
}

/// Copies of these rows.
pub fn copies_of(alloc: Global, list: &[&Row]) -> Result<Items<Row>, NoMemory>
    ensures { IfOk result (λ items. items ≡ map (λ r. r.now) list.now) }
{
    let mut items = Vec::with_capacity(alloc, list.len())?;
    for row in list {
        items.push(copy(row)?)?;
    }
    Ok(Items::of(items))
}
