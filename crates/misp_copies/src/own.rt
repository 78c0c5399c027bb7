//! What an organisation has at a place of an event.

ghost use Rattle.std.specs.Prelude.{◌≡◌, ◌&&◌};
ghost use Rattle.std.specs.List.{find, list_any};
ghost use Rattle.std.specs.Option.{option_copied};
ghost use Rattle.misp_elem.specs.declared.key.KeyForm.TheVariants.{Element};
ghost use Rattle.misp_elem.specs.Parents.{event_key};
ghost use Rattle.misp_elem.specs.SameKey.{same_key};
ghost use Rattle.misp_model.specs.View.{is_row_of, granted, granted_somewhere};
ghost use Rattle.misp_copies.specs.Copies.{is_event_row};
ghost use Rattle.misp_copies.specs.OwnRows.{has_live};

use crate::granting::{is_granted, live};
use crate::keys::element_key;
use crate::rows::{is_itself, is_row_of};
use crate::states::is_event_row;
use crate::viewer::Viewer;
use misp_elem::{Place, Row};
use misp_ids::{EventId, OrgId};

/// The owner's row of the element at this place.
pub fn own_row<'a>(
    rows: &'a [Row],
    owner: &OrgId,
    event: &EventId,
    place: &Place,
) -> Option<&'a Row>
    ensures { option_copied result
        ≡ find (is_row_of owner.now (Element event.now place.now)) rows.now }
{
    let key = element_key(*event, *place);
    rows.iter().find(|row| is_row_of(row, owner, &key))
}

/// The owner's row of the event itself, where the rows are those of one event.
pub fn event_row<'a>(rows: &'a [Row], owner: &OrgId) -> Option<&'a Row>
    ensures { option_copied result ≡ find (is_event_row owner.now) rows.now }
{
    rows.iter().find(|row| is_event_row(row, owner))
}

/// Whether the owner has a live row of the element at this place.
#[tactic(auto, unfolding(crate::specs::OwnRows::has_live))]
pub fn has_live(rows: &[Row], owner: &OrgId, event: &EventId, place: &Place) -> bool
    ensures { result ≡ has_live rows.now owner.now (Element event.now place.now) }
{
    let key = element_key(*event, *place);
    rows.iter()
        .any(|row| is_row_of(row, owner, &key) && live(rows, row))
}

// Whether it is a row of the event itself that is granted.
fn is_seen(row: &Row, rows: &[Row], who: &Viewer, event: &EventId) -> bool
    ensures { result ≡ (same_key row.now.key (event_key event.now)
        && granted rows.now who.now.groups.now who.now.here who.now.org row.now) }
{
    is_itself(row, event) && is_granted(rows, who, row)
}

// Whether there is one.
fn are_seen(rows: &[Row], who: &Viewer, event: &EventId) -> bool
    ensures { result ≡ list_any (λ row. same_key row.key (event_key event.now)
        && granted rows.now who.now.groups.now who.now.here who.now.org row) rows.now }
{
    rows.iter().any(|row| is_seen(row, rows, who, event))
}

/// Whether the event is granted to the organisation in some copy.
pub fn sees_event(rows: &[Row], who: &Viewer, event: &EventId) -> bool
    ensures { result ≡ granted_somewhere rows.now who.now.groups.now who.now.here who.now.org
        (event_key event.now) }
{
    are_seen(rows, who, event)
}
