//! Which copies there are of an event, and what is in them.

ghost use Rattle.std.specs.Prelude.{◌≡◌};
ghost use Rattle.misp_model.specs.View.{has_copy, has_gone, has_home, has_open};
ghost use Rattle.misp_copies.specs.OwnRows.{has_deleted};

use crate::rows::{is_open, is_row_of, is_row_of_event};
use crate::viewer::Viewer;
use misp_elem::{Key, Row};
use misp_ids::{EventId, OrgId};

/// Whether the owner has a copy that is not gone.
#[tactic(auto, unfolding(misp_model::specs::View::has_copy))]
pub fn has_copy(rows: &[Row], owner: &OrgId, event: &EventId) -> bool
    ensures { result ≡ has_copy rows.now owner.now event.now }
{
    rows.iter().any(|row| is_row_of_event(row, owner, event) && !row.is_tombstone())
}

/// Whether the owner's copy is gone.
#[tactic(auto, unfolding(misp_model::specs::View::has_gone))]
pub fn has_gone(rows: &[Row], owner: &OrgId, event: &EventId) -> bool
    ensures { result ≡ has_gone rows.now owner.now event.now }
{
    rows.iter().any(|row| is_row_of_event(row, owner, event) && row.is_tombstone())
}

/// Whether the owner has a copy of the event that was added at this instance.
#[tactic(auto, unfolding(misp_model::specs::View::has_home))]
pub fn has_home(rows: &[Row], owner: &OrgId, event: &EventId) -> bool
    ensures { result ≡ has_home rows.now owner.now event.now }
{
    rows.iter().any(|row| is_row_of_event(row, owner, event)
        && (!row.is_tombstone() && !row.carried))
}

/// Whether the owner has a deleted row of this key.
pub fn has_deleted(rows: &[Row], owner: &OrgId, key: &Key) -> bool
    ensures { result ≡ has_deleted rows.now owner.now key.now }
{
    rows.iter()
        .any(|row| is_row_of(row, owner, key) && row.is_deleted())
}

/// Whether the owner has a row of this key that is open to the organisation.
#[tactic(auto, unfolding(misp_model::specs::View::has_open))]
pub fn has_open(rows: &[Row], who: &Viewer, owner: &OrgId, key: &Key) -> bool
    ensures { result
        ≡ has_open rows.now who.now.groups.now who.now.here who.now.org owner.now key.now }
{
    rows.iter()
        .any(|row| is_row_of(row, owner, key) && is_open(row, who))
}
