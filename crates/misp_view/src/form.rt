//! The form in which an organisation sees an event.

ghost use Rattle.std.specs.Prelude.{◌≡◌, IfOk, IfSome, OnOk};
ghost use Rattle.misp_elem.specs.Row.{AreRows};
ghost use Rattle.misp_elem.specs.Visible.{IsWhole};
ghost use Rattle.misp_model.specs.View.{IsTable, known};
ghost use Rattle.std.specs.List.{find};
ghost use Rattle.std.specs.Option.{option_copied, option_map};
ghost use Rattle.misp_model.specs.Shown.{creator, event_row, form_of, shown};
ghost use Rattle.misp_view.specs.View.{scene_of};
ghost use Rattle.misp_view.specs.Form.{is_granted_row_of};
ghost use Rattle.misp_view.specs.Inside.{IsFormWith};

use crate::choice::chosen_row;
use crate::inside::inside_of;
use crate::statements::{proposals, sightings, told};
use misp_copies::{
    CopyView, StatementsByTarget, Viewer, copy, event_key, is_granted, is_row_of_event,
};
use misp_elem::{Content, Row, VisibleEvent};
use misp_groups::Groups;
use misp_ids::{EventId, InstId, Items, NoMemory, OrgId, Text};
use std::alloc::Global;

// Whether it is the owner's row of the event itself, and is granted.
#[tactic(auto, unfolding(crate::specs::Form::is_granted_row_of))]
fn is_granted_row_of(rows: &[Row], who: &Viewer, event: &EventId, owner: &OrgId, row: &Row) -> bool
    ensures { result ≡ is_granted_row_of who.now.groups.now who.now.here who.now.org
        event.now owner.now rows.now row.now }
{
    is_row_of_event(row, owner, event) && is_granted(rows, who, row)
}

// The row of the event itself in the named owner's copy.
fn row_of<'a>(rows: &'a [Row], who: &Viewer, event: &EventId, owner: &OrgId) -> Option<&'a Row>
    ensures { option_copied result
        ≡ find (is_granted_row_of who.now.groups.now who.now.here who.now.org
        event.now owner.now rows.now) rows.now }
{
    rows.iter()
        .find(|row| is_granted_row_of(rows, who, event, owner, row))
}

// The row of the event itself in the named owner's copy, or in the chosen one.
#[tactic(auto, unfolding(misp_model::specs::Shown::event_row, crate::specs::Form::is_granted_row_of))]
fn event_row<'a>(
    rows: &'a [Row],
    who: &Viewer,
    event: &EventId,
    owner: Option<OrgId>,
) -> Option<&'a Row>
    ensures { option_copied result
        ≡ event_row (scene_of who.now.groups.now who.now.here who.now.org rows.now)
        event.now owner }
{
    match owner {
        None => chosen_row(rows, who, event),
        Some(owner) => row_of(rows, who, event, &owner),
    }
}

// Who created the event, by its row.
#[tactic(auto, unfolding(misp_model::specs::Shown::creator))]
fn creator(row: &Row) -> OrgId
    ensures { result ≡ creator row.now }
{
    match &row.content {
        Content::Event(body) => body.orgc,
        _ => row.owner,
    }
}

// The form of one copy with these proposals and sightings, by its row of the event itself.
fn form_with(
    alloc: Global,
    rows: &[Row],
    copy_view: &CopyView,
    proposals: &StatementsByTarget,
    sightings: &StatementsByTarget,
    event: &EventId,
    row: &Row,
) -> Result<VisibleEvent, NoMemory>
    ensures { IfOk result (λ form. IsFormWith form
        copy_view.now proposals.now sightings.now rows.now event.now row.now) }
{
    let on_event = proposals.about(alloc, &event_key(event))?;
    let inside = inside_of(alloc, rows, copy_view, proposals, sightings)?;
    match copy(row) {
        Ok(row) => Ok(VisibleEvent {
            row,
            org_name: Text::of(String::new(alloc)),
            attributes: inside.attributes,
            objects: inside.objects,
            proposals: on_event,
            group_names: Items::of(Vec::new(alloc)),
        }),
        Err(NoMemory) => {
            drop(on_event);
            drop(inside);
            Err(NoMemory)
        }
    }
}

// The form of one copy, by its row of the event itself.
fn form(
    alloc: Global,
    rows: &[Row],
    who: &Viewer,
    event: &EventId,
    row: &Row,
) -> Result<VisibleEvent, NoMemory>
    ensures form { IfOk result (λ form. form
        ≡ form_of (scene_of who.now.groups.now who.now.here who.now.org rows.now)
        event.now row.now) }
    ensures rows { OnOk result (AreRows rows.now) }
{
    let copy_view = CopyView::of(alloc, rows, who, event, &row.owner)?;
    let told = told(alloc, &copy_view, rows)?;
    let proposals = proposals(alloc, told.as_slice(), &creator(row))?;
    let sightings = sightings(alloc, told.as_slice())?;
    form_with(alloc, rows, &copy_view, &proposals, &sightings, event, row)
}

/// What the organisation sees of an event at this instance: of the named owner's copy, or of the
/// chosen one. It is `None` where that copy is not granted to it. The names of the owner and of
/// groups are left empty.
pub fn shown(
    alloc: Global,
    rows: &[Row],
    groups: &Groups,
    here: &InstId,
    org: &OrgId,
    event: &EventId,
    owner: Option<OrgId>,
) -> Result<Option<VisibleEvent>, NoMemory>
    ensures seen { IfOk result (λ seen. seen
        ≡ shown (scene_of groups.now here.now org.now rows.now) event.now owner) }
    // Where no two rows are of one owner and key, what it knows of them shows the same.
    ensures known { IsTable rows.now → IfOk result (λ seen. seen
        ≡ shown (scene_of groups.now here.now org.now
        (known rows.now groups.now here.now org.now)) event.now owner) }
    ensures whole { IsTable rows.now → IfOk result (λ seen. IfSome seen IsWhole) }
{
    let who = Viewer {
        groups,
        here: *here,
        org: *org,
    };
    match event_row(rows, &who, event, owner) {
        Some(row) => Ok(Some(form(alloc, rows, &who, event, row)?)),
        None => Ok(None),
    }
}

/// Whose copy of the event is shown to the organisation at this instance: the named owner's, where
/// that is granted to it, or the chosen one's.
pub fn shown_owner(
    rows: &[Row],
    groups: &Groups,
    here: &InstId,
    org: &OrgId,
    event: &EventId,
    owner: Option<OrgId>,
) -> Option<OrgId>
    ensures { result ≡ option_map (λ row. row.owner)
        (event_row (scene_of groups.now here.now org.now rows.now) event.now owner) }
{
    let who = Viewer {
        groups,
        here: *here,
        org: *org,
    };
    match event_row(rows, &who, event, owner) {
        Some(row) => Some(row.owner),
        None => None,
    }
}
