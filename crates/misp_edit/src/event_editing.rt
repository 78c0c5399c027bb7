//! Editing an event.

ghost use Rattle.std.specs.Prelude.{◌≡◌, ℕ, List, [], ◌∷◌, eqb, false, true, IfOk, IfErr};
ghost use Rattle.misp_elem.specs.Row.{AreRows};
ghost use Rattle.misp_model.specs.declared.change.Change.TheVariants.{EditEvent};
ghost use Rattle.misp_model.specs.Changing.{change_rules};
ghost use Rattle.misp_model.specs.Edit.{IsEventEdit};
ghost use Rattle.misp_model.specs.Edits.{at_event, edited_event, given};
ghost use Rattle.misp_model.specs.Scene.{is_too_long};
ghost use Rattle.misp_ids.specs.Moments.{last_stamp};
ghost use Rattle.misp_copies.specs.Copies.{is_event_key};
ghost use Rattle.misp_copies.specs.Scenes.{scene_for};
ghost use Rattle.misp_copies.specs.Barring.{Refuses, Names};
ghost use Rattle.misp_copies.specs.Renewing.{IsFull, renewed};
ghost use Rattle.misp_edit.specs.Changing.{Changes};

use crate::barring::admitted_row;
use crate::contents::{edited_event, label_after};
use misp_copies::{ChangeFault, Viewer, finished, label_of, own_row};
use misp_elem::{Content, Place, Row};
use misp_ids::{EventId, NoMemory, Stamp};
use misp_model::{EventEdit, EventEditFields};
use std::alloc::Global;

fn edited_of(alloc: Global, row: &Row, edit: &EventEditFields) -> Result<Content, NoMemory>
    ensures { IfOk result (λ made. made ≡ at_event (edited_event edit.now) row.now.content) }
{
    edited_event(alloc, &row.content, edit)
}

// The row of an event edited, where it has not the last stamp and is no tombstone.
fn edited_row(
    alloc: Global,
    row: &Row,
    edit: &EventEditFields,
    now: Stamp,
) -> Result<Vec<Row>, ChangeFault>
    requires stamp { eqb row.now.stamp last_stamp ≡ false }
    requires key { is_event_key row.now.key ≡ true }
    requires edit { IsEventEdit edit.now }
    ensures err { IfErr result (IsFull (at_event (edited_event edit.now) row.now.content)) }
    ensures ok { IfOk result (λ made. (made.items
        ≡ renewed now row.now (given edit.now.label row.now.label)
        (at_event (edited_event edit.now) row.now.content) ∷ [])
        × (is_too_long (at_event (edited_event edit.now) row.now.content) ≡ false)) }
    ensures are_rows { IfOk result (λ made. AreRows made.items) }
{
    let (_now, _held) = (now.get(), row.held);
    // No table has a tombstone and a copy of one event by one owner.
    if row.is_tombstone() {
        return Err(ChangeFault::NoMemory);
    }
    let label = label_after(label_of(row), edit.label);
    match edited_of(alloc, row, edit) {
        Ok(content) => finished(alloc, row, label, content, now),
        Err(NoMemory) => Err(ChangeFault::NoMemory),
    }
}

/// The row that an edit of the event writes. The rows are those that the caller knows of the event.
/// Where these have a tombstone of the caller's before its copy, and so are no table, the answer is
/// that memory ran out.
pub fn edit_event(
    alloc: Global,
    event: &EventId,
    edit: &EventEdit,
    who: &Viewer,
    now: Stamp,
    rows: &[Row],
) -> Result<Vec<Row>, ChangeFault>
    ensures err { (act : ℕ) (name today : List ℕ) → IfErr result
        (Refuses (change_rules (scene_for act who.now name now today rows.now)
        (EditEvent event.now edit.now))) }
    ensures ok { (act : ℕ) (name today : List ℕ) → IfOk result (λ made.
        Changes (scene_for act who.now name now today rows.now)
        (EditEvent event.now edit.now) made.items) }
    ensures are_rows { IfOk result (λ made. AreRows made.items) }
    ensures names { IfErr result (Names edit.now.label) }
{
    let edit = edit.get();
    let own = own_row(rows, &who.org, event, &Place::Event);
    match admitted_row(rows, who, event, true, own, edit.label, edit.stamp) {
        Err(fault) => Err(fault),
        Ok(None) => Ok(Vec::new(alloc)),
        Ok(Some(row)) => edited_row(alloc, row, edit, now),
    }
}
