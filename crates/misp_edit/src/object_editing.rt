//! Editing an object.

ghost use Rattle.std.specs.Prelude.{◌≡◌, ℕ, List, [], ◌∷◌, eqb, false, IfOk, IfErr};
ghost use Rattle.misp_elem.specs.Row.{AreRows, barred_labels};
ghost use Rattle.misp_model.specs.declared.change.Change.TheVariants.{EditObject};
ghost use Rattle.misp_model.specs.Changing.{change_rules};
ghost use Rattle.misp_model.specs.Edit.{IsObjectEdit};
ghost use Rattle.misp_model.specs.Edits.{at_object, edited_object, given};
ghost use Rattle.misp_model.specs.Scene.{is_too_long};
ghost use Rattle.misp_ids.specs.Moments.{last_stamp};
ghost use Rattle.misp_copies.specs.Scenes.{scene_for};
ghost use Rattle.misp_copies.specs.Barring.{Refuses, Names};
ghost use Rattle.misp_copies.specs.Renewing.{IsFull, renewed};
ghost use Rattle.misp_edit.specs.Changing.{Changes};

use crate::barring::admitted_row;
use crate::contents::{edited_object, label_after};
use misp_copies::{ChangeFault, Viewer, finished, has_live, label_of, own_row};
use misp_elem::{Content, Place, Row};
use misp_ids::{ElemId, EventId, NoMemory, Stamp};
use misp_model::{ObjectEdit, ObjectEditFields};
use std::alloc::Global;

fn edited_of(alloc: Global, row: &Row, edit: &ObjectEditFields) -> Result<Content, NoMemory>
    ensures { IfOk result (λ made. made ≡ at_object (edited_object edit.now) row.now.content) }
{
    edited_object(alloc, &row.content, edit)
}

// The row of an object edited, where it has not the last stamp.
fn edited_row(
    alloc: Global,
    row: &Row,
    edit: &ObjectEditFields,
    now: Stamp,
) -> Result<Vec<Row>, ChangeFault>
    requires stamp { eqb row.now.stamp last_stamp ≡ false }
    requires key { barred_labels row.now.key ≡ [] }
    requires edit { IsObjectEdit edit.now }
    ensures err { IfErr result (IsFull (at_object (edited_object edit.now) row.now.content)) }
    ensures ok { IfOk result (λ made. (made.items
        ≡ renewed now row.now (given edit.now.label row.now.label)
        (at_object (edited_object edit.now) row.now.content) ∷ [])
        × (is_too_long (at_object (edited_object edit.now) row.now.content) ≡ false)) }
    ensures are_rows { IfOk result (λ made. AreRows made.items) }
{
    let (_now, _held) = (now.get(), row.held);
    let label = label_after(label_of(row), edit.label);
    match edited_of(alloc, row, edit) {
        Ok(content) => finished(alloc, row, label, content, now),
        Err(NoMemory) => Err(ChangeFault::NoMemory),
    }
}

/// The row that an edit of the object writes. The rows are those that the caller knows of the
/// event.
pub fn edit_object(
    alloc: Global,
    event: &EventId,
    object: &ElemId,
    edit: &ObjectEdit,
    who: &Viewer,
    now: Stamp,
    rows: &[Row],
) -> Result<Vec<Row>, ChangeFault>
    ensures err { (act : ℕ) (name today : List ℕ) → IfErr result
        (Refuses (change_rules (scene_for act who.now name now today rows.now)
        (EditObject event.now object.now edit.now))) }
    ensures ok { (act : ℕ) (name today : List ℕ) → IfOk result (λ made.
        Changes (scene_for act who.now name now today rows.now)
        (EditObject event.now object.now edit.now) made.items) }
    ensures are_rows { IfOk result (λ made. AreRows made.items) }
    ensures names { IfErr result (Names edit.now.label) }
{
    let place = Place::Object(*object);
    let edit = edit.get();
    let fits = has_live(rows, &who.org, event, &place);
    let own = own_row(rows, &who.org, event, &place);
    match admitted_row(rows, who, event, fits, own, edit.label, edit.stamp) {
        Err(fault) => Err(fault),
        Ok(None) => Ok(Vec::new(alloc)),
        Ok(Some(row)) => edited_row(alloc, row, edit, now),
    }
}
