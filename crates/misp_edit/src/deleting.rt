//! Deleting an element.

ghost use Rattle.std.specs.Prelude.{◌≡◌, ℕ, List, [], ◌∷◌, eqb, false, None, IfOk, IfErr};
ghost use Rattle.misp_elem.specs.Row.{AreRows};
ghost use Rattle.misp_model.specs.declared.change.Change.TheVariants.{Delete};
ghost use Rattle.misp_model.specs.Changing.{change_rules};
ghost use Rattle.misp_model.specs.Edits.{as_deleted};
ghost use Rattle.misp_model.specs.Scene.{is_too_long};
ghost use Rattle.misp_ids.specs.Moments.{last_stamp};
ghost use Rattle.misp_copies.specs.Scenes.{scene_for};
ghost use Rattle.misp_copies.specs.declared.change_fault.ChangeFault.TheVariants as faults;
ghost use Rattle.misp_copies.specs.Barring.{Refuses, Names};
ghost use Rattle.misp_copies.specs.Renewing.{renewed};
ghost use Rattle.misp_edit.specs.Changing.{Changes};

use crate::barring::admitted_row;
use crate::contents::deleted;
use misp_copies::{ChangeFault, Viewer, finished, has_live, label_of, own_row};
use misp_elem::{Content, Place, Row};
use misp_ids::{EventId, NoMemory, Stamp};
use std::alloc::Global;

fn deleted_of(alloc: Global, row: &Row) -> Result<Content, NoMemory>
    ensures { IfOk result (λ made. made ≡ as_deleted row.now.content) }
{
    deleted(alloc, &row.content)
}

/// The row deleted, where it has not the last stamp. It is never too long.
pub(crate) fn deleted_row(alloc: Global, row: &Row, now: Stamp) -> Result<Vec<Row>, ChangeFault>
    requires { eqb row.now.stamp last_stamp ≡ false }
    ensures err { IfErr result (λ fault. fault ≡ faults.NoMemory) }
    ensures ok { IfOk result (λ made.
        (made.items ≡ renewed now row.now row.now.label (as_deleted row.now.content) ∷ [])
        × (is_too_long (as_deleted row.now.content) ≡ false)) }
    ensures are_rows { IfOk result (λ made. AreRows made.items) }
{
    let (_now, _held) = (now.get(), row.held);
    match deleted_of(alloc, row) {
        Ok(content) => finished(alloc, row, label_of(row), content, now),
        Err(NoMemory) => Err(ChangeFault::NoMemory),
    }
}

/// The row that deleting the element at this place writes. The rows are those that the caller knows
/// of the event.
pub fn delete(
    alloc: Global,
    event: &EventId,
    place: &Place,
    who: &Viewer,
    now: Stamp,
    rows: &[Row],
) -> Result<Vec<Row>, ChangeFault>
    ensures err { (act : ℕ) (name today : List ℕ) → IfErr result
        (Refuses (change_rules (scene_for act who.now name now today rows.now)
        (Delete event.now place.now))) }
    ensures ok { (act : ℕ) (name today : List ℕ) → IfOk result (λ made.
        Changes (scene_for act who.now name now today rows.now)
        (Delete event.now place.now) made.items) }
    ensures are_rows { IfOk result (λ made. AreRows made.items) }
    ensures names { IfErr result (Names None) }
{
    let fits = has_live(rows, &who.org, event, place);
    let own = own_row(rows, &who.org, event, place);
    match admitted_row(rows, who, event, fits, own, None, None) {
        Err(fault) => Err(fault),
        Ok(None) => Ok(Vec::new(alloc)),
        Ok(Some(row)) => deleted_row(alloc, row, now),
    }
}
