//! Deleting a reference.

ghost use Rattle.std.specs.Prelude.{◌≡◌, ℕ, List, None, is_some, IfOk, IfErr};
ghost use Rattle.std.specs.Option.{option_copied};
ghost use Rattle.misp_elem.specs.Row.{AreRows};
ghost use Rattle.misp_model.specs.declared.change.Change.TheVariants.{DeleteReference};
ghost use Rattle.misp_model.specs.Changing.{change_rules, is_reference_named};
ghost use Rattle.misp_copies.specs.Scenes.{scene_for};
ghost use Rattle.misp_copies.specs.Barring.{Refuses, Names};
ghost use Rattle.misp_edit.specs.Changing.{Changes};
ghost use Rattle.misp_edit.specs.Limits.{is_live_reference, live_reference};

use crate::barring::admitted_row;
use crate::deleting::deleted_row;
use misp_copies::{ChangeFault, Viewer, is_owned, live};
use misp_elem::{KeyForm, Row};
use misp_ids::{ElemId, EventId, OrgId, Stamp};
use std::alloc::Global;

// Whether it is a reference of this object and uuid.
#[tactic(auto, unfolding(misp_model::specs::Changing::is_reference_named, misp_ids::specs::Same::same_event, misp_ids::specs::Same::same_elem))]
fn is_named(row: &Row, event: &EventId, object: &ElemId, reference: &ElemId) -> bool
    ensures { result ≡ is_reference_named event.now object.now reference.now row.now.key }
{
    match &row.key.form {
        KeyForm::Reference {
            event: of,
            object: from,
            uuid,
            ..
        } => of == event && from == object && uuid == reference,
        _ => false,
    }
}

// Whether it is the owner's live reference of this object and uuid.
#[tactic(auto, unfolding(crate::specs::Limits::is_live_reference))]
fn is_live_reference(
    row: &Row,
    rows: &[Row],
    owner: &OrgId,
    event: &EventId,
    object: &ElemId,
    reference: &ElemId,
) -> bool
    ensures { result
        ≡ is_live_reference rows.now owner.now event.now object.now reference.now row.now }
{
    is_owned(row, owner) && is_named(row, event, object, reference) && live(rows, row)
}

// The owner's live reference of this object and uuid.
#[tactic(auto, unfolding(crate::specs::Limits::live_reference))]
fn live_reference<'a>(
    rows: &'a [Row],
    owner: &OrgId,
    event: &EventId,
    object: &ElemId,
    reference: &ElemId,
) -> Option<&'a Row>
    ensures { option_copied result
        ≡ live_reference rows.now owner.now event.now object.now reference.now }
{
    rows.iter().find(|row| is_live_reference(row, rows, owner, event, object, reference))
}

fn is_there(row: Option<&Row>) -> bool
    ensures { result ≡ is_some (option_copied row.entry) }
{
    row.is_some()
}

/// The row that deleting the reference of this object and uuid writes. The rows are those that the
/// caller knows of the event.
pub fn delete_reference(
    alloc: Global,
    event: &EventId,
    object: &ElemId,
    reference: &ElemId,
    who: &Viewer,
    now: Stamp,
    rows: &[Row],
) -> Result<Vec<Row>, ChangeFault>
    ensures err { (act : ℕ) (name today : List ℕ) → IfErr result
        (Refuses (change_rules (scene_for act who.now name now today rows.now)
        (DeleteReference event.now object.now reference.now))) }
    ensures ok { (act : ℕ) (name today : List ℕ) → IfOk result (λ made.
        Changes (scene_for act who.now name now today rows.now)
        (DeleteReference event.now object.now reference.now) made.items) }
    ensures are_rows { IfOk result (λ made. AreRows made.items) }
    ensures names { IfErr result (Names None) }
{
    let own = live_reference(rows, &who.org, event, object, reference);
    match admitted_row(rows, who, event, is_there(own), own, None, None) {
        Err(fault) => Err(fault),
        Ok(None) => Ok(Vec::new(alloc)),
        Ok(Some(row)) => deleted_row(alloc, row, now),
    }
}
