//! Deleting an event.

ghost use Rattle.std.specs.Prelude.{◌≡◌, ℕ, List, [], ◌∷◌, eqb, false, true, None, IfOk, IfErr};
ghost use Rattle.std.specs.List.{find};
ghost use Rattle.std.specs.Option.{option_copied};
ghost use Rattle.misp_ids.specs.declared.label.Label.TheVariants as labels;
ghost use Rattle.misp_elem.specs.declared.key.Place.TheVariants as places;
ghost use Rattle.misp_elem.specs.declared.key.KeyForm.TheVariants.{Element};
ghost use Rattle.misp_elem.specs.declared.content.Content.TheVariants as contents;
ghost use Rattle.misp_elem.specs.Row.{AreRows};
ghost use Rattle.misp_model.specs.declared.change.Change.TheVariants.{DeleteEvent};
ghost use Rattle.misp_model.specs.View.{is_row_of};
ghost use Rattle.misp_model.specs.Changing.{change_rules};
ghost use Rattle.misp_ids.specs.Moments.{last_stamp};
ghost use Rattle.misp_copies.specs.Renewing.{IsFull, renewed};
ghost use Rattle.misp_edit.specs.Changing.{Changes, event_deleting};
ghost use Rattle.misp_copies.specs.Copies.{is_event_key};
ghost use Rattle.misp_copies.specs.Scenes.{scene_for};
ghost use Rattle.misp_copies.specs.Barring.{Refuses, Names, outcome};

use crate::barring::late_fault;
use misp_copies::{ChangeFault, Viewer, finished, may_delete, own_row};
use misp_elem::{Content, Place, Row};
use misp_ids::{EventId, Label, Stamp};
use std::alloc::Global;

// The caller's row of the event, where nothing refuses to delete it.
fn admitted_event<'a>(
    rows: &'a [Row],
    who: &Viewer,
    event: &EventId,
) -> Result<Option<&'a Row>, ChangeFault>
    ensures rule { outcome result
        ≡ event_deleting rows.now who.now.groups.now who.now.here who.now.org event.now }
    ensures own { IfOk result (λ own. option_copied own
        ≡ find (is_row_of who.now.org (Element event.now places.Event)) rows.now) }
    ensures names { IfErr result (Names None) }
{
    match may_delete(rows, who, event) {
        Err(fault) => Err(fault),
        Ok(()) => {
            let own = own_row(rows, &who.org, event, &Place::Event);
            match late_fault(own, None, None, who) {
                Err(fault) => Err(fault),
                Ok(()) => Ok(own),
            }
        }
    }
}

// The tombstone in the place of the event's row, where that has not the last stamp.
fn tombstone_for(alloc: Global, row: &Row, now: Stamp) -> Result<Vec<Row>, ChangeFault>
    requires stamp { eqb row.now.stamp last_stamp ≡ false }
    requires key { is_event_key row.now.key ≡ true }
    ensures err { IfErr result (IsFull contents.Gone) }
    ensures ok { IfOk result (λ made.
        made.items ≡ renewed now row.now labels.Own contents.Gone ∷ []) }
    ensures are_rows { IfOk result (λ made. AreRows made.items) }
{
    let (_now, _held) = (now.get(), row.held);
    finished(alloc, row, Label::Own, Content::Gone, now)
}

/// The tombstone that deleting the event writes. The rows are those that the caller knows of the
/// event.
pub fn delete_event(
    alloc: Global,
    event: &EventId,
    who: &Viewer,
    now: Stamp,
    rows: &[Row],
) -> Result<Vec<Row>, ChangeFault>
    ensures err { (act : ℕ) (name today : List ℕ) → IfErr result
        (Refuses (change_rules (scene_for act who.now name now today rows.now)
        (DeleteEvent event.now))) }
    ensures ok { (act : ℕ) (name today : List ℕ) → IfOk result (λ made.
        Changes (scene_for act who.now name now today rows.now)
        (DeleteEvent event.now) made.items) }
    ensures are_rows { IfOk result (λ made. AreRows made.items) }
    ensures names { IfErr result (Names None) }
{
    match admitted_event(rows, who, event) {
        Err(fault) => Err(fault),
        Ok(None) => Ok(Vec::new(alloc)),
        Ok(Some(row)) => tombstone_for(alloc, row, now),
    }
}
