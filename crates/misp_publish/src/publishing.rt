//! Publishing an event.

ghost use Rattle.std.specs.Prelude.{◌≡◌, ℕ, None, List, IfOk, IfErr};
ghost use Rattle.misp_elem.specs.Row.{AreRows};
ghost use Rattle.misp_model.specs.declared.change.Change.TheVariants.{Publish};
ghost use Rattle.misp_model.specs.Changing.{change_rules};
ghost use Rattle.misp_copies.specs.Scenes.{scene_for};
ghost use Rattle.misp_copies.specs.Barring.{Names, Refuses};
ghost use Rattle.misp_publish.specs.Release.{Changes};

use crate::fault::PublishFault;
use crate::releasing::release_event;
use misp_copies::{ChangeFault, Viewer, may_change, own_row};
use misp_elem::{Place, Row};
use misp_ids::{EventId, Stamp};
use std::alloc::Global;

/// The rows that publishing the event writes, over those that the caller knows of it.
pub fn publish(
    alloc: Global,
    event: &EventId,
    who: &Viewer<'_>,
    now: Stamp,
    rows: &[Row],
) -> Result<Vec<Row>, ChangeFault>
    ensures err { (act : ℕ) (name today : List ℕ) → IfErr result
        (Refuses (change_rules (scene_for act who.now name now today rows.now)
        (Publish event.now))) }
    ensures ok { (act : ℕ) (name today : List ℕ) → IfOk result (λ made.
        Changes (scene_for act who.now name now today rows.now) (Publish event.now) made.items) }
    ensures are_rows { IfOk result (λ made. AreRows made.items) }
    ensures names { IfErr result (Names None) }
{
    match may_change(rows, who, event, true) {
        Err(fault) => Err(fault),
        Ok(()) => {
            let own = match own_row(rows, &who.org, event, &Place::Event) {
                Some(own) => own,
                None => unreachable!(),
            };
            match release_event(alloc, event, own, rows, &who.org, now) {
                Ok(made) => Ok(made),
                Err(PublishFault::TimeLimit) => Err(ChangeFault::TimeLimit),
                Err(PublishFault::NoMemory) => Err(ChangeFault::NoMemory),
            }
        }
    }
}
