//! What a manifest says to the partner of the caller's key.

ghost use Rattle.std.specs.Prelude.{◌≡◌, List, None, true, IfOk, IfSome};
ghost use Rattle.std.specs.List.{list_all};
ghost use Rattle.misp_elem.specs.declared.row.RowFields.{RowFields};
ghost use Rattle.misp_elem.specs.Parents.{event_of};
ghost use Rattle.misp_ids.specs.Same.{same_event};
ghost use Rattle.misp_model.specs.declared.ask.Ask.TheVariants as asks;
ghost use Rattle.misp_model.specs.Machine.{seeing};
ghost use Rattle.misp_model.specs.Manifests.{pulled_manifest};
ghost use Rattle.misp_model.specs.Packing.{packages};
ghost use Rattle.misp_model.specs.Pulling.{pulled_rows};
ghost use Rattle.misp_model.specs.View.{IsTable};
ghost use Rattle.misp_manifest.specs.Manifest.{manifest_event};
ghost use Rattle.misp_wanted.specs.Manifests.{AreEventsAfter, IsManifest};
ghost use Rattle.misp_core.specs.Effects.{asked, by_keeper};
ghost use Rattle.misp_core.specs.Handing.{pull_scene};
ghost use Rattle.misp_core.specs.Planning.{Plans, stop_planned};
ghost use Rattle.misp_core.specs.Pulling.{IsByEvent, IsSaidOf, Rises};
ghost use Rattle.misp_core.specs.Sound.{IsSoundAnswer};

use crate::by_event::{by_event, event_at, events_of, part};
use crate::planning::{NoPlan, Plan, told};
use crate::pulling::{put, via_to};
use crate::reply::Answer;
use crate::site::{Site, partner};
use misp_elem::{NoMemory, Row};
use misp_ids::{EventId, Items};
use misp_manifest::ManifestEvent;
use misp_package::outgoing_keys;
use std::alloc::Global;

// What it says of an event of which something passes, where these are its rows here. No row is
// copied.
fn event_said(
    alloc: Global,
    site: &Site<'_>,
    event: &EventId,
    rows: &[Row],
) -> Result<Option<ManifestEvent>, NoMemory>
    ensures said { IsTable rows.now →
        list_all (λ row. same_event (event_of row.key) event.now) rows.now ≡ true →
        IfOk result (λ said. said ≡ manifest_event event.now
        (packages (pulled_rows (seeing (pull_scene site.now) rows.now)))) }
    ensures event { IfOk result (λ said. IfSome said (IsSaidOf event.now)) }
{
    match partner(site.caller) {
        Some(dest) => outgoing_keys(alloc, rows, event, &via_to(site, dest)),
        None => Ok(None),
    }
}

// What it says of each event, over a list of rows by events.
fn events_said(alloc: Global, site: &Site<'_>, list: &[Row]) -> Result<Vec<ManifestEvent>, NoMemory>
    ensures said { (rows : List RowFields) → IsTable rows → IsByEvent list.now rows →
        IfOk result (λ events. events.items
        ≡ pulled_manifest (seeing (pull_scene site.now) rows)) }
    ensures ascend { Rises list.now → IfOk result (λ events. AreEventsAfter None events.items) }
{
    let numbers = events_of(alloc, list)?;
    let mut events = Vec::new(alloc);
    for number in numbers.as_slice() {
        let event = event_at(*number);
        put(
            &mut events,
            event_said(alloc, site, &event, part(list, &event))?,
        )?;
    }
    Ok(events)
}

// As many events as four bytes count; memory runs out for more.
fn counted(events: Vec<ManifestEvent>) -> Result<Vec<ManifestEvent>, NoMemory>
    ensures same { IfOk result (λ counted. counted.items ≡ events.items) }
    ensures manifest { AreEventsAfter None events.items →
        IfOk result (λ counted. IsManifest counted.items) }
{
    match u32::try_from(events.len()) {
        Ok(_) => Ok(events),
        Err(_) => {
            drop(events);
            Err(NoMemory)
        }
    }
}

/// Tells the keys and stamps of all that a pull brings, over all rows that are read. Nothing is
/// packed.
pub(crate) fn plan_manifest(alloc: Global, site: &Site<'_>, rows: Vec<Row>) -> Result<Plan, NoPlan>
    ensures plan { IsTable rows.items → Plans result (asked site.now.admin.now
        (seeing (pull_scene site.now) rows.items) asks.SyncManifest) }
    ensures sound { IfOk result (λ plan. IsSoundAnswer plan.answer) }
    ensures no_fault { stop_planned result ≡ by_keeper → ⊥ }
{
    let list = by_event(rows)?;
    let said = events_said(alloc, site, &list)?;
    let events = counted(said)?;
    Ok(told(Answer::Manifest(Items::of(events))))
}
