//! What a change comes to over the rows that its caller knows of the event.

ghost use Rattle.std.specs.Prelude.{◌≡◌, None, IfOk, IfErr, Option};
ghost use Rattle.misp_ids.specs.declared.label.Label as labels;
ghost use Rattle.misp_elem.specs.Row.{AreRows};
ghost use Rattle.misp_orgs.specs.Admin.{AdminFields};
ghost use Rattle.misp_model.specs.Scene.{Scene};
ghost use Rattle.misp_model.specs.Changing.{change_rules};
ghost use Rattle.misp_model.specs.Machine.{event_changed};
ghost use Rattle.misp_model.specs.declared.ask.Ask.TheVariants as asks;
ghost use Rattle.misp_model.specs.declared.change.Change.{Change as SomeChange};
ghost use Rattle.misp_model.specs.declared.change.Change.TheVariants.{AddEvent};
ghost use Rattle.misp_copies.specs.Barring.{Refuses, Names};
ghost use Rattle.misp_edit.specs.Changing.{Changes};
ghost use Rattle.misp_edit.specs.Refusals as adding;
ghost use Rattle.misp_core.specs.Answers.{IsAdded, IsBuilt};
ghost use Rattle.misp_core.specs.Changing.{IsMark, NamesGroupOf};
ghost use Rattle.misp_core.specs.Handing.{scene_in, knowing};
ghost use Rattle.misp_core.specs.Effects.{asked};
ghost use Rattle.misp_core.specs.Planning.{Plans};

use crate::naming::name_text;
use crate::planning::{NoPlan, Plan};
use crate::saving::{saved, saved_or_refused};
use crate::site::{Site, viewer};
use misp_copies::ChangeFault;
use misp_edit::{
    AddFault, add_event, add_parts, delete, delete_event, delete_reference, edit_attribute,
    edit_event, edit_object, tag, untag,
};
use misp_elem::{NoMemory, Row, Submission};
use misp_ids::EventId;
use misp_model::{Change, Parts};
use misp_publish::publish;
use std::alloc::Global;

// What is planned for a change of this event whose rows are made, or which a fault refuses.
fn changed(
    alloc: Global,
    event: EventId,
    made: Result<Vec<Row>, ChangeFault>,
) -> Result<Plan, NoPlan>
    ensures { (admin : AdminFields) (s : Scene) (c : SomeChange) (l : Option labels.Label) →
        event_changed c ≡ event → NamesGroupOf s c l →
        IfOk made (λ rows. Changes s c rows.items) → IfOk made (λ rows. AreRows rows.items) →
        IfErr made (Refuses (change_rules s c)) → IfErr made (Names l) →
        Plans result (asked admin s (asks.Change c)) }
{
    saved_or_refused(alloc, event, made)
}

// What is planned for an addition to this event whose rows are made, or which is refused.
fn added(alloc: Global, event: EventId, made: Result<Vec<Row>, AddFault>) -> Result<Plan, NoPlan>
    ensures { (admin : AdminFields) (s : Scene) (c : SomeChange) → event_changed c ≡ event →
        IfOk made (λ rows. Changes s c rows.items) → IfOk made (λ rows. AreRows rows.items) →
        IfErr made (adding.Refuses s c) → Plans result (asked admin s (asks.Change c)) }
{
    match made {
        Ok(rows) => Ok(saved(alloc, event, rows)),
        Err(fault) => match fault {
            AddFault::Refused(refusal) => Err(NoPlan::Refused(refusal)),
            AddFault::NoMemory => Err(NoPlan::NoMemory),
        },
    }
}

fn event_in(submission: &Submission) -> EventId
    ensures { result ≡ submission.now.event }
{
    submission.event
}

// Adds an event, over the rows that the caller knows of it.
fn add(alloc: Global, site: &Site<'_>, submission: Submission, rows: &[Row]) -> Result<Plan, NoPlan>
    requires { IsAdded submission }
    ensures { Plans result (asked site.now.admin.now
        (knowing (scene_in site.now) rows.now) (asks.Change (AddEvent submission))) }
{
    let who = viewer(site);
    let event = event_in(&submission);
    match name_text(alloc, site.admin, &who.org) {
        Ok(name) => {
            let made = add_event(alloc, submission, &who, &name, site.moment, rows);
            added(alloc, event, made)
        }
        Err(NoMemory) => {
            drop(submission);
            Err(NoPlan::NoMemory)
        }
    }
}

fn event_of(parts: &Parts) -> EventId
    ensures { result ≡ parts.now.event }
{
    parts.submission.event
}

// What is planned for a deletion, for a tag or for a publishing, over the rows that its caller
// knows of the event.
fn plan_mark(alloc: Global, site: &Site<'_>, change: Change, rows: &[Row]) -> Result<Plan, NoPlan>
    requires { IsMark change }
    ensures { Plans result (asked site.now.admin.now
        (knowing (scene_in site.now) rows.now) (asks.Change change)) }
{
    let who = viewer(site);
    let now = site.moment;
    match change {
        Change::Delete { event, place } => {
            let place = place.get();
            changed(alloc, event, delete(alloc, &event, &place, &who, now, rows))
        }
        Change::DeleteReference {
            event,
            object,
            reference: uuid,
        } => {
            let made = delete_reference(alloc, &event, &object, &uuid, &who, now, rows);
            changed(alloc, event, made)
        }
        Change::Tag {
            event,
            place,
            tag: new,
        } => {
            let made = tag(alloc, &event, &place, &new, &who, now, rows);
            drop(new);
            changed(alloc, event, made)
        }
        Change::Untag { event, place, name } => {
            let made = untag(alloc, &event, &place, &name, &who, now, rows);
            drop(name);
            changed(alloc, event, made)
        }
        Change::DeleteEvent { event } => {
            changed(alloc, event, delete_event(alloc, &event, &who, now, rows))
        }
        Change::Publish { event } => {
            changed(alloc, event, publish(alloc, &event, &who, now, rows))
        }
        _ => unreachable!(),
    }
}

/// What is planned for a change, over the rows that its caller knows of the event.
pub(crate) fn plan_change(
    alloc: Global,
    site: &Site<'_>,
    change: Change,
    rows: &[Row],
) -> Result<Plan, NoPlan>
    requires { IsBuilt (asks.Change change) }
    ensures { Plans result (asked site.now.admin.now
        (knowing (scene_in site.now) rows.now) (asks.Change change)) }
{
    let who = viewer(site);
    let now = site.moment;
    match change {
        Change::AddEvent(submission) => add(alloc, site, submission, rows),
        Change::AddParts { event, parts } => {
            let of = event_of(&parts);
            let made = add_parts(alloc, &event, parts, &who, now, rows);
            added(alloc, of, made)
        }
        Change::EditEvent { event, edit } => {
            let made = edit_event(alloc, &event, &edit, &who, now, rows);
            drop(edit);
            changed(alloc, event, made)
        }
        Change::EditAttribute { event, place, edit } => {
            let made = edit_attribute(alloc, &event, &place, &edit, &who, now, rows);
            drop(edit);
            changed(alloc, event, made)
        }
        Change::EditObject {
            event,
            object,
            edit,
        } => {
            let made = edit_object(alloc, &event, &object, &edit, &who, now, rows);
            drop(edit);
            changed(alloc, event, made)
        }
        mark => plan_mark(alloc, site, mark, rows),
    }
}
