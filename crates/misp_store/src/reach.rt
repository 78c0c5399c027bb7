//! How much of what is held is read.

ghost use Rattle.std.specs.Prelude.{◌≡◌, IfOk};
ghost use Rattle.misp_model.specs.Machine.{event_changed};
ghost use Rattle.misp_store.specs.Reach.{reach_of, wide_change_reach, wide_reach};
ghost use Rattle.misp_store.specs.Seeking.{IsInOrder, IsOfKeys};

use crate::looking::looks;
use misp_elem::NoMemory;
use misp_ids::{EventId, InstId, OrgId};
use misp_model::{Ask, Change, Looks};
use std::alloc::Global;

/// How much of the rows of events is read: none, those that one organisation has of one event,
/// those of one event that are looked at, all of one event, or all.
#[derive(Drop)]
pub enum Reach {
    Nothing,
    Own(OrgId, EventId),
    Looked(Looks),
    Event(EventId),
    All,
}

// The event that a change is about.
#[tactic(auto, unfolding(misp_model::specs::Machine::event_changed))]
fn event_changed(change: &Change) -> EventId
    ensures { result ≡ event_changed change.now }
{
    match change {
        Change::AddEvent(submission) => submission.event,
        Change::AddParts { parts, .. } => parts.submission.event,
        Change::EditEvent { event, .. }
        | Change::EditAttribute { event, .. }
        | Change::EditObject { event, .. }
        | Change::Delete { event, .. }
        | Change::DeleteReference { event, .. }
        | Change::Tag { event, .. }
        | Change::Untag { event, .. }
        | Change::DeleteEvent { event }
        | Change::Publish { event } => *event,
    }
}

// Where a change by an organisation reads.
fn wide_change_reach(by: &OrgId, change: &Change) -> Reach
    ensures { result ≡ wide_change_reach by.now change.now }
{
    match change {
        Change::AddEvent(submission) => Reach::Own(*by, submission.event),
        _ => Reach::Event(event_changed(change)),
    }
}

// Where an ask of an organisation reads.
fn wide_reach(by: &OrgId, ask: &Ask) -> Reach
    ensures { result ≡ wide_reach by.now ask.now }
{
    match ask {
        Ask::View { event, .. } | Ask::Judge { event, .. } | Ask::Sight { event, .. } => {
            Reach::Event(*event)
        }
        Ask::SyncPart { event, .. } => Reach::Event(*event),
        Ask::SyncRows(wanted) => Reach::Event(wanted.fields.event),
        Ask::Change(change) => wide_change_reach(by, change),
        Ask::Propose(draft) => Reach::Event(draft.fields.event),
        Ask::Index(_) | Ask::Search { .. } => Reach::All,
        Ask::SyncEvents | Ask::SyncManifest => Reach::All,
        Ask::Groups | Ask::SyncGroups => Reach::Nothing,
        Ask::TakePart(part) => Reach::Event(part.fields.event),
    }
}

impl Reach {
    /// How much of what is held an ask of an organisation at an instance reads.
    pub fn of(alloc: Global, here: &InstId, by: &OrgId, ask: &Ask) -> Result<Reach, NoMemory>
        ensures value { IfOk result (λ reach. reach ≡ reach_of here.now by.now ask.now) }
        ensures order { IfOk result IsInOrder }
        ensures keys { IfOk result IsOfKeys }
    {
        match looks(alloc, here, by, ask)? {
            Some(looks) => Ok(Reach::Looked(looks)),
            None => Ok(wide_reach(by, ask)),
        }
    }
}
