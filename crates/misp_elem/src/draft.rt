//! What a body brings.

use crate::content::{Content, ReferenceBody, Tag};
use crate::key::Place;
use crate::shared::Shared;
use misp_ids::{ElemId, EventId, Items, Label, Text, Uid};
use std::marker::Model;

/// An element of an event, as a body brings it. It is not the event itself, its content is of its
/// place's kind, and its label is one that such an element can have.
///
/// A contract sees it as its fields.
#[derive(Drop)]
pub struct Draft {
    /// Its place in the reading order of the body, where an event has 0.
    pub number: u32,
    pub place: Place,
    pub label: Label,
    pub content: Content,
}

impl Model for Draft {
    ghost use Rattle.misp_elem.specs.Draft.{DraftFields, IsDraft};

    ghost Value = { DraftFields };

    ghost view = { λ d.
        record { number = d.number; place = d.place; label = d.label; content = d.content } };

    ghost invariant = { λ d. IsDraft
        (record { number = d.number; place = d.place; label = d.label; content = d.content }) };
}

/// A reference of an object, as a body brings it.
///
/// A contract sees it as its fields.
#[derive(Drop)]
pub struct ReferenceDraft {
    /// Its place in the reading order of the body, where an event has 0.
    pub number: u32,
    pub object: ElemId,
    pub uuid: ElemId,
    pub referenced: ElemId,
    pub body: Shared<ReferenceBody>,
}

impl Model for ReferenceDraft {
    ghost use Rattle.misp_elem.specs.Draft.{ReferenceDraftFields, IsReferenceDraft};

    ghost Value = { ReferenceDraftFields };

    ghost view = { λ r. record {
      number = r.number;
      object = r.object;
      uuid = r.uuid;
      referenced = r.referenced;
      body = r.body;
    } };

    ghost invariant = { λ r. IsReferenceDraft (record {
      number = r.number;
      object = r.object;
      uuid = r.uuid;
      referenced = r.referenced;
      body = r.body;
    }) };
}

/// An event, as a body brings it. Without a date it has that of the moment.
///
/// A contract sees it as its fields.
#[derive(Drop)]
pub struct EventDraft {
    pub info: Text,
    pub date: Option<Text>,
    pub threat_level_id: u8,
    pub analysis: u8,
    pub extends_uuid: Option<Uid>,
    pub tags: Items<Tag>,
}

impl Model for EventDraft {
    ghost use Rattle.misp_elem.specs.Draft.{EventDraftFields, IsEventDraft};

    ghost Value = { EventDraftFields };

    ghost view = { λ d. record {
      info = d.info;
      date = d.date;
      threat_level_id = d.threat_level_id;
      analysis = d.analysis;
      extends_uuid = d.extends_uuid;
      tags = d.tags;
    } };

    ghost invariant = { λ d. IsEventDraft (record {
      info = d.info;
      date = d.date;
      threat_level_id = d.threat_level_id;
      analysis = d.analysis;
      extends_uuid = d.extends_uuid;
      tags = d.tags;
    }) };
}

/// An event with its elements, or elements for an event that is there, in reading order. With a
/// body, its label is not `Inherit`.
///
/// A contract sees it as its fields.
#[derive(Drop)]
pub struct Submission {
    pub event: EventId,
    pub body: Option<EventDraft>,
    pub label: Label,
    pub parts: Items<Draft>,
    pub references: Items<ReferenceDraft>,
}

impl Model for Submission {
    ghost use Rattle.misp_elem.specs.Draft.{SubmissionFields, IsSubmission};

    ghost Value = { SubmissionFields };

    ghost view = { λ s. record {
      event = s.event;
      body = s.body;
      label = s.label;
      parts = s.parts;
      references = s.references;
    } };

    ghost invariant = { λ s. IsSubmission (record {
      event = s.event;
      body = s.body;
      label = s.label;
      parts = s.parts;
      references = s.references;
    }) };
}
