//! What a row says of what its key names.

use crate::shared::Shared;
use misp_dates::Moment;
use misp_ids::{Items, OrgId, Stamp, Text, Uid};

/// A tag. Its colour is red, green and blue.
#[derive(Drop)]
pub struct Tag {
    pub name: Text,
    pub colour: [u8; 3],
    pub exportable: bool,
}

/// An event. Its date is written `YYYY-MM-DD`.
#[derive(Drop)]
pub struct EventBody {
    pub info: Text,
    pub date: Text,
    /// 1 High, 2 Medium, 3 Low, 4 Undefined.
    pub threat_level_id: u8,
    /// 0 Initial, 1 Ongoing, 2 Complete.
    pub analysis: u8,
    /// When it was last published, or 0.
    pub publish_stamp: Stamp,
    pub extends_uuid: Option<Uid>,
    /// Who created it, and under which name.
    pub orgc: OrgId,
    pub orgc_name: Text,
    pub tags: Items<Tag>,
}

#[derive(Drop)]
pub struct ObjectBody {
    pub name: Text,
    pub meta_category: Text,
    pub description: Text,
    pub comment: Text,
    pub template_uuid: Option<Uid>,
    pub template_version: u64,
    pub deleted: bool,
}

#[derive(Drop)]
pub struct AttributeBody {
    pub kind: Text,
    /// Its number, from 0 to 15, in the order in which the core format lists the categories.
    pub category: u8,
    pub to_ids: bool,
    pub comment: Text,
    pub deleted: bool,
    pub value: Text,
    pub tags: Items<Tag>,
    /// The name of its part in the template of its object, empty where it has none.
    pub object_relation: Text,
    /// From when to when what it names was seen.
    pub first_seen: Option<Moment>,
    pub last_seen: Option<Moment>,
}

#[derive(Drop)]
pub struct ReferenceBody {
    pub relationship_type: Text,
    pub comment: Text,
    pub deleted: bool,
}

#[derive(Drop)]
pub struct ProposalBody {
    /// Whether it asks to delete its target.
    pub remove: bool,
    pub by_name: Text,
    pub kind: Text,
    pub category: u8,
    pub to_ids: bool,
    pub comment: Text,
    pub value: Text,
}

#[derive(Drop)]
pub struct SightingBody {
    pub by_name: Text,
    pub kind: u8,
    pub date: Stamp,
    pub source: Text,
}

/// What a row says of what its key names.
#[derive(Drop)]
pub enum Content {
    Event(Shared<EventBody>),
    Object(Shared<ObjectBody>),
    Attribute(Shared<AttributeBody>),
    Reference(Shared<ReferenceBody>),
    Proposal(Shared<ProposalBody>),
    /// Whether a proposal was accepted.
    Verdict(bool),
    Sighting(Shared<SightingBody>),
    /// The tombstone of a deleted event.
    Gone,
}
