//! What an organisation sees of an event.

use crate::row::Row;
use misp_ids::{GroupId, Items, Text};

/// An attribute, with the proposals for it and the sightings of it.
#[derive(Drop)]
pub struct VisibleAttribute {
    pub row: Row,
    pub proposals: Items<Row>,
    pub sightings: Items<Row>,
}

/// An object, with its attributes and references.
#[derive(Drop)]
pub struct VisibleObject {
    pub row: Row,
    pub attributes: Items<VisibleAttribute>,
    pub references: Items<Row>,
}

/// An event, with what is in it, and the proposals for new attributes.
#[derive(Drop)]
pub struct VisibleEvent {
    pub row: Row,
    /// The name of the holder, empty where it is not known here.
    pub org_name: Text,
    pub attributes: Items<VisibleAttribute>,
    pub objects: Items<VisibleObject>,
    pub proposals: Items<Row>,
    /// The names of the groups that labels name.
    pub group_names: Items<(GroupId, Text)>,
}
