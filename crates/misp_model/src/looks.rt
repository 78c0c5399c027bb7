//! What a request looks at of its event.

use misp_elem::Key;
use misp_ids::{ElemId, EventId, Items, OrgId};

/// Which of the rows that an organisation has of an event are looked at.
#[derive(Drop)]
pub enum Look {
    /// Those of these keys.
    Keys(Items<Key>),
    /// The event's own, those of its objects, those of the attributes and references of these
    /// uuids, and those of these keys.
    Uuids {
        uuids: Items<ElemId>,
        keys: Items<Key>,
    },
    /// The event's own, and those of proposals, verdicts and sightings.
    Statements,
    All,
}

/// The rows of an event that are looked at: of one organisation, and of all others.
#[derive(Drop)]
pub struct Looks {
    pub event: EventId,
    pub of: OrgId,
    pub own: Look,
    pub others: Look,
}
