//! Changes of events.

use crate::edit::{AttributeEdit, EventEdit, ObjectEdit};
use crate::parts::{NewTag, Parts};
use crate::place::{AttributePlace, ElementPlace, TaggedPlace};
use misp_elem::Submission;
use misp_ids::{ElemId, EventId, Text};

/// A change of an event, of its elements or of its tags.
#[derive(Drop)]
pub enum Change {
    AddEvent(Submission),
    AddParts {
        event: EventId,
        parts: Parts,
    },
    EditEvent {
        event: EventId,
        edit: EventEdit,
    },
    EditAttribute {
        event: EventId,
        place: AttributePlace,
        edit: AttributeEdit,
    },
    EditObject {
        event: EventId,
        object: ElemId,
        edit: ObjectEdit,
    },
    Delete {
        event: EventId,
        place: ElementPlace,
    },
    DeleteReference {
        event: EventId,
        object: ElemId,
        reference: ElemId,
    },
    Tag {
        event: EventId,
        place: TaggedPlace,
        tag: NewTag,
    },
    Untag {
        event: EventId,
        place: TaggedPlace,
        name: Text,
    },
    DeleteEvent {
        event: EventId,
    },
    Publish {
        event: EventId,
    },
}
