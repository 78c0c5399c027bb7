//! Writes the list of the events that a pull brings.

ghost use Rattle.std.specs.Prelude.{◌≡◌, ◌++◌, OnOk};
ghost use Rattle.misp_core.specs.EventList.{event_list_text, event_parts_text, others_text};

use crate::reply::{put_number, put_text};
use misp_core::EventParts;
use misp_ids::NoMemory;
use std::alloc::Global;

// Writes an event with the number of its packages.
#[tactic(auto, unfolding(misp_core::specs::EventList::event_parts_text))]
fn put_event_parts(out: &mut Vec<u8>, alloc: Global, event: &EventParts) -> Result<(), NoMemory>
    ensures { OnOk result (out.new.items ≡ out.old.items ++ event_parts_text event.now) }
{
    let uuid = event.event.0.to_text(alloc)?;
    put_text(out, "{\"parts\":")?;
    put_number(out, alloc, event.parts as usize)?;
    put_text(out, ",\"uuid\":\"")?;
    put_text(out, uuid.as_str())?;
    put_text(out, "\"}")
}

// Writes such events after another one.
fn put_others(out: &mut Vec<u8>, alloc: Global, events: &[EventParts]) -> Result<(), NoMemory>
    ensures { OnOk result (out.new.items ≡ out.old.items ++ others_text events.now) }
{
    for event in events {
        put_text(out, ",")?;
        put_event_parts(out, alloc, event)?;
    }
    Ok(())
}

/// Writes such events as a list.
pub(crate) fn put_event_list(
    out: &mut Vec<u8>,
    alloc: Global,
    events: &[EventParts],
) -> Result<(), NoMemory>
    ensures { OnOk result (out.new.items ≡ out.old.items ++ event_list_text events.now) }
{
    let Some((first, others)) = events.split_first() else {
        return put_text(out, "[]");
    };
    put_text(out, "[")?;
    put_event_parts(out, alloc, first)?;
    put_others(out, alloc, others)?;
    put_text(out, "]")
}
