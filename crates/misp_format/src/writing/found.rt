//! Lists of events, and what is found, as they are written.

ghost use Rattle.std.specs.Prelude.{◌≡◌, ◌++◌, codes, OnOk};
ghost use Rattle.serde_json.specs.Data.{member, no_members, object};
ghost use Rattle.serde_json.specs.Written.{compact_text};
ghost use Rattle.misp_format.specs.Fields.{list_data};
ghost use Rattle.misp_format.specs.Found.{events_text, hit_texts, hit_with, hits_text, index_text, listed_with};
ghost use Rattle.misp_format.specs.Names.{names_in};
ghost use Rattle.misp_format.specs.Tokens.{put_members, put_value};

use crate::writing::element::{
    put_attribute_front, put_attribute_lists, put_attribute_rest, put_seen_and_part,
};
use crate::writing::event::{attribute_count, put_event_value};
use crate::writing::group_names::{GroupNames, group_names};
use crate::writing::keys::{label_number, put_stamp_and_uuid};
use crate::writing::listed::{Listed, put_list, put_list_text};
use crate::writing::writer::Writer;
use misp_elem::{AttributeBody, Content, EventBody, VisibleAttribute, VisibleEvent};
use misp_ids::{GroupId, NoMemory, Text};
use std::alloc::Global;
use std::collections::BTreeMap;
use std::mem;

// ---- lists of events

/// Events as a list of events shows them.
struct ListedEvents;

impl Listed for ListedEvents {
    ghost use Rattle.misp_format.specs.Found.{listed_data};

    type Item = VisibleEvent;

    ghost value = { λ _. listed_data };

    #[tactic(auto, unfolding(crate::specs::Found::listed_data))]
    fn put(out: &mut Writer, _names: &GroupNames, event: &VisibleEvent) -> Result<(), NoMemory> {
        match &event.row.content {
            Content::Event(body) => put_listed(out, event, body),
            _ => out.null(),
        }
    }
}

#[tactic(auto, unfolding(crate::specs::Found::listed_with))]
fn put_listed(out: &mut Writer, event: &VisibleEvent, body: &EventBody) -> Result<(), NoMemory>
    ensures { OnOk result (out.new ≡ put_value (listed_with event.now body.now) out.old) }
{
    out.begin_object()?;
    out.org("Orgc", &body.orgc, body.orgc_name.as_str())?;
    out.number("attribute_count", attribute_count(event)? as u64)?;
    out.text("date", body.date.as_str())?;
    out.number("distribution", label_number(&event.row.label))?;
    out.text("info", body.info.as_str())?;
    out.flag("published", !event.row.held)?;
    put_stamp_and_uuid(out, &event.row)?;
    out.end_object()?;
    Ok(())
}

/// Puts the text of a list of events at the end of a text.
pub fn put_index(text: &mut Vec<u8>, alloc: Global, events: &[VisibleEvent]) -> Result<(), NoMemory>
    ensures { OnOk result (text.new.items ≡ text.old.items ++ index_text events.now) }
{
    let names = BTreeMap::new(alloc);
    put_list_text::<ListedEvents>(text, alloc, &names, events)
}

// ---- what is found, as an object of one list

#[tactic(auto, using(crate::proofs::Texts::object_put))]
fn put_found_value<L: Listed>(
    out: &mut Writer,
    name: &str,
    names: &GroupNames,
    items: &[L::Item],
) -> Result<(), NoMemory>
    ensures { OnOk result (out.new ≡ put_value (object (member name.now
        (list_data (L.value (names_in names.now)) items.now) no_members)) out.old) }
{
    out.begin_object()?;
    put_list::<L>(out, name, names, items)?;
    out.end_object()?;
    Ok(())
}

// Puts the text of an object, whose only member is the list of these items, at the end of a text.
fn put_found<L: Listed>(
    text: &mut Vec<u8>,
    alloc: Global,
    name: &str,
    names: &GroupNames,
    items: &[L::Item],
) -> Result<(), NoMemory>
    ensures { OnOk result (text.new.items ≡ text.old.items ++ compact_text (object (member name.now
        (list_data (L.value (names_in names.now)) items.now) no_members))) }
{
    let mut out = Writer::behind(alloc, mem::replace(text, Vec::new(alloc)));
    let put = put_found_value::<L>(&mut out, name, names, items);
    *text = out.into_text();
    put?;
    Ok(())
}

// ---- attributes that are found

/// Attributes, each with the event that it is of.
struct Hits;

impl Listed for Hits {
    ghost use Rattle.misp_format.specs.Found.{hit_data};

    type Item = VisibleAttribute;

    ghost value = { hit_data };

    #[tactic(auto, unfolding(crate::specs::Found::hit_data))]
    fn put(out: &mut Writer, names: &GroupNames, hit: &VisibleAttribute) -> Result<(), NoMemory> {
        match &hit.row.content {
            Content::Attribute(body) => put_hit(out, names, hit, body),
            _ => out.null(),
        }
    }
}

#[tactic(auto, using(crate::proofs::Texts::hit_put))]
fn put_hit(
    out: &mut Writer,
    names: &GroupNames,
    hit: &VisibleAttribute,
    body: &AttributeBody,
) -> Result<(), NoMemory>
    ensures { OnOk result (out.new
        ≡ put_value (hit_with (names_in names.now) hit.now body.now) out.old) }
{
    out.begin_object()?;
    put_attribute_lists(out, names, hit, body)?;
    put_hit_texts(out, hit, body)?;
    out.end_object()?;
    Ok(())
}

#[tactic(auto, using(crate::proofs::Texts::hit_texts_put))]
fn put_hit_texts(
    out: &mut Writer,
    hit: &VisibleAttribute,
    body: &AttributeBody,
) -> Result<(), NoMemory>
    ensures { OnOk result (out.new ≡ put_members (hit_texts hit.now body.now) out.old) }
{
    put_attribute_front(out, hit, body)?;
    out.uuid("event_uuid", &hit.row.key.event().0)?;
    put_seen_and_part(out, body)?;
    put_attribute_rest(out, hit, body)?;
    Ok(())
}

/// Puts the text of attributes that are found, with the names of the groups that their labels name,
/// at the end of a text.
pub fn put_hits(
    text: &mut Vec<u8>,
    alloc: Global,
    listed: &[(GroupId, Text)],
    found: &[VisibleAttribute],
) -> Result<(), NoMemory>
    ensures { OnOk result (text.new.items ≡ text.old.items ++ hits_text listed.now found.now) }
{
    let names = group_names(alloc, listed)?;
    put_found::<Hits>(text, alloc, "Attribute", &names, found)
}

// ---- events that are found

/// Whole events, each with the names of its own groups.
struct FoundEvents;

impl Listed for FoundEvents {
    ghost use Rattle.misp_format.specs.Written.{body_data};

    type Item = VisibleEvent;

    ghost value = { λ _. body_data };

    fn put(out: &mut Writer, _names: &GroupNames, event: &VisibleEvent) -> Result<(), NoMemory> {
        put_event_value(out, event)
    }
}

/// Puts the text of whole events that are found at the end of a text.
pub fn put_events(
    text: &mut Vec<u8>,
    alloc: Global,
    events: &[VisibleEvent],
) -> Result<(), NoMemory>
    ensures { OnOk result (text.new.items ≡ text.old.items ++ events_text events.now) }
{
    let names = BTreeMap::new(alloc);
    put_found::<FoundEvents>(text, alloc, "response", &names, events)
}
