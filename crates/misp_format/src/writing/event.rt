//! Events as they are written.

ghost use Rattle.std.specs.Prelude.{◌≡◌, ◌++◌, ℕ, IfOk, OnOk, Some, Ok};
ghost use Rattle.serde_json.specs.Data.{Data};
ghost use Rattle.serde_json.specs.Read.{read};
ghost use Rattle.serde_json.specs.Written.{compact_text};
ghost use Rattle.misp_elem.specs.Visible.{IsWhole};
ghost use Rattle.misp_format.specs.Brought.{brought};
ghost use Rattle.misp_format.specs.Fields.{group_names};
ghost use Rattle.misp_format.specs.Names.{names_in};
ghost use Rattle.misp_format.specs.Tables.{event_at};
ghost use Rattle.misp_format.specs.Tokens.{put_value, put_members, put_event_lists};
ghost use Rattle.misp_format.specs.Written.{attribute_count, event_texts, event_with, event_data, body_data};

use crate::writing::element::{Attributes, Objects, Tags};
use crate::writing::group_names::{GroupNames, group_names, put_sharing_group};
use crate::writing::keys::{label_number, put_stamp_and_uuid};
use crate::writing::listed::put_list;
use crate::writing::statement::Proposals;
use crate::writing::writer::Writer;
use misp_elem::{Content, EventBody, VisibleEvent};
use misp_ids::NoMemory;
use std::alloc::Global;
use std::mem;

/// How many attributes are shown, those in objects included.
#[tactic(auto, unfolding(crate::specs::Written::attribute_count))]
pub(crate) fn attribute_count(event: &VisibleEvent) -> Result<usize, NoMemory>
    ensures { IfOk result (λ n. n ≡ attribute_count event.now) }
{
    let mut total = event.attributes.as_slice().len();
    for object in event.objects.as_slice() {
        let inside = object.attributes.as_slice().len();
        total = total.checked_add(inside).ok_or(NoMemory)?;
    }
    Ok(total)
}

/// The lists of an event, its organisations, and the sharing group.
fn put_lists(
    out: &mut Writer,
    names: &GroupNames,
    event: &VisibleEvent,
    body: &EventBody,
) -> Result<(), NoMemory>
    ensures { OnOk result (out.new ≡ put_event_lists
        (names_in names.now) event.now.row.label event.now body.now out.old) }
{
    put_list::<Attributes>(out, "Attribute", names, event.attributes.as_slice())?;
    put_list::<Objects>(out, "Object", names, event.objects.as_slice())?;
    out.org("Org", &event.row.owner, event.org_name.as_str())?;
    out.org("Orgc", &body.orgc, body.orgc_name.as_str())?;
    put_list::<Proposals>(out, "ShadowAttribute", names, event.proposals.as_slice())?;
    put_sharing_group(out, names, &event.row.label)?;
    put_list::<Tags>(out, "Tag", names, body.tags.as_slice())?;
    Ok(())
}

/// The other members of an event.
fn put_texts(out: &mut Writer, event: &VisibleEvent, body: &EventBody) -> Result<(), NoMemory>
    ensures { OnOk result (out.new
        ≡ put_members (event_texts event.now body.now) out.old) }
{
    out.number("analysis", u64::from(body.analysis))?;
    out.number("attribute_count", attribute_count(event)? as u64)?;
    out.text("date", body.date.as_str())?;
    out.number("distribution", label_number(&event.row.label))?;
    out.optional_uuid("extends_uuid", &body.extends_uuid)?;
    out.text("info", body.info.as_str())?;
    out.number("publish_timestamp", body.publish_stamp.get())?;
    out.flag("published", !event.row.held)?;
    out.number("threat_level_id", u64::from(body.threat_level_id))?;
    put_stamp_and_uuid(out, &event.row)?;
    Ok(())
}

#[tactic(auto, using(crate::proofs::Texts::event_put))]
fn put_with(
    out: &mut Writer,
    names: &GroupNames,
    event: &VisibleEvent,
    body: &EventBody,
) -> Result<(), NoMemory>
    ensures { OnOk result (out.new ≡ put_value
        (event_with (names_in names.now) event.now body.now) out.old) }
{
    out.begin_object()?;
    put_lists(out, names, event, body)?;
    put_texts(out, event, body)?;
    out.end_object()?;
    Ok(())
}

#[tactic(auto, unfolding(crate::specs::Written::event_data))]
fn put_content(out: &mut Writer, names: &GroupNames, event: &VisibleEvent) -> Result<(), NoMemory>
    ensures { OnOk result (out.new ≡ put_value
        (event_data (names_in names.now) event.now) out.old) }
{
    match &event.row.content {
        Content::Event(body) => put_with(out, names, event, body),
        _ => out.null(),
    }
}

/// An event in a member of its own.
#[tactic(auto, unfolding(crate::specs::Tokens::put_member))]
fn put_body(out: &mut Writer, names: &GroupNames, event: &VisibleEvent) -> Result<(), NoMemory>
    requires { names_in names.now ≡ group_names event.now.group_names }
    ensures { OnOk result (out.new ≡ put_value (body_data event.now) out.old) }
{
    out.begin_object()?;
    out.name("Event")?;
    put_content(out, names, event)?;
    out.end_object()?;
    Ok(())
}

/// An event in a member of its own, with the names of its groups.
pub(crate) fn put_event_value(out: &mut Writer, event: &VisibleEvent) -> Result<(), NoMemory>
    ensures { OnOk result (out.new ≡ put_value (body_data event.now) out.old) }
{
    let names = group_names(out.alloc, event.group_names.as_slice())?;
    put_body(out, &names, event)
}

/// Puts the text of an event at the end of a text.
pub fn put_event(text: &mut Vec<u8>, alloc: Global, event: &VisibleEvent) -> Result<(), NoMemory>
    ensures { OnOk result (text.new.items ≡ text.old.items ++ compact_text (body_data event.now)) }
{
    let mut out = Writer::behind(alloc, mem::replace(text, Vec::new(alloc)));
    let put = put_event_value(&mut out, event);
    *text = out.into_text();
    put?;
    Ok(())
}

/// The text of an event.
pub fn write_event(alloc: Global, event: &VisibleEvent) -> Result<Vec<u8>, NoMemory>
    // The text, byte for byte.
    ensures text { IfOk result (λ b. b.items ≡ compact_text (body_data event.now)) }
    // It is read to the same data.
    ensures reads_back { IfOk result (λ b. read b.items ≡ Some (body_data event.now)) }
    // A whole event is read again as it is, whatever the word.
    ensures same { IfOk result (λ b. IsWhole event.now → (d : Data) → read b.items ≡ Some d
        → (word : ℕ) → event_at word d ≡ Ok (brought event.now)) }
{
    let mut text = Vec::new(alloc);
    put_event(&mut text, alloc, event)?;
    Ok(text)
}
