//! What a change makes of what a row says.

ghost use Rattle.std.specs.Prelude.{◌≡◌, true, IfOk, OnOk};
ghost use Rattle.misp_model.specs.Edits.{given, edited, edited_event, edited_object};
ghost use Rattle.misp_model.specs.Edits.{at_attribute, at_event, at_object, as_deleted};

use misp_elem::{AttributeBody, Content, EventBody, ObjectBody, ReferenceBody, Shared};
use misp_ids::{Label, NoMemory, Text};
use misp_model::{AttributeEditFields, EventEditFields, ObjectEditFields};
use std::alloc::Global;

fn deleted_object(alloc: Global, body: &ObjectBody) -> Result<Shared<ObjectBody>, NoMemory>
    ensures { IfOk result (λ made. made ≡ record body.now { deleted = true }) }
{
    let mut made = body.clone()?;
    made.deleted = true;
    Ok(Shared::of(alloc, made)?)
}

fn deleted_attribute(alloc: Global, body: &AttributeBody) -> Result<Shared<AttributeBody>, NoMemory>
    ensures { IfOk result (λ made. made ≡ record body.now { deleted = true }) }
{
    let mut made = body.clone()?;
    made.deleted = true;
    Ok(Shared::of(alloc, made)?)
}

fn deleted_reference(alloc: Global, body: &ReferenceBody) -> Result<Shared<ReferenceBody>, NoMemory>
    ensures { IfOk result (λ made. made ≡ record body.now { deleted = true }) }
{
    let mut made = body.clone()?;
    made.deleted = true;
    Ok(Shared::of(alloc, made)?)
}

/// The element deleted.
#[tactic(auto, unfolding(misp_model::specs::Edits::as_deleted))]
pub(crate) fn deleted(alloc: Global, content: &Content) -> Result<Content, NoMemory>
    ensures { IfOk result (λ made. made ≡ as_deleted content.now) }
{
    match content {
        Content::Object(body) => Ok(Content::Object(deleted_object(alloc, body)?)),
        Content::Attribute(body) => Ok(Content::Attribute(deleted_attribute(alloc, body)?)),
        Content::Reference(body) => Ok(Content::Reference(deleted_reference(alloc, body)?)),
        _ => Ok(content.clone()?),
    }
}

/// The label that is given, or else the one that was there.
#[tactic(auto, unfolding(misp_model::specs::Edits::given))]
pub(crate) fn label_after(label: Label, new: Option<Label>) -> Label
    ensures { result ≡ given new label }
{
    match new {
        Some(label) => label,
        None => label,
    }
}

// Puts the text that is given in the place of the one that was there.
#[tactic(auto, unfolding(misp_model::specs::Edits::given))]
fn put_text(text: &mut Text, new: &Option<Text>) -> Result<(), NoMemory>
    ensures { OnOk result (text.new ≡ given new.now text.old) }
{
    if let Some(new) = new {
        *text = new.clone()?;
    }
    Ok(())
}

// Edits an attribute.
#[tactic(auto, unfolding(misp_model::specs::Edits::edited, misp_model::specs::Edits::given))]
fn put_attribute(body: &mut AttributeBody, edit: &AttributeEditFields) -> Result<(), NoMemory>
    ensures { OnOk result (body.new ≡ edited edit.now body.old) }
{
    if let Some(category) = edit.category {
        body.category = category;
    }
    if let Some(to_ids) = edit.to_ids {
        body.to_ids = to_ids;
    }
    put_text(&mut body.comment, &edit.comment)?;
    if let Some(pair) = &edit.kind_value {
        body.kind = pair.0.clone()?;
        body.value = pair.1.clone()?;
    }
    if let Some(seen) = edit.seen {
        body.first_seen = seen.first;
        body.last_seen = seen.last;
    }
    Ok(())
}

// The attribute after an edit.
fn attribute_after(
    alloc: Global,
    body: &AttributeBody,
    edit: &AttributeEditFields,
) -> Result<Shared<AttributeBody>, NoMemory>
    ensures { IfOk result (λ made. made ≡ edited edit.now body.now) }
{
    let mut made = body.clone()?;
    match put_attribute(&mut made, edit) {
        Ok(()) => Ok(Shared::of(alloc, made)?),
        Err(NoMemory) => {
            drop(made);
            Err(NoMemory)
        }
    }
}

/// The element after an edit of an attribute.
#[tactic(auto, unfolding(misp_model::specs::Edits::at_attribute))]
pub(crate) fn edited_attribute(
    alloc: Global,
    content: &Content,
    edit: &AttributeEditFields,
) -> Result<Content, NoMemory>
    ensures { IfOk result (λ made. made ≡ at_attribute (edited edit.now) content.now) }
{
    match content {
        Content::Attribute(body) => Ok(Content::Attribute(attribute_after(alloc, body, edit)?)),
        _ => Ok(content.clone()?),
    }
}

// Edits an event.
#[tactic(auto, unfolding(misp_model::specs::Edits::edited_event, misp_model::specs::Edits::given))]
fn put_event(body: &mut EventBody, edit: &EventEditFields) -> Result<(), NoMemory>
    ensures { OnOk result (body.new ≡ edited_event edit.now body.old) }
{
    put_text(&mut body.info, &edit.info)?;
    put_text(&mut body.date, &edit.date)?;
    if let Some(level) = edit.threat_level_id {
        body.threat_level_id = level;
    }
    if let Some(analysis) = edit.analysis {
        body.analysis = analysis;
    }
    if let Some(extends) = edit.extends_uuid {
        body.extends_uuid = extends;
    }
    Ok(())
}

// The event after an edit.
fn event_after(
    alloc: Global,
    body: &EventBody,
    edit: &EventEditFields,
) -> Result<Shared<EventBody>, NoMemory>
    ensures { IfOk result (λ made. made ≡ edited_event edit.now body.now) }
{
    let mut made = body.clone()?;
    match put_event(&mut made, edit) {
        Ok(()) => Ok(Shared::of(alloc, made)?),
        Err(NoMemory) => {
            drop(made);
            Err(NoMemory)
        }
    }
}

/// The element after an edit of an event.
#[tactic(auto, unfolding(misp_model::specs::Edits::at_event))]
pub(crate) fn edited_event(
    alloc: Global,
    content: &Content,
    edit: &EventEditFields,
) -> Result<Content, NoMemory>
    ensures { IfOk result (λ made. made ≡ at_event (edited_event edit.now) content.now) }
{
    match content {
        Content::Event(body) => Ok(Content::Event(event_after(alloc, body, edit)?)),
        _ => Ok(content.clone()?),
    }
}

// Edits an object.
#[tactic(auto, unfolding(misp_model::specs::Edits::edited_object))]
fn put_object(body: &mut ObjectBody, edit: &ObjectEditFields) -> Result<(), NoMemory>
    ensures { OnOk result (body.new ≡ edited_object edit.now body.old) }
{
    put_text(&mut body.comment, &edit.comment)?;
    put_text(&mut body.description, &edit.description)
}

// The object after an edit.
fn object_after(
    alloc: Global,
    body: &ObjectBody,
    edit: &ObjectEditFields,
) -> Result<Shared<ObjectBody>, NoMemory>
    ensures { IfOk result (λ made. made ≡ edited_object edit.now body.now) }
{
    let mut made = body.clone()?;
    match put_object(&mut made, edit) {
        Ok(()) => Ok(Shared::of(alloc, made)?),
        Err(NoMemory) => {
            drop(made);
            Err(NoMemory)
        }
    }
}

/// The element after an edit of an object.
#[tactic(auto, unfolding(misp_model::specs::Edits::at_object))]
pub(crate) fn edited_object(
    alloc: Global,
    content: &Content,
    edit: &ObjectEditFields,
) -> Result<Content, NoMemory>
    ensures { IfOk result (λ made. made ≡ at_object (edited_object edit.now) content.now) }
{
    match content {
        Content::Object(body) => Ok(Content::Object(object_after(alloc, body, edit)?)),
        _ => Ok(content.clone()?),
    }
}
