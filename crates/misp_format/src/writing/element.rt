//! Tags, attributes and objects as they are written.

ghost use Rattle.std.specs.Prelude.{◌≡◌, ◌++◌, IfOk, OnOk, codes, string_bytes};
ghost use Rattle.serde_json.specs.Data.{no_members};
ghost use Rattle.misp_format.specs.Fields.{list_data};
ghost use Rattle.misp_format.specs.Names.{names_in};
ghost use Rattle.misp_format.specs.Tokens.{put_value, put_members, put_attribute_lists, put_object_lists, put_seen_and_part};
ghost use Rattle.misp_format.specs.Written.{colour_text, tag_data, attribute_rest, attribute_texts, attribute_with, attribute_data, object_texts, object_with, object_data, with_attribute_front};

use crate::kinds::category_name;
use crate::writing::group_names::{GroupNames, put_sharing_group};
use crate::writing::keys::{key_uuid, label_number, put_stamp_and_uuid};
use crate::writing::listed::{Listed, put_list};
use crate::writing::statement::{Proposals, References, Sightings};
use crate::writing::writer::Writer;
use misp_elem::{AttributeBody, Content, ObjectBody, Tag, VisibleAttribute, VisibleObject};
use misp_ids::NoMemory;
use std::alloc::Global;

// ---- tags

/// `#`, and two digits for each of red, green and blue.
fn colour_text(alloc: Global, colour: [u8; 3]) -> Result<String, NoMemory>
    ensures { IfOk result (λ text. string_bytes text ≡ colour_text colour) }
{
    let digits = hex::encode(alloc, colour)?;
    let mut text = String::from_str(alloc, "#")?;
    text.push_str(digits.as_str())?;
    Ok(text)
}

/// The tags of an element.
pub(crate) struct Tags;

impl Listed for Tags {
    ghost use Rattle.misp_format.specs.Written.{tag_data};

    type Item = Tag;

    ghost value = { λ _. tag_data };

    #[tactic(auto, unfolding(crate::specs::Written::tag_data))]
    fn put(out: &mut Writer, _names: &GroupNames, tag: &Tag) -> Result<(), NoMemory> {
        let alloc = out.alloc;
        out.begin_object()?;
        out.text("colour", colour_text(alloc, tag.colour)?.as_str())?;
        out.flag("exportable", tag.exportable)?;
        out.text("name", tag.name.as_str())?;
        out.end_object()?;
        Ok(())
    }
}

// ---- attributes

/// The attributes of an event or of an object.
pub(crate) struct Attributes;

impl Listed for Attributes {
    ghost use Rattle.misp_format.specs.Written.{attribute_data};

    type Item = VisibleAttribute;

    ghost value = { attribute_data };

    #[tactic(auto, unfolding(crate::specs::Written::attribute_data))]
    fn put(
        out: &mut Writer,
        names: &GroupNames,
        attribute: &VisibleAttribute,
    ) -> Result<(), NoMemory> {
        match &attribute.row.content {
            Content::Attribute(body) => put_attribute(out, names, attribute, body),
            _ => out.null(),
        }
    }
}

#[tactic(auto, using(crate::proofs::Texts::attribute_put))]
fn put_attribute(
    out: &mut Writer,
    names: &GroupNames,
    attribute: &VisibleAttribute,
    body: &AttributeBody,
) -> Result<(), NoMemory>
    ensures { OnOk result (out.new ≡ put_value
        (attribute_with (names_in names.now) attribute.now body.now) out.old) }
{
    out.begin_object()?;
    put_attribute_lists(out, names, attribute, body)?;
    put_attribute_texts(out, attribute, body)?;
    out.end_object()?;
    Ok(())
}

/// Its lists, and the sharing group.
pub(crate) fn put_attribute_lists(
    out: &mut Writer,
    names: &GroupNames,
    attribute: &VisibleAttribute,
    body: &AttributeBody,
) -> Result<(), NoMemory>
    ensures { OnOk result (out.new ≡ put_attribute_lists
        (names_in names.now) attribute.now.row.label attribute.now body.now out.old) }
{
    let proposals = attribute.proposals.as_slice();
    put_list::<Proposals>(out, "ShadowAttribute", names, proposals)?;
    put_sharing_group(out, names, &attribute.row.label)?;
    put_list::<Sightings>(out, "Sighting", names, attribute.sightings.as_slice())?;
    put_list::<Tags>(out, "Tag", names, body.tags.as_slice())?;
    Ok(())
}

/// When it was first and last seen, and its part in an object, each where there is one.
pub(crate) fn put_seen_and_part(out: &mut Writer, body: &AttributeBody) -> Result<(), NoMemory>
    ensures { OnOk result (out.new ≡ put_seen_and_part body.now out.old) }
{
    out.moment_if_known("first_seen", &body.first_seen)?;
    out.moment_if_known("last_seen", &body.last_seen)?;
    out.text_if_any("object_relation", body.object_relation.as_str())
}

#[tactic(auto, using(crate::proofs::Texts::attribute_texts_put))]
fn put_attribute_texts(
    out: &mut Writer,
    attribute: &VisibleAttribute,
    body: &AttributeBody,
) -> Result<(), NoMemory>
    ensures { OnOk result (out.new
        ≡ put_members (attribute_texts attribute.now body.now) out.old) }
{
    put_attribute_front(out, attribute, body)?;
    put_seen_and_part(out, body)?;
    put_attribute_rest(out, attribute, body)
}

/// Its first texts.
pub(crate) fn put_attribute_front(
    out: &mut Writer,
    attribute: &VisibleAttribute,
    body: &AttributeBody,
) -> Result<(), NoMemory>
    ensures { OnOk result (out.new
        ≡ put_members (with_attribute_front attribute.now body.now no_members) out.old) }
{
    out.text("category", category_name(body.category))?;
    out.text("comment", body.comment.as_str())?;
    out.flag("deleted", body.deleted)?;
    out.number("distribution", label_number(&attribute.row.label))?;
    Ok(())
}

/// Its last texts.
pub(crate) fn put_attribute_rest(
    out: &mut Writer,
    attribute: &VisibleAttribute,
    body: &AttributeBody,
) -> Result<(), NoMemory>
    ensures { OnOk result (out.new
        ≡ put_members (attribute_rest attribute.now body.now) out.old) }
{
    out.number("timestamp", attribute.row.stamp.get())?;
    out.flag("to_ids", body.to_ids)?;
    out.text("type", body.kind.as_str())?;
    out.uuid("uuid", &key_uuid(attribute.row.key.form))?;
    out.text("value", body.value.as_str())?;
    Ok(())
}

// ---- objects

/// The objects of an event.
pub(crate) struct Objects;

impl Listed for Objects {
    ghost use Rattle.misp_format.specs.Written.{object_data};

    type Item = VisibleObject;

    ghost value = { object_data };

    #[tactic(auto, unfolding(crate::specs::Written::object_data))]
    fn put(out: &mut Writer, names: &GroupNames, object: &VisibleObject) -> Result<(), NoMemory> {
        match &object.row.content {
            Content::Object(body) => put_object(out, names, object, body),
            _ => out.null(),
        }
    }
}

#[tactic(auto, using(crate::proofs::Texts::visible_object_put))]
fn put_object(
    out: &mut Writer,
    names: &GroupNames,
    object: &VisibleObject,
    body: &ObjectBody,
) -> Result<(), NoMemory>
    ensures { OnOk result (out.new ≡ put_value
        (object_with (names_in names.now) object.now body.now) out.old) }
{
    out.begin_object()?;
    put_object_lists(out, names, object)?;
    put_object_texts(out, object, body)?;
    out.end_object()?;
    Ok(())
}

fn put_object_lists(
    out: &mut Writer,
    names: &GroupNames,
    object: &VisibleObject,
) -> Result<(), NoMemory>
    ensures { OnOk result (out.new ≡ put_object_lists
        (names_in names.now) object.now.row.label object.now out.old) }
{
    put_list::<Attributes>(out, "Attribute", names, object.attributes.as_slice())?;
    put_list::<References>(out, "ObjectReference", names, object.references.as_slice())?;
    put_sharing_group(out, names, &object.row.label)?;
    Ok(())
}

fn put_object_texts(
    out: &mut Writer,
    object: &VisibleObject,
    body: &ObjectBody,
) -> Result<(), NoMemory>
    ensures { OnOk result (out.new
        ≡ put_members (object_texts object.now body.now) out.old) }
{
    out.text("comment", body.comment.as_str())?;
    out.flag("deleted", body.deleted)?;
    out.text("description", body.description.as_str())?;
    out.number("distribution", label_number(&object.row.label))?;
    out.text("meta-category", body.meta_category.as_str())?;
    out.text("name", body.name.as_str())?;
    out.optional_uuid("template_uuid", &body.template_uuid)?;
    out.number("template_version", body.template_version)?;
    put_stamp_and_uuid(out, &object.row)?;
    Ok(())
}
