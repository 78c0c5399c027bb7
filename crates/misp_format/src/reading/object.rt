//! Objects, each with its attributes and references.

ghost use Rattle.std.specs.Prelude.{◌≡◌, ◌<◌, ◌^◌, map, min};
ghost use Rattle.serde_json.specs.View.{view, items_of};
ghost use Rattle.misp_elem.specs.declared.content.Content.TheVariants as contents;
ghost use Rattle.misp_ids.specs.Uid.{IsUid};
ghost use Rattle.misp_elem.specs.Contents.{text_size};
ghost use Rattle.misp_format.specs.Members.{body_of, path_text};
ghost use Rattle.misp_format.specs.Elements.{object_at, object_and_others_at, next_object, objects_at};
ghost use Rattle.misp_format.specs.Rows.{Gives, Shows, each};

use crate::fault::FormatFault;
use crate::reading::attribute::attributes;
use crate::reading::elements::Elements;
use crate::reading::label::label;
use crate::reading::members::Members;
use crate::reading::path::Path;
use crate::reading::reference::references;
use misp_elem::{Content, Draft, ObjectBody, Place};
use misp_ids::{ElemId, Uid};
use serde_json::Value;
use std::alloc::Global;

/// The bytes of its texts together, or the greatest number where there are more.
#[tactic(auto, unfolding(misp_elem::specs::Contents::text_size))]
fn size(body: &ObjectBody) -> usize
    ensures { result ≡ min (text_size (contents.Object body.now)) usize.MAX }
{
    body.name
        .as_str()
        .len()
        .saturating_add(body.meta_category.as_str().len())
        .saturating_add(body.description.as_str().len())
        .saturating_add(body.comment.as_str().len())
}

/// The object itself.
#[tactic(auto, unfolding(crate::specs::Elements::object_at))]
fn object(it: &Members<'_>, uuid: ElemId, number: u32) -> Result<Draft, FormatFault>
    ensures { Gives result (object_at uuid number (body_of it.now)) }
{
    let name = it.some_text("name")?;
    let meta_category = it.text("meta-category")?;
    let description = it.text("description")?;
    let comment = it.text("comment")?;
    let template_uuid = it.optional_uuid("template_uuid")?;
    let template_version = it.large_number("template_version", 0)?;
    let label = label(it, 5, 5)?;
    let deleted = it.flag("deleted", false)?;
    let body = ObjectBody {
        name,
        meta_category,
        description,
        comment,
        template_uuid,
        template_version,
        deleted,
    };
    let bytes = size(&body);
    let body = it.shared(body, bytes)?;
    Ok(Draft {
        number,
        place: Place::Object(uuid),
        label,
        content: Content::Object(body),
    })
}

/// An object, and then its attributes and its references.
#[tactic(auto, unfolding(crate::specs::Elements::object_and_others_at))]
pub(crate) fn object_and_others(
    alloc: Global,
    path: &Path<'_>,
    word: u128,
    value: &Value,
    elements: &mut Elements,
) -> Result<(), FormatFault>
    ensures { Shows (λ _. elements.new) result
        (object_and_others_at word (path_text path.now) elements.old (view value.now)) }
{
    let it = Members::of(alloc, path, value)?;
    let number = elements.place()?;
    let uuid = ElemId(it.uuid("uuid", Uid::made(word, number))?);
    elements.push_part(object(&it, uuid, number)?)?;
    attributes(&it, Some(uuid), word, elements)?;
    references(&it, uuid, word, elements)
}

fn objects_in(
    alloc: Global,
    path: &Path<'_>,
    list: &[Value],
    word: u128,
    elements: &mut Elements,
) -> Result<(), FormatFault>
    ensures { Shows (λ _. elements.new) result
        (each (next_object word (path_text path.now)) 0 elements.old
        (items_of (map view list.now))) }
{
    for (index, value) in list.iter().enumerate() {
        let path = Path::Item(&*path, index);
        object_and_others(alloc, &path, word, value, elements)?;
    }
    Ok(())
}

/// The objects of an event, after the elements that were read before them.
#[tactic(auto, unfolding(crate::specs::Elements::objects_at))]
pub(crate) fn objects(
    it: &Members<'_>,
    word: u128,
    elements: &mut Elements,
) -> Result<(), FormatFault>
    ensures { Shows (λ _. elements.new) result (objects_at word (body_of it.now) elements.old) }
{
    let list = it.list("Object")?;
    let path = Path::Member(it.path, "Object");
    objects_in(it.alloc, &path, list, word, elements)
}
