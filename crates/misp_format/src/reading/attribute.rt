//! Attributes.

ghost use Rattle.std.specs.Prelude.{◌≡◌, true, Ok, Err, IfOk, codes, map, min};
ghost use Rattle.serde_json.specs.View.{view, items_of};
ghost use Rattle.misp_types.specs.Values.{IsKept};
ghost use Rattle.misp_elem.specs.declared.content.Content.TheVariants as contents;
ghost use Rattle.misp_elem.specs.Draft.{fits_place};
ghost use Rattle.misp_elem.specs.Key.{IsPlaceBut, of_reference};
ghost use Rattle.misp_elem.specs.Contents.{text_size};
ghost use Rattle.misp_elem.specs.Visible.{place_in};
ghost use Rattle.misp_format.specs.Members.{body_of, path_text};
ghost use Rattle.misp_format.specs.Elements.{kind_at, no_file_at, value_refused, value_at, attribute_at, next_attribute, attributes_at};
ghost use Rattle.misp_format.specs.Kinds.{other_category, category_of};
ghost use Rattle.misp_format.specs.Readers.{is_long};
ghost use Rattle.misp_format.specs.Rows.{Gives, Shows, row, each};

use crate::fault::FormatFault;
use crate::kinds::{OTHER, category, is_file_type};
use crate::reading::elements::Elements;
use crate::reading::label::label;
use crate::reading::members::Members;
use crate::reading::path::Path;
use crate::reading::readers::is_file;
use crate::reading::seen::seen;
use crate::reading::tag::{tags, tags_size};
use misp_elem::{AttributeBody, Content, Draft, Place};
use misp_fields::{self as fields, Need, member};
use misp_ids::{ElemId, Text, Uid};
use misp_types::{ValueFault, check};
use serde_json::Value;
use std::alloc::Global;

/// The type, which is none of files.
pub(crate) fn kind(it: &Members<'_>) -> Result<Text, FormatFault>
    ensures gives { Gives result (kind_at (body_of it.now)) }
    ensures long { IfOk result (λ t. is_long 1 100 t ≡ true) }
{
    let kind = it.text_within("type", 1, 100)?;
    if is_file_type(kind.as_str()) {
        return it.file("type");
    }
    Ok(kind)
}

/// The number of the category, that of `Other` where it is absent.
pub(crate) fn category_or_other(it: &Members<'_>) -> Result<u8, FormatFault>
    ensures { Gives result
        (row (body_of it.now) (codes "category") category_of (Ok other_category)) }
{
    match member(it.value, "category") {
        Some(value) => it.kept("category", category(value)),
        None => Ok(OTHER),
    }
}

/// No file is there.
pub(crate) fn no_file(it: &Members<'_>) -> Result<(), FormatFault>
    ensures { Gives result (no_file_at (body_of it.now)) }
{
    match member(it.value, "data") {
        Some(value) if is_file(value) => it.file("data"),
        _ => Ok(()),
    }
}

/// The fault of a value.
fn refused<T>(it: &Members<'_>, fault: ValueFault) -> Result<T, FormatFault>
    ensures { Gives result (value_refused (body_of it.now) fault) }
{
    match fault {
        ValueFault::WrongLength => it.refused("value", Need::Length),
        ValueFault::WrongDigit(at) => it.refused("value", Need::Digit(at)),
        ValueFault::WrongPart(part) => it.refused("value", Need::Part(part)),
        ValueFault::BinaryType => it.file("value"),
        ValueFault::NoMemory => Err(FormatFault::NoMemory),
    }
}

/// The value, in the form in which its type keeps it.
pub(crate) fn value(it: &Members<'_>, kind: &str) -> Result<Text, FormatFault>
    ensures gives { Gives result (value_at kind.now (body_of it.now)) }
    ensures kept { IfOk result (IsKept kind.now) }
{
    let Some(value) = member(it.value, "value") else {
        return it.refused("value", Need::Present);
    };
    match fields::text(value) {
        Ok(text) => match check(it.alloc, kind, text) {
            Ok(kept) => Ok(Text::of(kept)),
            Err(fault) => refused(it, fault),
        },
        Err(need) => it.refused("value", need),
    }
}

/// The bytes of its texts together, or the greatest number where there are more.
#[tactic(auto, unfolding(misp_elem::specs::Contents::text_size))]
fn size(body: &AttributeBody) -> usize
    ensures { result ≡ min (text_size (contents.Attribute body.now)) usize.MAX }
{
    body.kind
        .as_str()
        .len()
        .saturating_add(body.comment.as_str().len())
        .saturating_add(body.value.as_str().len())
        .saturating_add(tags_size(body.tags.as_slice()))
        .saturating_add(body.object_relation.as_str().len())
}

fn place_in(object: Option<ElemId>, uuid: ElemId) -> Place
    ensures value { result ≡ place_in object uuid }
    ensures fits { IsPlaceBut of_reference result × (fits_place result 2 ≡ true) }
{
    match object {
        Some(object) => Place::ObjectAttribute(object, uuid),
        None => Place::Attribute(uuid),
    }
}

/// The attribute at a place in reading order.
#[tactic(auto, unfolding(crate::specs::Elements::attribute_at))]
pub(crate) fn attribute(
    alloc: Global,
    path: &Path<'_>,
    object: Option<ElemId>,
    word: u128,
    number: u32,
    value: &Value,
) -> Result<Draft, FormatFault>
    ensures { Gives result (attribute_at (path_text path.now) object word number (view value.now)) }
{
    let it = Members::of(alloc, path, value)?;
    let uuid = it.uuid("uuid", Uid::made(word, number))?;
    let kind = kind(&it)?;
    let category = category_or_other(&it)?;
    let to_ids = it.flag("to_ids", false)?;
    let label = label(&it, 5, 5)?;
    let comment = it.text("comment")?;
    let deleted = it.flag("deleted", false)?;
    no_file(&it)?;
    let value = self::value(&it, kind.as_str())?;
    let seen = seen(&it)?;
    let object_relation = it.text("object_relation")?;
    let tags = tags(&it)?;
    let body = AttributeBody {
        kind,
        category,
        to_ids,
        comment,
        deleted,
        value,
        tags,
        object_relation,
        first_seen: seen.first,
        last_seen: seen.last,
    };
    let bytes = size(&body);
    let body = it.shared(body, bytes)?;
    Ok(Draft {
        number,
        place: place_in(object, ElemId(uuid)),
        label,
        content: Content::Attribute(body),
    })
}

/// The attributes of a list, after the elements that were read before them.
pub(crate) fn attributes_in(
    alloc: Global,
    path: &Path<'_>,
    list: &[Value],
    object: Option<ElemId>,
    word: u128,
    elements: &mut Elements,
) -> Result<(), FormatFault>
    ensures { Shows (λ _. elements.new) result
        (each (next_attribute word object (path_text path.now)) 0 elements.old
        (items_of (map view list.now))) }
{
    for (index, value) in list.iter().enumerate() {
        let path = Path::Item(&*path, index);
        let number = elements.place()?;
        elements.push_part(attribute(alloc, &path, object, word, number, value)?)?;
    }
    Ok(())
}

/// The attributes of an event or of an object, after the elements that were read before them.
#[tactic(auto, unfolding(crate::specs::Elements::attributes_at))]
pub(crate) fn attributes(
    it: &Members<'_>,
    object: Option<ElemId>,
    word: u128,
    elements: &mut Elements,
) -> Result<(), FormatFault>
    ensures { Shows (λ _. elements.new) result
        (attributes_at word object (body_of it.now) elements.old) }
{
    let list = it.list("Attribute")?;
    let path = Path::Member(it.path, "Attribute");
    attributes_in(it.alloc, &path, list, object, word, elements)
}
