//! References of objects.

ghost use Rattle.std.specs.Prelude.{◌≡◌, map, min};
ghost use Rattle.serde_json.specs.View.{view, items_of};
ghost use Rattle.misp_elem.specs.declared.content.Content.TheVariants as contents;
ghost use Rattle.misp_elem.specs.Contents.{text_size};
ghost use Rattle.misp_format.specs.Members.{body_of, path_text};
ghost use Rattle.misp_format.specs.Elements.{reference_at, next_reference, references_at};
ghost use Rattle.misp_format.specs.Rows.{Gives, Shows, each};

use crate::fault::FormatFault;
use crate::reading::elements::Elements;
use crate::reading::members::Members;
use crate::reading::path::Path;
use misp_elem::{ReferenceBody, ReferenceDraft};
use misp_ids::{ElemId, Uid};
use serde_json::Value;
use std::alloc::Global;

/// The bytes of its texts together, or the greatest number where there are more.
#[tactic(auto, unfolding(misp_elem::specs::Contents::text_size))]
fn size(body: &ReferenceBody) -> usize
    ensures { result ≡ min (text_size (contents.Reference body.now)) usize.MAX }
{
    body.relationship_type
        .as_str()
        .len()
        .saturating_add(body.comment.as_str().len())
}

/// The reference at a place in reading order.
#[tactic(auto, unfolding(crate::specs::Elements::reference_at))]
pub(crate) fn reference(
    alloc: Global,
    path: &Path<'_>,
    object: ElemId,
    word: u128,
    number: u32,
    value: &Value,
) -> Result<ReferenceDraft, FormatFault>
    ensures { Gives result (reference_at (path_text path.now) object word number (view value.now)) }
{
    let it = Members::of(alloc, path, value)?;
    let uuid = it.uuid("uuid", Uid::made(word, number))?;
    let referenced = it.needed_uuid("referenced_uuid")?;
    let relationship_type = it.text("relationship_type")?;
    let comment = it.text("comment")?;
    let deleted = it.flag("deleted", false)?;
    let body = ReferenceBody {
        relationship_type,
        comment,
        deleted,
    };
    let bytes = size(&body);
    let body = it.shared(body, bytes)?;
    Ok(ReferenceDraft {
        number,
        object,
        uuid: ElemId(uuid),
        referenced: ElemId(referenced),
        body,
    })
}

fn references_in(
    alloc: Global,
    path: &Path<'_>,
    list: &[Value],
    object: ElemId,
    word: u128,
    elements: &mut Elements,
) -> Result<(), FormatFault>
    ensures { Shows (λ _. elements.new) result
        (each (next_reference word object (path_text path.now)) 0 elements.old
        (items_of (map view list.now))) }
{
    for (index, value) in list.iter().enumerate() {
        let path = Path::Item(&*path, index);
        let number = elements.place()?;
        elements.push_reference(reference(alloc, &path, object, word, number, value)?)?;
    }
    Ok(())
}

/// The references of an object, after the elements that were read before them.
#[tactic(auto, unfolding(crate::specs::Elements::references_at))]
pub(crate) fn references(
    it: &Members<'_>,
    object: ElemId,
    word: u128,
    elements: &mut Elements,
) -> Result<(), FormatFault>
    ensures { Shows (λ _. elements.new) result
        (references_at word object (body_of it.now) elements.old) }
{
    let list = it.list("ObjectReference")?;
    let path = Path::Member(it.path, "ObjectReference");
    references_in(it.alloc, &path, list, object, word, elements)
}
