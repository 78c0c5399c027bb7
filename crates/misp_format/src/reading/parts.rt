//! Elements for an event that is there, and tags.

ghost use Rattle.std.specs.Prelude.{◌≡◌, true, [], IfOk, codes};
ghost use Rattle.serde_json.specs.View.{view};
ghost use Rattle.misp_elem.specs.Fields.{IsTag, text_limit};
ghost use Rattle.misp_format.specs.Elements.{object_and_others_at};
ghost use Rattle.misp_format.specs.Gathered.{none_from};
ghost use Rattle.misp_format.specs.Rows.{Gives};
ghost use Rattle.misp_format.specs.Tables.{unwrapped, attribute_body_at, reference_body_at, elements_at, is_form_for, parts_at, tag_body_at};

use crate::fault::FormatFault;
use crate::reading::attribute::{attribute, attributes_in};
use crate::reading::elements::Elements;
use crate::reading::event::unwrapped;
use crate::reading::object::object_and_others;
use crate::reading::path::Path;
use crate::reading::reference::reference;
use crate::reading::tag::tag;
use misp_elem::{Submission, Tag};
use misp_ids::{ElemId, EventId, Label};
use serde_json::Value;
use std::alloc::Global;

/// What a body brings for an event that is there.
#[derive(Clone, Copy, PartialEq, Eq)]
pub enum PartForm {
    /// One attribute or a list of them, for an object or outside objects.
    Attributes,
    /// One object with its attributes and references.
    Object,
    /// One reference of an object.
    Reference,
}

fn attribute_body(
    alloc: Global,
    value: &Value,
    object: Option<ElemId>,
    word: u128,
) -> Result<Elements, FormatFault>
    ensures { Gives result (attribute_body_at object word (view value.now)) }
{
    let path = Path::Body("Attribute");
    let mut elements = Elements::none_from(alloc, 0);
    match value {
        Value::Array(list) => {
            attributes_in(alloc, &path, list.as_slice(), object, word, &mut elements)?;
        }
        _ => elements.push_part(attribute(alloc, &path, object, word, 0, value)?)?,
    }
    Ok(elements)
}

fn object_body(alloc: Global, value: &Value, word: u128) -> Result<Elements, FormatFault>
    ensures { Gives result
        (object_and_others_at word (codes "Object") (none_from 0) (view value.now)) }
{
    let path = Path::Body("Object");
    let mut elements = Elements::none_from(alloc, 0);
    object_and_others(alloc, &path, word, value, &mut elements)?;
    Ok(elements)
}

fn reference_body(
    alloc: Global,
    value: &Value,
    object: Option<ElemId>,
    word: u128,
) -> Result<Elements, FormatFault>
    ensures { Gives result (reference_body_at object word (view value.now)) }
{
    let path = Path::Body("ObjectReference");
    let mut elements = Elements::none_from(alloc, 0);
    let Some(object) = object else {
        return Ok(elements);
    };
    elements.push_reference(reference(alloc, &path, object, word, 0, value)?)?;
    Ok(elements)
}

fn elements(
    alloc: Global,
    body: &Value,
    object: Option<ElemId>,
    form: PartForm,
    word: u128,
) -> Result<Elements, FormatFault>
    ensures { Gives result (elements_at object form word (view body.now)) }
{
    match form {
        PartForm::Attributes => attribute_body(alloc, unwrapped("Attribute", body), object, word),
        PartForm::Object => object_body(alloc, unwrapped("Object", body), word),
        PartForm::Reference => {
            reference_body(alloc, unwrapped("ObjectReference", body), object, word)
        }
    }
}

/// The elements that a body brings for an event that is there, or for an object of it. Elements
/// without an identifier get those that are made of `word` and their places.
#[tactic(auto, unfolding(crate::specs::Tables::parts_at))]
pub fn read_parts(
    alloc: Global,
    body: &Value,
    event: EventId,
    object: Option<ElemId>,
    form: PartForm,
    word: u128,
) -> Result<Submission, FormatFault>
    // An attribute may have an object, an object has none, and a reference has one.
    requires { is_form_for object form ≡ true }
    ensures { Gives result (parts_at event object form word (view body.now)) }
{
    let (parts, references) = elements(alloc, body, object, form, word)?.lists();
    Ok(Submission {
        event,
        body: None,
        label: Label::Inherit,
        parts,
        references,
    })
}

/// The tag that a body is.
pub fn read_tag(alloc: Global, body: &Value) -> Result<Tag, FormatFault>
    ensures gives { Gives result (tag_body_at (view body.now)) }
    ensures fits { IfOk result (IsTag text_limit []) }
{
    tag(alloc, &Path::Body("Tag"), unwrapped("Tag", body))
}
