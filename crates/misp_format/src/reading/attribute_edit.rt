//! Edits of attributes.

ghost use Rattle.std.specs.Prelude.{◌≡◌, IfOk, IfSome, codes, min};
ghost use Rattle.serde_json.specs.View.{view};
ghost use Rattle.misp_fields.specs.Fields.{flag_of};
ghost use Rattle.misp_model.specs.Edit.{pair_size};
ghost use Rattle.misp_format.specs.Edits.{given_row, given_kind_value_at, attribute_edit_at};
ghost use Rattle.misp_format.specs.Entries.{IsKeptPair};
ghost use Rattle.misp_format.specs.Kinds.{category_of};
ghost use Rattle.misp_format.specs.Members.{body_of};
ghost use Rattle.misp_format.specs.Rows.{Gives};

use crate::fault::FormatFault;
use crate::reading::attribute::{self as addition, category_or_other};
use crate::reading::edit::{given_label, given_size, given_stamp, given_text};
use crate::reading::event::unwrapped;
use crate::reading::members::Members;
use crate::reading::path::Path;
use crate::reading::seen::given_seen;
use misp_fields::member;
use misp_ids::Text;
use misp_model::{AttributeEdit, AttributeEditFields};
use serde_json::Value;
use std::alloc::Global;

fn category(it: &Members<'_>) -> Result<Option<u8>, FormatFault>
    ensures { Gives result (given_row (body_of it.now) (codes "category") category_of) }
{
    match member(it.value, "category") {
        Some(_) => Ok(Some(category_or_other(it)?)),
        None => Ok(None),
    }
}

fn to_ids(it: &Members<'_>) -> Result<Option<bool>, FormatFault>
    ensures { Gives result (given_row (body_of it.now) (codes "to_ids") flag_of) }
{
    match member(it.value, "to_ids") {
        Some(_) => Ok(Some(it.flag("to_ids", false)?)),
        None => Ok(None),
    }
}

/// The type and the value, in the form in which the type keeps it.
#[tactic(auto, unfolding(crate::specs::Edits::given_kind_value_at))]
fn kind_value(it: &Members<'_>) -> Result<Option<(Text, Text)>, FormatFault>
    ensures gives { Gives result (given_kind_value_at (body_of it.now)) }
    ensures fits { IfOk result (λ given. IfSome given IsKeptPair) }
{
    if member(it.value, "type").is_none() && member(it.value, "value").is_none() {
        return Ok(None);
    }
    let kind = addition::kind(it)?;
    let value = addition::value(it, kind.as_str())?;
    Ok(Some((kind, value)))
}

/// The bytes of a type and a value that are given, or the greatest number where there are more.
fn pair_size(pair: &Option<(Text, Text)>) -> usize
    ensures { result ≡ min (pair_size pair.now) usize.MAX }
{
    match pair {
        Some((kind, value)) => kind.as_str().len().saturating_add(value.as_str().len()),
        None => 0,
    }
}

/// The edit of an attribute that a body is.
#[tactic(auto, unfolding(crate::specs::Edits::attribute_edit_at))]
pub fn read_attribute_edit(alloc: Global, value: &Value) -> Result<AttributeEdit, FormatFault>
    ensures { Gives result (attribute_edit_at (view value.now)) }
{
    let path = Path::Body("Attribute");
    let it = Members::of(alloc, &path, unwrapped("Attribute", value))?;
    let category = category(&it)?;
    let to_ids = to_ids(&it)?;
    let label = given_label(&it, 5)?;
    let comment = given_text(&it, "comment")?;
    let kind_value = kind_value(&it)?;
    let seen = given_seen(&it)?;
    let stamp = given_stamp(&it, "timestamp")?;
    let bytes = given_size(&comment).saturating_add(pair_size(&kind_value));
    let fields = AttributeEditFields {
        stamp,
        label,
        category,
        to_ids,
        comment,
        kind_value,
        seen,
    };
    let fields = it.short(fields, bytes)?;
    Ok(AttributeEdit::of(fields))
}
