//! Edits of objects.

ghost use Rattle.serde_json.specs.View.{view};
ghost use Rattle.misp_format.specs.Edits.{object_edit_at};
ghost use Rattle.misp_format.specs.Rows.{Gives};

use crate::fault::FormatFault;
use crate::reading::edit::{given_label, given_size, given_stamp, given_text};
use crate::reading::event::unwrapped;
use crate::reading::members::Members;
use crate::reading::path::Path;
use misp_model::{ObjectEdit, ObjectEditFields};
use serde_json::Value;
use std::alloc::Global;

/// The edit of an object that a body is.
#[tactic(auto, unfolding(crate::specs::Edits::object_edit_at))]
pub fn read_object_edit(alloc: Global, value: &Value) -> Result<ObjectEdit, FormatFault>
    ensures { Gives result (object_edit_at (view value.now)) }
{
    let path = Path::Body("Object");
    let it = Members::of(alloc, &path, unwrapped("Object", value))?;
    let label = given_label(&it, 5)?;
    let comment = given_text(&it, "comment")?;
    let description = given_text(&it, "description")?;
    let stamp = given_stamp(&it, "timestamp")?;
    let bytes = given_size(&comment).saturating_add(given_size(&description));
    let fields = ObjectEditFields {
        stamp,
        label,
        comment,
        description,
    };
    let fields = it.short(fields, bytes)?;
    Ok(ObjectEdit::of(fields))
}
