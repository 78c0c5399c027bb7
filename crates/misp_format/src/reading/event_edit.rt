//! Edits of events.

ghost use Rattle.std.specs.Prelude.{◌≡◌, ◌<◌, ◌≤◌, ◌^◌, true, IfOk, IfSome, codes, length};
ghost use Rattle.std.specs.Str.{is_utf8};
ghost use Rattle.serde_json.specs.View.{view};
ghost use Rattle.misp_fields.specs.Fields.{optional_uuid_of};
ghost use Rattle.misp_format.specs.Edits.{given_row, event_edit_at};
ghost use Rattle.misp_format.specs.Members.{body_of};
ghost use Rattle.misp_format.specs.Readers.{number_within, some_text_of};
ghost use Rattle.misp_format.specs.Rows.{Gives};

use crate::fault::FormatFault;
use crate::reading::edit::{given_label, given_size, given_stamp};
use crate::reading::event::{date, unwrapped};
use crate::reading::members::Members;
use crate::reading::path::Path;
use misp_fields::member;
use misp_ids::{Text, Uid};
use misp_model::{EventEdit, EventEditFields};
use serde_json::Value;
use std::alloc::Global;

fn info(it: &Members<'_>) -> Result<Option<Text>, FormatFault>
    ensures gives { Gives result (given_row (body_of it.now) (codes "info") some_text_of) }
    ensures long { IfOk result (λ given. IfSome given
        (λ text. (is_utf8 text ≡ true) × (1 ≤ length text))) }
{
    match member(it.value, "info") {
        Some(_) => Ok(Some(it.some_text("info")?)),
        None => Ok(None),
    }
}

fn number(it: &Members<'_>, name: &str, least: u8, most: u8) -> Result<Option<u8>, FormatFault>
    ensures { Gives result (given_row (body_of it.now) name.now (number_within least most)) }
{
    match member(it.value, name) {
        Some(_) => Ok(Some(it.number(name, least, most, least)?)),
        None => Ok(None),
    }
}

/// The event that it extends, or none where the text is empty.
fn extends_uuid(it: &Members<'_>) -> Result<Option<Option<Uid>>, FormatFault>
    ensures gives { Gives result
        (given_row (body_of it.now) (codes "extends_uuid") optional_uuid_of) }
    ensures in_range { IfOk result
        (λ given. IfSome given (λ found. IfSome found (λ uuid. uuid.0 < 2 ^ 128))) }
{
    match member(it.value, "extends_uuid") {
        Some(_) => Ok(Some(it.optional_uuid("extends_uuid")?)),
        None => Ok(None),
    }
}

/// The edit of an event that a body is.
#[tactic(auto, unfolding(crate::specs::Edits::event_edit_at))]
pub fn read_event_edit(alloc: Global, value: &Value) -> Result<EventEdit, FormatFault>
    ensures { Gives result (event_edit_at (view value.now)) }
{
    let path = Path::Body("Event");
    let it = Members::of(alloc, &path, unwrapped("Event", value))?;
    let info = info(&it)?;
    let date = date(&it)?;
    let threat_level_id = number(&it, "threat_level_id", 1, 4)?;
    let analysis = number(&it, "analysis", 0, 2)?;
    let label = given_label(&it, 4)?;
    let extends_uuid = extends_uuid(&it)?;
    let stamp = given_stamp(&it, "timestamp")?;
    let bytes = given_size(&info);
    let fields = EventEditFields {
        stamp,
        label,
        info,
        date,
        threat_level_id,
        analysis,
        extends_uuid,
    };
    let fields = it.short(fields, bytes)?;
    Ok(EventEdit::of(fields))
}
