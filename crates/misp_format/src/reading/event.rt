//! Events.

ghost use Rattle.std.specs.Prelude.{◌≡◌, ◌+◌, [], ◌∷◌, None, Ok, IfOk, codes, length, min};
ghost use Rattle.serde_json.specs.View.{view};
ghost use Rattle.misp_elem.specs.Fields.{tags_size};
ghost use Rattle.misp_elem.specs.Row.{IsLabelBut};
ghost use Rattle.misp_format.specs.Members.{body_of};
ghost use Rattle.misp_format.specs.Readers.{some_date_of};
ghost use Rattle.misp_format.specs.Rows.{Gives, Shows, row};
ghost use Rattle.misp_format.specs.Tables.{unwrapped, event_itself_at, gathered_at, event_at};

use crate::fault::FormatFault;
use crate::reading::attribute::attributes;
use crate::reading::elements::Elements;
use crate::reading::label::label;
use crate::reading::members::Members;
use crate::reading::object::objects;
use crate::reading::path::Path;
use crate::reading::tag::{tags, tags_size};
use misp_elem::{EventDraft, Submission, Tag};
use misp_fields::{self as fields, member};
use misp_ids::{EventId, Label, Text, Uid};
use serde_json::Value;
use std::alloc::Global;

/// What a body brings, which may be in a member of it.
pub(crate) fn unwrapped<'a>(name: &str, value: &'a Value) -> &'a Value
    ensures { view result.now ≡ unwrapped name.now (view value.now) }
{
    match member(value, name) {
        Some(inner) => inner,
        None => value,
    }
}

/// The date, where it is there.
pub(crate) fn date(it: &Members<'_>) -> Result<Option<Text>, FormatFault>
    ensures { Gives result (row (body_of it.now) (codes "date") some_date_of (Ok None)) }
{
    match member(it.value, "date") {
        Some(value) => match fields::date(value) {
            Ok(text) => Ok(Some(Text::of(String::from_str(it.alloc, text)?))),
            Err(need) => it.refused("date", need),
        },
        None => Ok(None),
    }
}

/// The bytes of the texts of an event together, or the greatest number where there are more.
fn size(info: &Text, tags: &[Tag]) -> usize
    ensures { result ≡ min (length info.now + tags_size tags.now) usize.MAX }
{
    info.as_str().len().saturating_add(tags_size(tags))
}

/// The event itself, and its label.
#[tactic(auto, unfolding(crate::specs::Tables::event_itself_at))]
fn event(it: &Members<'_>) -> Result<(EventDraft, Label), FormatFault>
    ensures gives { Gives result (event_itself_at (body_of it.now)) }
    ensures own { IfOk result (λ event. IsLabelBut (5 ∷ []) event.1) }
{
    let info = it.some_text("info")?;
    let date = date(it)?;
    let threat_level_id = it.number("threat_level_id", 1, 4, 4)?;
    let analysis = it.number("analysis", 0, 2, 0)?;
    let label = label(it, 4, 0)?;
    let extends_uuid = it.optional_uuid("extends_uuid")?;
    let tags = tags(it)?;
    let bytes = size(&info, tags.as_slice());
    let tags = it.short(tags, bytes)?;
    let body = EventDraft {
        info,
        date,
        threat_level_id,
        analysis,
        extends_uuid,
        tags,
    };
    Ok((body, label))
}

// Gathers the attributes outside objects, and then the objects.
fn gather(it: &Members<'_>, word: u128, elements: &mut Elements) -> Result<(), FormatFault>
    ensures { Shows (λ _. elements.new) result
        (gathered_at word (body_of it.now) elements.old) }
{
    attributes(it, None, word, elements)?;
    objects(it, word, elements)
}

/// The event that a body brings. Elements without an identifier get those that are made of `word`
/// and their places.
#[tactic(auto, unfolding(crate::specs::Tables::event_at))]
pub fn read_event(alloc: Global, body: &Value, word: u128) -> Result<Submission, FormatFault>
    ensures { Gives result (event_at word (view body.now)) }
{
    let path = Path::Body("Event");
    let it = Members::of(alloc, &path, unwrapped("Event", body))?;
    let uuid = it.uuid("uuid", Uid::made(word, 0))?;
    let (body, label) = event(&it)?;
    let mut elements = match Elements::with_room(alloc, 1, it.count("Attribute")) {
        Ok(elements) => elements,
        Err(fault) => {
            drop(body);
            return Err(fault);
        }
    };
    if let Err(fault) = gather(&it, word, &mut elements) {
        drop(body);
        drop(elements);
        return Err(fault);
    }
    let (parts, references) = elements.lists();
    Ok(Submission {
        event: EventId(uuid),
        body: Some(body),
        label,
        parts,
        references,
    })
}
