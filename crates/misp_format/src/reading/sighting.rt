//! Sightings.

ghost use Rattle.serde_json.specs.View.{view};
ghost use Rattle.misp_format.specs.Members.{path_text};
ghost use Rattle.misp_format.specs.Rows.{Gives};
ghost use Rattle.misp_format.specs.Statements.{sighting_in, sighting_at};

use crate::fault::FormatFault;
use crate::reading::edit::given_stamp;
use crate::reading::event::unwrapped;
use crate::reading::members::Members;
use crate::reading::path::Path;
use misp_ids::{ElemId, Uid};
use misp_model::{SightingDraft, SightingDraftFields};
use serde_json::Value;
use std::alloc::Global;

#[tactic(auto, unfolding(crate::specs::Statements::sighting_in))]
fn sighting(
    alloc: Global,
    path: &Path<'_>,
    value: &Value,
    word: u128,
) -> Result<SightingDraft, FormatFault>
    ensures { Gives result (sighting_in (path_text path.now) word (view value.now)) }
{
    let it = Members::of(alloc, path, value)?;
    let uuid = it.uuid("uuid", Uid::made(word, 0))?;
    let kind = it.number("type", 0, 2, 0)?;
    let date = given_stamp(&it, "date_sighting")?;
    let source = it.text("source")?;
    let bytes = source.as_str().len();
    let source = it.short(source, bytes)?;
    Ok(SightingDraft::of(SightingDraftFields {
        uuid: ElemId(uuid),
        kind,
        date,
        source,
    }))
}

/// The sighting that a body is. Without an identifier it gets one that is made of `word`.
pub fn read_sighting(alloc: Global, body: &Value, word: u128) -> Result<SightingDraft, FormatFault>
    ensures { Gives result (sighting_at word (view body.now)) }
{
    let path = Path::Body("Sighting");
    sighting(alloc, &path, unwrapped("Sighting", body), word)
}
