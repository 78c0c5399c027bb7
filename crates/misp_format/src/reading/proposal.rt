//! Proposals.

ghost use Rattle.std.specs.Prelude.{◌≡◌, false, Ok, IfOk, codes, min};
ghost use Rattle.serde_json.specs.View.{view};
ghost use Rattle.misp_elem.specs.declared.content.Content.TheVariants as contents;
ghost use Rattle.misp_elem.specs.Contents.{least_kind, text_size};
ghost use Rattle.misp_elem.specs.Fields.{IsText};
ghost use Rattle.misp_format.specs.Elements.{kind_at, value_at};
ghost use Rattle.misp_format.specs.Entries.{IsKeptUnless};
ghost use Rattle.misp_format.specs.Members.{body_of, path_text};
ghost use Rattle.misp_format.specs.Rows.{Gives, row};
ghost use Rattle.misp_format.specs.Statements.{is_there, removal_of, unless_removal, proposal_in, proposal_at};

use crate::fault::FormatFault;
use crate::reading::attribute::{self as addition, category_or_other, no_file};
use crate::reading::event::unwrapped;
use crate::reading::members::Members;
use crate::reading::path::Path;
use misp_elem::{Place, ProposalBody};
use misp_fields::{self as fields, Need, member};
use misp_ids::{ElemId, EventId, Text, Uid};
use misp_model::{ProposalDraft, ProposalDraftFields, TaggedPlace};
use serde_json::Value;
use std::alloc::Global;

fn is_there(target: &Place) -> bool
    ensures { result ≡ is_there target.now }
{
    match target {
        Place::Event => false,
        Place::Object(_) | Place::Attribute(_) | Place::ObjectAttribute(_, _) => true,
    }
}

fn removal_in(value: &Value, there: bool) -> Result<bool, Need>
    ensures { result ≡ removal_of there (view value.now) }
{
    match fields::flag(value) {
        Ok(remove) if there || !remove => Ok(remove),
        Ok(_) => Err(Need::Range),
        Err(need) => Err(need),
    }
}

/// Whether it asks to delete what it is for.
fn removal(it: &Members<'_>, there: bool) -> Result<bool, FormatFault>
    ensures { Gives result
        (row (body_of it.now) (codes "proposal_to_delete") (removal_of there) (Ok false)) }
{
    match member(it.value, "proposal_to_delete") {
        Some(value) => it.kept("proposal_to_delete", removal_in(value, there)),
        None => Ok(false),
    }
}

/// The type, which is empty where it asks to delete.
fn kind(it: &Members<'_>, remove: bool) -> Result<Text, FormatFault>
    ensures gives { Gives result (unless_removal remove (kind_at (body_of it.now))) }
    ensures fits { IfOk result (IsText (least_kind remove) 100) }
{
    if remove {
        return Ok(Text::of(String::new(it.alloc)));
    }
    addition::kind(it)
}

/// The value, in the form in which its type keeps it. It is empty where it asks to delete.
fn value(it: &Members<'_>, remove: bool, kind: &str) -> Result<Text, FormatFault>
    ensures gives { Gives result (unless_removal remove (value_at kind.now (body_of it.now))) }
    ensures kept { IfOk result (IsKeptUnless remove kind.now) }
{
    if remove {
        return Ok(Text::of(String::new(it.alloc)));
    }
    addition::value(it, kind)
}

/// The bytes of its texts together, or the greatest number where there are more.
#[tactic(auto, unfolding(misp_elem::specs::Contents::text_size))]
fn size(body: &ProposalBody) -> usize
    ensures { result ≡ min (text_size (contents.Proposal body.now)) usize.MAX }
{
    body.kind
        .as_str()
        .len()
        .saturating_add(body.comment.as_str().len())
        .saturating_add(body.value.as_str().len())
}

/// The proposal, whose identifier is made of `word` where it is absent.
#[tactic(auto, unfolding(crate::specs::Statements::proposal_in))]
fn proposal(
    alloc: Global,
    path: &Path<'_>,
    value: &Value,
    event: EventId,
    target: TaggedPlace,
    word: u128,
) -> Result<ProposalDraft, FormatFault>
    ensures { Gives result
        (proposal_in (path_text path.now) event target word (view value.now)) }
{
    let target = target.get();
    let it = Members::of(alloc, path, value)?;
    let uuid = it.uuid("uuid", Uid::made(word, 0))?;
    let remove = removal(&it, is_there(&target))?;
    let kind = kind(&it, remove)?;
    let category = category_or_other(&it)?;
    let to_ids = it.flag("to_ids", false)?;
    let comment = it.text("comment")?;
    no_file(&it)?;
    let value = self::value(&it, remove, kind.as_str())?;
    let body = ProposalBody {
        remove,
        by_name: Text::of(String::new(alloc)),
        kind,
        category,
        to_ids,
        comment,
        value,
    };
    let bytes = size(&body);
    let body = it.short(body, bytes)?;
    Ok(ProposalDraft::of(ProposalDraftFields {
        event,
        target,
        uuid: ElemId(uuid),
        body,
    }))
}

/// The proposal that a body is, for this target in this event. Without an identifier it gets one
/// that is made of `word`.
pub fn read_proposal(
    alloc: Global,
    body: &Value,
    event: EventId,
    target: TaggedPlace,
    word: u128,
) -> Result<ProposalDraft, FormatFault>
    ensures { Gives result (proposal_at event target word (view body.now)) }
{
    let path = Path::Body("ShadowAttribute");
    let value = unwrapped("ShadowAttribute", body);
    proposal(alloc, &path, value, event, target, word)
}
