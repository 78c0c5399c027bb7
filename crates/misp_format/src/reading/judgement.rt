//! What judges a proposal.

ghost use Rattle.std.specs.Prelude.{IfOk};
ghost use Rattle.serde_json.specs.View.{view};
ghost use Rattle.misp_elem.specs.Key.{IsPlaceBut, of_proposal};
ghost use Rattle.misp_format.specs.Members.{body_of, path_text};
ghost use Rattle.misp_format.specs.Rows.{Gives};
ghost use Rattle.misp_format.specs.Statements.{attribute_place_at, target_at, judgement_in, judgement_at};

use crate::fault::FormatFault;
use crate::reading::event::unwrapped;
use crate::reading::members::Members;
use crate::reading::path::Path;
use misp_elem::{Place, ProposalName};
use misp_fields::member;
use misp_ids::{ElemId, OrgId};
use misp_model::NamedProposal;
use serde_json::Value;
use std::alloc::Global;

/// The place of an attribute, of the object that is named beside it or outside objects.
fn attribute_place(it: &Members<'_>) -> Result<Place, FormatFault>
    ensures gives { Gives result (attribute_place_at (body_of it.now)) }
    ensures fits { IfOk result (IsPlaceBut of_proposal) }
{
    let attribute = ElemId(it.needed_uuid("attribute")?);
    if member(it.value, "object").is_none() {
        return Ok(Place::Attribute(attribute));
    }
    let object = ElemId(it.needed_uuid("object")?);
    Ok(Place::ObjectAttribute(object, attribute))
}

/// What the proposal is for, the event where neither an attribute nor an object is named.
#[tactic(auto, unfolding(crate::specs::Statements::target_at))]
fn target(it: &Members<'_>) -> Result<Place, FormatFault>
    ensures gives { Gives result (target_at (body_of it.now)) }
    ensures fits { IfOk result (IsPlaceBut of_proposal) }
{
    if member(it.value, "attribute").is_none() && member(it.value, "object").is_none() {
        return Ok(Place::Event);
    }
    attribute_place(it)
}

#[tactic(auto, unfolding(crate::specs::Statements::judgement_in))]
fn judgement(alloc: Global, path: &Path<'_>, value: &Value) -> Result<NamedProposal, FormatFault>
    ensures { Gives result (judgement_in (path_text path.now) (view value.now)) }
{
    let it = Members::of(alloc, path, value)?;
    let uuid = ElemId(it.needed_uuid("uuid")?);
    let by = OrgId(it.needed_uuid("org")?);
    let at = it.inst_name("origin")?;
    let target = target(&it)?;
    let name = ProposalName {
        target,
        at,
        by,
        uuid,
    };
    Ok(NamedProposal { name })
}

/// The name of the proposal that a body judges.
pub fn read_judgement(alloc: Global, body: &Value) -> Result<NamedProposal, FormatFault>
    ensures { Gives result (judgement_at (view body.now)) }
{
    judgement(
        alloc,
        &Path::Body("ShadowAttribute"),
        unwrapped("ShadowAttribute", body),
    )
}
