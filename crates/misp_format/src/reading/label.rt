//! Labels, each by its number, and the group that one of them names.

ghost use Rattle.std.specs.Prelude.{IfOk};
ghost use Rattle.serde_json.specs.View.{view};
ghost use Rattle.misp_ids.specs.Uid.{IsUid};
ghost use Rattle.misp_elem.specs.Row.{IsLabel};
ghost use Rattle.misp_format.specs.Members.{body_of, path_text};
ghost use Rattle.misp_format.specs.Labels.{group_at, named_group_at, label_at};
ghost use Rattle.misp_format.specs.Rows.{Gives};

use crate::fault::FormatFault;
use crate::reading::members::Members;
use crate::reading::path::Path;
use misp_fields::{Need, member};
use misp_ids::{GroupId, Label, OrgId};
use serde_json::Value;
use std::alloc::Global;

/// A group, by its creator and its own identifier.
#[tactic(auto, unfolding(crate::specs::Labels::group_at))]
fn group(alloc: Global, path: &Path<'_>, value: &Value) -> Result<GroupId, FormatFault>
    ensures gives { Gives result (group_at (path_text path.now) (view value.now)) }
    ensures fits { IfOk result (λ group. IsUid group.creator.0 × IsUid group.uuid) }
{
    let it = Members::of(alloc, path, value)?;
    let creator = OrgId(it.needed_uuid("organisation_uuid")?);
    let uuid = it.needed_uuid("uuid")?;
    Ok(GroupId { creator, uuid })
}

/// The group of a label.
fn named_group(it: &Members<'_>) -> Result<GroupId, FormatFault>
    ensures gives { Gives result (named_group_at (body_of it.now)) }
    ensures fits { IfOk result (λ group. IsUid group.creator.0 × IsUid group.uuid) }
{
    match member(it.value, "SharingGroup") {
        Some(value) => group(it.alloc, &Path::Member(it.path, "SharingGroup"), value),
        None => it.refused("SharingGroup", Need::Present),
    }
}

/// A label by its number, which is at most `most`, and is `absent` where it is absent.
#[tactic(auto, unfolding(crate::specs::Labels::label_at))]
pub(crate) fn label(it: &Members<'_>, most: u8, absent: u8) -> Result<Label, FormatFault>
    ensures gives { Gives result (label_at (body_of it.now) most absent) }
    ensures fits { IfOk result IsLabel }
{
    match it.number("distribution", 0, most, absent)? {
        0 => Ok(Label::Own),
        1 => Ok(Label::Community),
        2 => Ok(Label::Connected),
        3 => Ok(Label::All),
        4 => Ok(Label::Group(named_group(it)?)),
        _ => Ok(Label::Inherit),
    }
}
