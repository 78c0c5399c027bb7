//! Organisations that are added.

ghost use Rattle.std.specs.Prelude.{◌≤◌, IfOk, codes, length};
ghost use Rattle.serde_json.specs.View.{view};
ghost use Rattle.misp_orgs.specs.Org.{name_limit};
ghost use Rattle.misp_format.specs.Administering.{org_name_of, organisation_at, organisation_in_text};
ghost use Rattle.misp_format.specs.Members.{body_of};
ghost use Rattle.misp_format.specs.Rows.{Gives, must_be, row};

use crate::fault::FormatFault;
use crate::reading::event::unwrapped;
use crate::reading::json_text::read_json;
use crate::reading::members::Members;
use crate::reading::path::Path;
use misp_fields::{self as fields, Need, member};
use misp_ids::{OrgId, Text};
use misp_orgs::{Org, is_org_name};
use serde_json::Value;
use std::alloc::Global;

fn org_name(it: &Members<'_>) -> Result<Text, FormatFault>
    ensures gives { Gives result (row (body_of it.now) (codes "name") org_name_of must_be) }
    ensures short { IfOk result (λ name. length name ≤ name_limit) }
{
    match member(it.value, "name") {
        Some(value) => match fields::text(value) {
            Ok(name) if is_org_name(name) => Ok(Text::of(String::from_str(it.alloc, name)?)),
            Ok(_) => it.refused("name", Need::Range),
            Err(need) => it.refused("name", need),
        },
        None => it.refused("name", Need::Present),
    }
}

#[tactic(auto, unfolding(crate::specs::Administering::organisation_at))]
fn organisation(alloc: Global, value: &Value) -> Result<Org, FormatFault>
    ensures { Gives result (organisation_at (view value.now)) }
{
    let path = Path::Body("Organisation");
    let it = Members::of(alloc, &path, unwrapped("Organisation", value))?;
    let uuid = OrgId(it.needed_uuid("uuid")?);
    let name = org_name(&it)?;
    Ok(Org { uuid, name })
}

/// The organisation that a body is.
pub fn read_organisation(alloc: Global, body: &[u8]) -> Result<Org, FormatFault>
    ensures { Gives result (organisation_in_text body.now) }
{
    let value = read_json(alloc, body)?;
    organisation(alloc, &value)
}
