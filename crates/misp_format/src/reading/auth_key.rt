//! Keys that are added or revoked.

ghost use Rattle.std.specs.Prelude.{◌≡◌, None, Ok, IfOk, codes};
ghost use Rattle.serde_json.specs.View.{view};
ghost use Rattle.misp_orgs.specs.Keys.{HasPartner};
ghost use Rattle.misp_format.specs.Administering.{key_at, key_in_text, partner_at, refused_of, revoked_at, revoked_in_text, role_of};
ghost use Rattle.misp_format.specs.Members.{body_of};
ghost use Rattle.misp_format.specs.Rows.{Gives, must_be, row};

use crate::fault::FormatFault;
use crate::reading::event::unwrapped;
use crate::reading::json_text::read_json;
use crate::reading::members::Members;
use crate::reading::path::Path;
use misp_fields::{self as fields, Need, member};
use misp_ids::{ApiKey, InstId, OrgId};
use misp_orgs::{KeyRecord, Role};
use serde_json::Value;
use std::alloc::Global;

fn role_in(value: &Value) -> Result<Role, Need>
    ensures { result ≡ role_of (view value.now) }
{
    match fields::text(value) {
        Ok(text) => Role::named(text).ok_or(Need::Range),
        Err(need) => Err(need),
    }
}

fn role(it: &Members<'_>) -> Result<Role, FormatFault>
    ensures { Gives result (row (body_of it.now) (codes "role") role_of must_be) }
{
    match member(it.value, "role") {
        Some(value) => it.kept("role", role_in(value)),
        None => it.refused("role", Need::Present),
    }
}

fn no_partner(it: &Members<'_>) -> Result<Option<InstId>, FormatFault>
    ensures gives { Gives result (row (body_of it.now) (codes "partner") refused_of (Ok None)) }
    ensures none { IfOk result (λ partner. partner ≡ None) }
{
    match member(it.value, "partner") {
        Some(_) => it.refused("partner", Need::Range),
        None => Ok(None),
    }
}

/// The instance that asks with a key of this role.
fn partner(it: &Members<'_>, role: Role) -> Result<Option<InstId>, FormatFault>
    ensures gives { Gives result (partner_at role (body_of it.now)) }
    ensures has { IfOk result (HasPartner role) }
{
    match role {
        Role::Sync => Ok(Some(it.inst_name("partner")?)),
        _ => no_partner(it),
    }
}

#[tactic(auto, unfolding(crate::specs::Administering::key_at))]
fn auth_key(alloc: Global, value: &Value) -> Result<KeyRecord, FormatFault>
    ensures { Gives result (key_at (view value.now)) }
{
    let path = Path::Body("AuthKey");
    let it = Members::of(alloc, &path, unwrapped("AuthKey", value))?;
    let key = it.api_key("authkey")?;
    let org = OrgId(it.needed_uuid("org")?);
    let role = role(&it)?;
    let partner = partner(&it, role)?;
    Ok(KeyRecord {
        key,
        org,
        role,
        partner,
        revoked: false,
        internal: false,
    })
}

/// The key that a body adds.
pub fn read_auth_key(alloc: Global, body: &[u8]) -> Result<KeyRecord, FormatFault>
    ensures { Gives result (key_in_text body.now) }
{
    let value = read_json(alloc, body)?;
    auth_key(alloc, &value)
}

#[tactic(auto, unfolding(crate::specs::Administering::revoked_at))]
fn revoked(alloc: Global, value: &Value) -> Result<ApiKey, FormatFault>
    ensures { Gives result (revoked_at (view value.now)) }
{
    let path = Path::Body("AuthKey");
    let it = Members::of(alloc, &path, unwrapped("AuthKey", value))?;
    it.api_key("authkey")
}

/// The key that a body revokes.
pub fn read_revoked(alloc: Global, body: &[u8]) -> Result<ApiKey, FormatFault>
    ensures { Gives result (revoked_in_text body.now) }
{
    let value = read_json(alloc, body)?;
    revoked(alloc, &value)
}
