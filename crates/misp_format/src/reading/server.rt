//! Links that are added or edited.

ghost use Rattle.std.specs.Prelude.{codes};
ghost use Rattle.serde_json.specs.View.{view};
ghost use Rattle.misp_format.specs.Administering.{api_key_of, link_at, link_edit_at, link_edit_in_text, link_in_text, peer_of};
ghost use Rattle.misp_format.specs.Edits.{given_row};
ghost use Rattle.misp_format.specs.Members.{body_of};
ghost use Rattle.misp_format.specs.Rows.{Gives, must_be, row};

use crate::fault::FormatFault;
use crate::reading::edit::{given_flag, given_uuid, org_of};
use crate::reading::event::unwrapped;
use crate::reading::json_text::read_json;
use crate::reading::members::Members;
use crate::reading::path::Path;
use misp_admins::LinkEdit;
use misp_fields::{Need, member};
use misp_ids::{ApiKey, InstId, OrgId};
use misp_orgs::Link;
use serde_json::Value;
use std::alloc::Global;

/// The other instance of a link of `here`.
fn peer(it: &Members<'_>, here: &InstId) -> Result<InstId, FormatFault>
    ensures { Gives result (row (body_of it.now) (codes "peer") (peer_of here.now) must_be) }
{
    let peer = it.inst_name("peer")?;
    if peer.text() == here.text() {
        return it.refused("peer", Need::Range);
    }
    Ok(peer)
}

fn given_key(it: &Members<'_>) -> Result<Option<ApiKey>, FormatFault>
    ensures { Gives result (given_row (body_of it.now) (codes "key") api_key_of) }
{
    match member(it.value, "key") {
        Some(_) => Ok(Some(it.api_key("key")?)),
        None => Ok(None),
    }
}

#[tactic(auto, unfolding(crate::specs::Administering::link_at))]
fn server(alloc: Global, here: &InstId, value: &Value) -> Result<Link, FormatFault>
    ensures { Gives result (link_at here.now (view value.now)) }
{
    let path = Path::Body("Server");
    let it = Members::of(alloc, &path, unwrapped("Server", value))?;
    let name = it.inst_name("name")?;
    let peer = peer(&it, here)?;
    let key = it.api_key("key")?;
    let holder = OrgId(it.needed_uuid("holder")?);
    let push_org = OrgId(it.needed_uuid("push_org")?);
    let on = it.flag("on", true)?;
    Ok(Link {
        name,
        peer,
        key,
        holder,
        push_org,
        on,
        internal: false,
    })
}

/// The link that a body adds at the instance `here`.
pub fn read_server(alloc: Global, here: &InstId, body: &[u8]) -> Result<Link, FormatFault>
    ensures { Gives result (link_in_text here.now body.now) }
{
    let value = read_json(alloc, body)?;
    server(alloc, here, &value)
}

#[tactic(auto, unfolding(crate::specs::Administering::link_edit_at))]
fn server_edit(alloc: Global, value: &Value) -> Result<LinkEdit, FormatFault>
    ensures { Gives result (link_edit_at (view value.now)) }
{
    let path = Path::Body("Server");
    let it = Members::of(alloc, &path, unwrapped("Server", value))?;
    let name = it.inst_name("name")?;
    let key = given_key(&it)?;
    let holder = org_of(given_uuid(&it, "holder")?);
    let push_org = org_of(given_uuid(&it, "push_org")?);
    let on = given_flag(&it, "on")?;
    Ok(LinkEdit {
        name,
        key,
        holder,
        push_org,
        on,
    })
}

/// The edit of a link that a body is.
pub fn read_server_edit(alloc: Global, body: &[u8]) -> Result<LinkEdit, FormatFault>
    ensures { Gives result (link_edit_in_text body.now) }
{
    let value = read_json(alloc, body)?;
    server_edit(alloc, &value)
}
