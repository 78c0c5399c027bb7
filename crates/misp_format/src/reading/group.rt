//! Sharing groups, read whole.

ghost use Rattle.std.specs.Prelude.{◌≡◌, ℕ, List, [], Ok, IfOk, codes, map};
ghost use Rattle.std.specs.Cmp.Lexicographic.{slice_cmp};
ghost use Rattle.std.specs.List.{AllByRecursion};
ghost use Rattle.std.specs.List.Sorted.{IsStrictlySortedBy};
ghost use Rattle.std.specs.Map.{keys_of};
ghost use Rattle.std.specs.Ordering.{nat_cmp};
ghost use Rattle.serde_json.specs.View.{view, items_of};
ghost use Rattle.misp_groups.specs.Group.{by_org, by_server, IsOrg, IsServer};
ghost use Rattle.misp_fields.specs.Fields.{stamp_of};
ghost use Rattle.misp_format.specs.Members.{body_of, path_text};
ghost use Rattle.misp_format.specs.Groups.{organisation_at, named_organisation_at, org_at, next_org, org_of, orgs_at, server_name_at, named_server_at, server_at, next_server, server_of, servers_at, whole_group_at, group_body_at};
ghost use Rattle.misp_format.specs.Entries.{IsSpelled};
ghost use Rattle.misp_format.specs.Rows.{Gives, Shows, row, each};

use crate::fault::FormatFault;
use crate::reading::event::unwrapped;
use crate::reading::members::Members;
use crate::reading::path::Path;
use misp_fields::{self as fields, Need, member};
use misp_groups::{Group, GroupFields, GroupOrg, GroupServer};
use misp_ids::{GroupId, InstId, Items, OrgId, Stamp, Text, Uid};
use serde_json::Value;
use std::alloc::Global;
use std::collections::BTreeMap;

// ---- organisations

/// The names of organisations and whether they may extend the group, by their identifiers.
type Orgs = BTreeMap<u128, (Text, bool)>;

#[tactic(auto, unfolding(crate::specs::Groups::organisation_at))]
fn organisation(alloc: Global, path: &Path<'_>, value: &Value) -> Result<(Uid, Text), FormatFault>
    ensures { Gives result (organisation_at (path_text path.now) (view value.now)) }
{
    let it = Members::of(alloc, path, value)?;
    let uuid = it.needed_uuid("uuid")?;
    let name = it.text("name")?;
    Ok((uuid, name))
}

fn named_organisation(it: &Members<'_>) -> Result<(Uid, Text), FormatFault>
    ensures { Gives result (named_organisation_at (body_of it.now)) }
{
    match member(it.value, "Organisation") {
        Some(value) => organisation(it.alloc, &Path::Member(it.path, "Organisation"), value),
        None => it.refused("Organisation", Need::Present),
    }
}

#[tactic(auto, unfolding(crate::specs::Groups::org_at))]
fn org(alloc: Global, path: &Path<'_>, value: &Value) -> Result<GroupOrg, FormatFault>
    ensures { Gives result (org_at (path_text path.now) (view value.now)) }
{
    let it = Members::of(alloc, path, value)?;
    let (uuid, name) = named_organisation(&it)?;
    let extend = it.flag("extend", false)?;
    Ok(GroupOrg {
        org: OrgId(uuid),
        name,
        extend,
    })
}

/// The organisations in a list. Of two of one identifier the later counts.
fn orgs_in(alloc: Global, path: &Path<'_>, list: &[Value]) -> Result<Orgs, FormatFault>
    ensures { Shows (λ m. m.entries) result
        (each (next_org (path_text path.now)) 0 [] (items_of (map view list.now))) }
{
    let mut orgs = BTreeMap::new(alloc);
    for (index, value) in list.iter().enumerate() {
        let org = org(alloc, &Path::Item(&*path, index), value)?;
        drop(orgs.insert(org.org.0.0, (org.name, org.extend))?);
    }
    Ok(orgs)
}

fn org_of(uuid: u128, name: Text, extend: bool) -> GroupOrg
    ensures value { result ≡ org_of (uuid, (name, extend)) }
    ensures fits { IsOrg result }
{
    GroupOrg {
        org: OrgId(Uid(uuid)),
        name,
        extend,
    }
}

fn org_list(alloc: Global, entries: Orgs) -> Result<Vec<GroupOrg>, FormatFault>
    ensures gives { Shows (λ v. v.items) result (Ok (map org_of entries.entries)) }
    ensures ordered { IsStrictlySortedBy nat_cmp (keys_of entries.entries) }
    ensures fit { IfOk result (λ v. AllByRecursion IsOrg v.items) }
{
    let mut orgs = Vec::new(alloc);
    for (uuid, (name, extend)) in entries {
        orgs.push(org_of(uuid, name, extend))?;
    }
    Ok(orgs)
}

#[tactic(auto, unfolding(crate::specs::Groups::orgs_at))]
fn orgs(it: &Members<'_>) -> Result<Items<GroupOrg>, FormatFault>
    ensures gives { Gives result (orgs_at (body_of it.now)) }
    ensures fit { IfOk result (AllByRecursion IsOrg) }
    ensures ascend { IfOk result (IsStrictlySortedBy by_org) }
{
    let list = it.list("SharingGroupOrg")?;
    let entries = orgs_in(it.alloc, &Path::Member(it.path, "SharingGroupOrg"), list)?;
    Ok(Items::of(org_list(it.alloc, entries)?))
}

// ---- instances

/// Instances and whether all their organisations belong to the group, by their names.
type Servers = BTreeMap<Text, (InstId, bool)>;

#[tactic(auto, unfolding(crate::specs::Groups::server_name_at))]
fn server_name(alloc: Global, path: &Path<'_>, value: &Value) -> Result<InstId, FormatFault>
    ensures { Gives result (server_name_at (path_text path.now) (view value.now)) }
{
    Members::of(alloc, path, value)?.inst_name("name")
}

fn named_server(it: &Members<'_>) -> Result<InstId, FormatFault>
    ensures { Gives result (named_server_at (body_of it.now)) }
{
    match member(it.value, "Server") {
        Some(value) => server_name(it.alloc, &Path::Member(it.path, "Server"), value),
        None => it.refused("Server", Need::Present),
    }
}

#[tactic(auto, unfolding(crate::specs::Groups::server_at))]
fn server(alloc: Global, path: &Path<'_>, value: &Value) -> Result<GroupServer, FormatFault>
    ensures { Gives result (server_at (path_text path.now) (view value.now)) }
{
    let it = Members::of(alloc, path, value)?;
    let name = named_server(&it)?;
    let all_orgs = it.flag("all_orgs", false)?;
    Ok(GroupServer { name, all_orgs })
}

/// The instances in a list. Of two of one name the later counts.
fn servers_in(alloc: Global, path: &Path<'_>, list: &[Value]) -> Result<Servers, FormatFault>
    ensures gives { Shows (λ m. m.entries) result
        (each (next_server (path_text path.now)) 0 [] (items_of (map view list.now))) }
    ensures spelled { IfOk result (λ m. AllByRecursion IsSpelled m.entries) }
{
    let mut servers = BTreeMap::new(alloc);
    for (index, value) in list.iter().enumerate() {
        let server = server(alloc, &Path::Item(&*path, index), value)?;
        let name = Text::of(String::from_str(alloc, server.name.text())?);
        drop(servers.insert(name, (server.name, server.all_orgs))?);
    }
    Ok(servers)
}

fn server_of(name: InstId, all_orgs: bool) -> GroupServer
    ensures value { (key : List ℕ) → result ≡ server_of (key, (name, all_orgs)) }
    ensures fits { IsServer result }
{
    GroupServer { name, all_orgs }
}

fn server_list(alloc: Global, entries: Servers) -> Result<Vec<GroupServer>, FormatFault>
    ensures gives { Shows (λ v. v.items) result (Ok (map server_of entries.entries)) }
    ensures ordered { IsStrictlySortedBy (slice_cmp nat_cmp) (keys_of entries.entries) }
    ensures fit { IfOk result (λ v. AllByRecursion IsServer v.items) }
{
    let mut servers = Vec::new(alloc);
    for (_, (name, all_orgs)) in entries {
        servers.push(server_of(name, all_orgs))?;
    }
    Ok(servers)
}

#[tactic(auto, unfolding(crate::specs::Groups::servers_at))]
fn servers(it: &Members<'_>) -> Result<Items<GroupServer>, FormatFault>
    ensures gives { Gives result (servers_at (body_of it.now)) }
    ensures fit { IfOk result (AllByRecursion IsServer) }
    ensures ascend { IfOk result (IsStrictlySortedBy by_server) }
{
    let list = it.list("SharingGroupServer")?;
    let entries = servers_in(it.alloc, &Path::Member(it.path, "SharingGroupServer"), list)?;
    Ok(Items::of(server_list(it.alloc, entries)?))
}

// ---- groups

fn modified(it: &Members<'_>) -> Result<Stamp, FormatFault>
    ensures { Gives result (row (body_of it.now) (codes "modified") stamp_of (Ok 0)) }
{
    match member(it.value, "modified") {
        Some(value) => it.kept("modified", fields::stamp(value)),
        None => Ok(Stamp::first()),
    }
}

#[tactic(auto, unfolding(crate::specs::Groups::whole_group_at))]
fn whole_group(alloc: Global, path: &Path<'_>, value: &Value) -> Result<Group, FormatFault>
    ensures { Gives result (whole_group_at (path_text path.now) (view value.now)) }
{
    let it = Members::of(alloc, path, value)?;
    let uuid = it.needed_uuid("uuid")?;
    let creator = OrgId(it.needed_uuid("organisation_uuid")?);
    Ok(Group::of(GroupFields {
        id: GroupId { creator, uuid },
        name: it.some_text("name")?,
        description: it.text("description")?,
        releasability: it.text("releasability")?,
        active: it.flag("active", true)?,
        roaming: it.flag("roaming", false)?,
        modified: modified(&it)?,
        orgs: orgs(&it)?,
        servers: servers(&it)?,
        carried: false,
    }))
}

/// A body that is a sharing group.
pub fn read_group(alloc: Global, value: &Value) -> Result<Group, FormatFault>
    ensures { Gives result (group_body_at (view value.now)) }
{
    whole_group(
        alloc,
        &Path::Body("SharingGroup"),
        unwrapped("SharingGroup", value),
    )
}
