//! Whom a group allows, and where it carries what it labels.

ghost use Rattle.std.specs.Prelude.{◌≡◌, ◌&&◌, option_map};
ghost use Rattle.std.specs.List.{list_any, find};
ghost use Rattle.std.specs.List.Sorted.{IsStrictlySortedBy};
ghost use Rattle.misp_groups.specs.Group.{by_org, by_server};
ghost use Rattle.misp_ids.specs.Same.{same_inst, same_org};
ghost use Rattle.misp_groups.specs.Audience.{allows, carries};

use crate::group::{Group, GroupOrg, GroupServer};
use misp_ids::{InstId, OrgId};

fn has_org(orgs: &[GroupOrg], org: &OrgId) -> bool
    requires { IsStrictlySortedBy by_org orgs.now }
    ensures { result ≡ list_any (λ m. same_org m.org org.now) orgs.now }
{
    orgs.binary_search_by(|member| member.org.0.0.cmp(&org.0.0))
        .is_ok()
}

fn server_of<'a>(servers: &'a [GroupServer], name: &InstId) -> Option<&'a GroupServer>
    requires { IsStrictlySortedBy by_server servers.now }
    ensures { option_map (λ s. s.now) result ≡ find (λ s. same_inst s.name name.now) servers.now }
{
    match servers.binary_search_by(|server| server.name.text().cmp(name.text())) {
        Ok(place) => Some(&servers[place]),
        Err(_) => None,
    }
}

fn has_server(servers: &[GroupServer], name: &InstId) -> bool
    requires { IsStrictlySortedBy by_server servers.now }
    ensures { result ≡ list_any (λ s. same_inst s.name name.now) servers.now }
{
    server_of(servers, name).is_some()
}

fn has_all_orgs(servers: &[GroupServer], name: &InstId) -> bool
    requires { IsStrictlySortedBy by_server servers.now }
    ensures { result ≡ list_any (λ s. same_inst s.name name.now && s.all_orgs) servers.now }
{
    match server_of(servers, name) {
        Some(server) => server.all_orgs,
        None => false,
    }
}

/// Whether the group is active and allows the organisation at the instance.
#[tactic(auto, unfolding(crate::specs::Audience::allows))]
pub fn allows(group: &Group, org: &OrgId, here: &InstId) -> bool
    ensures { result ≡ allows group.now org.now here.now }
{
    group.active
        && (has_org(group.orgs.as_slice(), org) || has_all_orgs(group.servers.as_slice(), here))
}

/// Whether the group carries what the organisation takes to the instance.
#[tactic(auto, unfolding(crate::specs::Audience::carries))]
pub fn carries(group: &Group, org: &OrgId, dest: &InstId) -> bool
    ensures { result ≡ carries group.now org.now dest.now }
{
    allows(group, org, dest) && (group.roaming || has_server(group.servers.as_slice(), dest))
}
