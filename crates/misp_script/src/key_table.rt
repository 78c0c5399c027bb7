//! The list `key`.

ghost use Rattle.std.specs.Prelude.{◌≡◌, [], ◌∷◌, ◌++◌, Ok, map};
ghost use Rattle.toml.specs.View.{view};
ghost use Rattle.misp_script.specs.Faults.{Gives};
ghost use Rattle.misp_script.specs.Seen.{Shows, body_of};
ghost use Rattle.misp_script.specs.Entries.{each};
ghost use Rattle.misp_script.specs.Tables.{has_key, known_host_at, api_key_at, role_at, no_partner_at, partner_at, not_internal_at, key_internal_at, key_at, next_key};

use crate::description::HostKey;
use crate::fault::{DescFault, DescNeed};
use crate::host_table::{HostList, internal};
use crate::listed::Listed;
use crate::org_table::{OrgList, known_org};
use crate::pairs::{Pairs, has_pair, put_pair};
use misp_ids::{ApiKey, InstId};
use misp_orgs::{KeyRecord, Role};
use std::alloc::Global;
use std::collections::BTreeSet;
use std::marker::Model;
use toml::Value;

/// Keys in the order in which they are listed, and what tells whether an instance has a key.
///
/// A contract sees the list.
#[derive(Drop)]
pub(crate) struct HostKeys {
    list: Vec<HostKey>,
    taken: Pairs,
}

impl Model for HostKeys {
    ghost use Rattle.std.specs.Prelude.{List};
    ghost use Rattle.misp_script.specs.declared.description.HostKey.{HostKey};
    ghost use Rattle.misp_script.specs.Known.{KnowsKeys};

    ghost Value = { List HostKey };

    ghost view = { λ k. k.list.items };

    ghost invariant = { λ k. KnowsKeys k.list.items k.taken };
}

impl HostKeys {
    fn new(alloc: Global) -> HostKeys
        ensures { result ≡ [] }
    {
        HostKeys {
            list: Vec::new(alloc),
            taken: BTreeSet::new(alloc),
        }
    }

    pub(crate) fn as_slice(&self) -> &[HostKey]
        ensures { result.now ≡ self.now }
    {
        self.list.as_slice()
    }

    fn has(&self, alloc: Global, at: &InstId, key: &ApiKey) -> Result<bool, DescFault>
        ensures { Gives result (Ok (has_key self.now at.now key.now)) }
    {
        has_pair(alloc, &self.taken, at.text(), key.text())
    }

    // With another at the end.
    fn with(self, alloc: Global, next: HostKey) -> Result<HostKeys, DescFault>
        ensures { Gives result (Ok (self ++ next ∷ [])) }
    {
        let HostKeys {
            mut list,
            mut taken,
        } = self;
        put_pair(alloc, &mut taken, next.at.text(), next.key.key.text())?;
        list.push(next)?;
        Ok(HostKeys { list, taken })
    }
}

pub(crate) fn known_host(hosts: &HostList, it: &Listed<'_>, name: &str) -> Result<InstId, DescFault>
    ensures { Gives result (known_host_at hosts.now (body_of it.now) name.now) }
{
    let text = it.text(name)?;
    it.said(name, DescNeed::Known, hosts.named(text))
}

pub(crate) fn api_key(it: &Listed<'_>) -> Result<ApiKey, DescFault>
    ensures { Gives result (api_key_at (body_of it.now)) }
{
    let text = it.text("key")?;
    it.said("key", DescNeed::Key, ApiKey::read(text))
}

fn role(it: &Listed<'_>) -> Result<Role, DescFault>
    ensures { Gives result (role_at (body_of it.now)) }
{
    let text = it.text("role")?;
    it.said("role", DescNeed::Role, Role::named(text))
}

fn no_partner(it: &Listed<'_>) -> Result<Option<InstId>, DescFault>
    ensures { Gives result (no_partner_at (body_of it.now)) }
{
    it.refused_if(it.has("partner"), "partner", DescNeed::Member)?;
    Ok(None)
}

/// The partner of a key for synchronisation. No other key has one.
fn partner(hosts: &HostList, it: &Listed<'_>, role: Role) -> Result<Option<InstId>, DescFault>
    ensures { Gives result (partner_at hosts.now (body_of it.now) role) }
{
    match role {
        Role::Sync => {
            let partner = known_host(hosts, it, "partner")?;
            Ok(Some(partner))
        }
        _ => no_partner(it),
    }
}

#[tactic(auto, unfolding(crate::specs::Tables::not_internal_at))]
fn not_internal(it: &Listed<'_>) -> Result<bool, DescFault>
    ensures { Gives result (not_internal_at (body_of it.now)) }
{
    let internal = it.flag_or("internal", false)?;
    it.refused_if(internal, "partner", DescNeed::Present)?;
    Ok(internal)
}

/// Whether a key is internal. One without a partner is not.
fn key_internal(
    hosts: &HostList,
    it: &Listed<'_>,
    at: &InstId,
    partner: &Option<InstId>,
) -> Result<bool, DescFault>
    ensures { Gives result (key_internal_at hosts.now (body_of it.now) at.now partner.now) }
{
    match partner {
        Some(partner) => internal(hosts, it, at, partner),
        None => not_internal(it),
    }
}

/// A key, after those that stand before it in the list.
#[tactic(auto, unfolding(crate::specs::Tables::key_at))]
fn key(
    orgs: &OrgList,
    hosts: &HostList,
    before: &HostKeys,
    it: &Listed<'_>,
) -> Result<HostKey, DescFault>
    ensures { Gives result (key_at orgs.now hosts.now before.now (body_of it.now)) }
{
    let at = known_host(hosts, it, "instance")?;
    let key = api_key(it)?;
    let taken = before.has(it.alloc, &at, &key)?;
    it.refused_if(taken, "key", DescNeed::Distinct)?;
    let org = known_org(orgs, it, "org")?;
    let role = role(it)?;
    let partner = partner(hosts, it, role)?;
    let internal = key_internal(hosts, it, &at, &partner)?;
    it.no_other(&["instance", "key", "org", "role", "partner", "internal"])?;
    Ok(HostKey {
        at,
        key: KeyRecord {
            key,
            org,
            role,
            partner,
            revoked: false,
            internal,
        },
    })
}

/// The keys of the list.
pub(crate) fn keys(
    alloc: Global,
    orgs: &OrgList,
    hosts: &HostList,
    list: &[Value],
) -> Result<HostKeys, DescFault>
    ensures { Gives result (each (next_key orgs.now hosts.now) 0 [] (map view list.now)) }
{
    let mut keys = HostKeys::new(alloc);
    for (index, value) in list.iter().enumerate() {
        let it = Listed {
            alloc,
            list: "key",
            index,
            value,
        };
        let next = key(orgs, hosts, &keys, &it)?;
        keys = keys.with(alloc, next)?;
    }
    Ok(keys)
}
