//! The list `instance`.

ghost use Rattle.std.specs.Prelude.{◌≡◌, ◌==◌, ◌&&◌, List, [], ◌∷◌, ◌++◌, Ok, map, option_map, IfErr, OnOk};
ghost use Rattle.misp_script.specs.declared.description.Host.{Host as HostData};
ghost use Rattle.misp_script.specs.declared.fault.DescFault.TheVariants.{NoMemory};
ghost use Rattle.misp_script.specs.Known.{NamesHosts};
ghost use Rattle.toml.specs.View.{view};
ghost use Rattle.misp_script.specs.Faults.{Gives};
ghost use Rattle.misp_script.specs.Entries.{each};
ghost use Rattle.misp_script.specs.Seen.{body_of};
ghost use Rattle.misp_script.specs.Tables.{has_host, host_of, host_name_at, host_at, next_host, host_named, hosting_org, is_one_org, have_one_host, internal_at};

use crate::description::Host;
use crate::fault::{DescFault, DescNeed};
use crate::listed::Listed;
use crate::org_table::{OrgList, known_org_or_none};
use misp_ids::{InstId, OrgId, Text};
use std::alloc::Global;
use std::collections::BTreeMap;
use std::marker::Model;
use toml::Value;

/// Instances in the order in which they are listed, and what finds them.
///
/// A contract sees the list.
#[derive(Drop)]
pub(crate) struct HostList {
    list: Vec<Host>,
    names: BTreeMap<String, InstId>,
}

impl Model for HostList {
    ghost use Rattle.std.specs.Prelude.{List};
    ghost use Rattle.misp_script.specs.declared.description.Host.{Host};
    ghost use Rattle.misp_script.specs.Known.{NamesHosts};

    ghost Value = { List Host };

    ghost view = { λ h. h.list.items };

    ghost invariant = { λ h. NamesHosts h.list.items h.names };
}

// A name stands for the first that has it.
fn put_host(
    alloc: Global,
    names: &mut BTreeMap<String, InstId>,
    next: &Host,
) -> Result<(), DescFault>
    ensures memory { IfErr result (λ fault. fault ≡ NoMemory) }
    ensures more { OnOk result ((hosts : List HostData) →
        NamesHosts hosts names.old → NamesHosts (hosts ++ next.now ∷ []) names.new) }
{
    let name = next.name.text();
    if names.contains_key(name) {
        return Ok(());
    }
    names.insert(String::from_str(alloc, name)?, next.name)?;
    Ok(())
}

impl HostList {
    fn new(alloc: Global) -> HostList
        ensures { result ≡ [] }
    {
        HostList {
            list: Vec::new(alloc),
            names: BTreeMap::new(alloc),
        }
    }

    fn as_slice(&self) -> &[Host]
        ensures { result.now ≡ self.now }
    {
        self.list.as_slice()
    }

    pub(crate) fn into_vec(self) -> Vec<Host>
        ensures { result.items ≡ self }
    {
        self.list
    }

    /// The instance of a name.
    pub(crate) fn named(&self, name: &str) -> Option<InstId>
        ensures { result ≡ host_of self.now name.now }
    {
        self.names.get(name).copied()
    }

    // With another at the end.
    fn with(self, alloc: Global, next: Host) -> Result<HostList, DescFault>
        ensures { Gives result (Ok (self ++ next ∷ [])) }
    {
        let HostList {
            mut list,
            mut names,
        } = self;
        put_host(alloc, &mut names, &next)?;
        list.push(next)?;
        Ok(HostList { list, names })
    }
}

fn has_host(hosts: &[Host], name: &InstId) -> bool
    ensures { result ≡ has_host hosts.now name.now }
{
    hosts.iter().any(|host| host.name.text() == name.text())
}

/// The name of an instance, or of a link.
pub(crate) fn host_name(it: &Listed<'_>) -> Result<InstId, DescFault>
    ensures { Gives result (host_name_at (body_of it.now)) }
{
    let text = it.text("name")?;
    it.said("name", DescNeed::Name, InstId::read(text))
}

/// An instance, after those that stand before it in the list.
#[tactic(auto, unfolding(crate::specs::Tables::host_at))]
fn host(orgs: &OrgList, before: &[Host], it: &Listed<'_>) -> Result<Host, DescFault>
    ensures { Gives result (host_at orgs.now before.now (body_of it.now)) }
{
    let name = host_name(it)?;
    it.refused_if(has_host(before, &name), "name", DescNeed::Distinct)?;
    let address = it.text_or_none("address")?;
    let org = known_org_or_none(orgs, it, "host")?;
    it.no_other(&["name", "address", "host"])?;
    Ok(Host {
        name,
        address: Text::of(String::from_str(it.alloc, address)?),
        org,
    })
}

/// The instances of the list.
pub(crate) fn hosts(alloc: Global, orgs: &OrgList, list: &[Value]) -> Result<HostList, DescFault>
    ensures { Gives result (each (next_host orgs.now) 0 [] (map view list.now)) }
{
    let mut hosts = HostList::new(alloc);
    for (index, value) in list.iter().enumerate() {
        let it = Listed {
            alloc,
            list: "instance",
            index,
            value,
        };
        let next = host(orgs, hosts.as_slice(), &it)?;
        hosts = hosts.with(alloc, next)?;
    }
    Ok(hosts)
}

// The instance of a name.
fn host_named<'a>(hosts: &'a [Host], name: &InstId) -> Option<&'a Host>
    ensures { option_map (λ host. host.now) result ≡ host_named hosts.now name.now }
{
    hosts.iter().find(|host| host.name.text() == name.text())
}

// The organisation that hosts it.
fn hosting_org(hosts: &[Host], name: &InstId) -> Option<OrgId>
    ensures { result ≡ hosting_org hosts.now name.now }
{
    match host_named(hosts, name) {
        Some(host) => host.org,
        None => None,
    }
}

fn is_one_org(a: Option<OrgId>, b: Option<OrgId>) -> bool
    ensures { result ≡ is_one_org a b }
{
    match (a, b) {
        (Some(a), Some(b)) => a.0.0 == b.0.0,
        _ => false,
    }
}

// Whether one organisation hosts both instances.
fn have_one_host(hosts: &HostList, a: &InstId, b: &InstId) -> bool
    ensures { result ≡ have_one_host hosts.now a.now b.now }
{
    let hosts = hosts.as_slice();
    is_one_org(hosting_org(hosts, a), hosting_org(hosts, b))
}

/// Whether what stands between two instances is internal. It is only where one organisation hosts
/// both.
#[tactic(auto, unfolding(crate::specs::Tables::internal_at))]
pub(crate) fn internal(
    hosts: &HostList,
    it: &Listed<'_>,
    at: &InstId,
    peer: &InstId,
) -> Result<bool, DescFault>
    ensures { Gives result (internal_at hosts.now (body_of it.now) at.now peer.now) }
{
    let internal = it.flag_or("internal", false)?;
    let apart = internal && !have_one_host(hosts, at, peer);
    it.refused_if(apart, "internal", DescNeed::Host)?;
    Ok(internal)
}
