//! Reads a description.

ghost use Rattle.std.specs.Prelude.{◌≡◌, IfOk, Ok};
ghost use Rattle.toml.specs.View.{table_view};
ghost use Rattle.misp_script.specs.Faults.{Gives};
ghost use Rattle.misp_script.specs.Seen.{Shows};
ghost use Rattle.misp_script.specs.Network.{keys_of, links_of, instance_of, instances_of, network_at, description_at};
ghost use Rattle.misp_script.specs.Kept.{AreApart};
ghost use Rattle.misp_script.specs.Limits.{org_limit, instance_limit, key_limit, link_limit};
ghost use Rattle.misp_script.specs.Names.{IsNet};

use crate::description::{Description, Entry, Host, HostKey, HostLink};
use crate::document::{
    INSTANCE_LIMIT, KEY_LIMIT, LINK_LIMIT, ORG_LIMIT, all_known, document, entries, within_limits,
};
use crate::fault::DescFault;
use crate::host_table::hosts;
use crate::key_table::keys;
use crate::link_table::links;
use crate::org_table::orgs;
use misp_ids::{InstId, Items};
use misp_orgs::{Admin, HeldKey, Link, Org};
use std::alloc::Global;
use toml::Table;

fn copied(alloc: Global, orgs: &[Org]) -> Result<Vec<Org>, DescFault>
    ensures { Shows (λ copy. copy.items) result (Ok orgs.now) }
{
    let mut copy = Vec::new(alloc);
    for org in orgs {
        copy.push(org.clone()?)?;
    }
    Ok(copy)
}

/// The keys of an instance.
fn keys_of(alloc: Global, keys: &[HostKey], name: &InstId) -> Result<Vec<HeldKey>, DescFault>
    ensures { Shows (λ own. own.items) result (Ok (keys_of keys.now name.now)) }
{
    let mut own = Vec::new(alloc);
    for key in keys {
        if key.at.text() == name.text() {
            own.push(HeldKey::of(alloc, key.key)?)?;
        }
    }
    Ok(own)
}

/// The links of an instance.
fn links_of(alloc: Global, links: &[HostLink], name: &InstId) -> Result<Vec<Link>, DescFault>
    ensures { Shows (λ own. own.items) result (Ok (links_of links.now name.now)) }
{
    let mut own = Vec::new(alloc);
    for link in links {
        if link.at.text() == name.text() {
            own.push(link.link)?;
        }
    }
    Ok(own)
}

/// An instance, which knows every organisation.
fn instance(
    alloc: Global,
    orgs: &[Org],
    keys: &[HostKey],
    links: &[HostLink],
    host: Host,
) -> Result<Entry, DescFault>
    requires { AreApart orgs.now keys.now links.now }
    ensures { Gives result (Ok (instance_of orgs.now keys.now links.now host)) }
{
    let keys = keys_of(alloc, keys, &host.name)?;
    let links = links_of(alloc, links, &host.name)?;
    let orgs = copied(alloc, orgs)?;
    Ok(Entry {
        name: host.name,
        address: host.address,
        admin: Admin::made(orgs, keys, links)?,
    })
}

fn instances(
    alloc: Global,
    orgs: &[Org],
    keys: &[HostKey],
    links: &[HostLink],
    hosts: Vec<Host>,
) -> Result<Vec<Entry>, DescFault>
    requires { AreApart orgs.now keys.now links.now }
    ensures { Shows (λ entries. entries.items) result
        (Ok (instances_of orgs.now keys.now links.now hosts.items)) }
{
    let mut entries = Vec::new(alloc);
    for host in hosts {
        entries.push(instance(alloc, orgs, keys, links, host)?)?;
    }
    Ok(entries)
}

#[tactic(auto, unfolding(crate::specs::Network::network_at))]
fn network(alloc: Global, table: &Table) -> Result<Description, DescFault>
    ensures { Gives result (network_at (table_view table.now)) }
{
    all_known(alloc, table)?;
    within_limits(alloc, table)?;
    let orgs = orgs(alloc, entries(table, "org"))?;
    let hosts = hosts(alloc, &orgs, entries(table, "instance"))?;
    let keys = keys(alloc, &orgs, &hosts, entries(table, "key"))?;
    let links = links(alloc, &orgs, &hosts, entries(table, "link"))?;
    let instances = instances(
        alloc,
        orgs.as_slice(),
        keys.as_slice(),
        links.as_slice(),
        hosts.into_vec(),
    )?;
    Ok(Description {
        instances: Items::of(instances),
    })
}

#[tactic(auto, unfolding(crate::specs::Network::description_at))]
fn described(alloc: Global, bytes: &[u8]) -> Result<Description, DescFault>
    ensures { Gives result (description_at bytes.now) }
{
    let table = document(alloc, bytes)?;
    network(alloc, &table)
}

/// The network that the bytes of a description describe, or the first fault.
#[tactic(auto, using(crate::proofs::Nets::is_net))]
pub fn read_description(alloc: Global, bytes: &[u8]) -> Result<Description, DescFault>
    ensures description { Gives result (description_at bytes.now) }
    ensures net { IfOk result IsNet }
    ensures limits { (ORG_LIMIT ≡ org_limit) × (INSTANCE_LIMIT ≡ instance_limit)
        × (KEY_LIMIT ≡ key_limit) × (LINK_LIMIT ≡ link_limit) }
{
    described(alloc, bytes)
}
