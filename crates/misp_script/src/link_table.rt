//! The list `link`.

ghost use Rattle.std.specs.Prelude.{◌≡◌, [], ◌∷◌, ◌++◌, Ok, map};
ghost use Rattle.toml.specs.View.{view};
ghost use Rattle.misp_script.specs.Faults.{Gives};
ghost use Rattle.misp_script.specs.Entries.{each};
ghost use Rattle.misp_script.specs.Seen.{body_of};
ghost use Rattle.misp_script.specs.Tables.{has_link, host_in, is_taken, link_at, next_link};

use crate::description::HostLink;
use crate::fault::{DescFault, DescNeed};
use crate::host_table::{HostList, host_name, internal};
use crate::key_table::{api_key, known_host};
use crate::listed::Listed;
use crate::org_table::{OrgList, known_org};
use crate::pairs::{Pairs, has_pair, put_pair};
use misp_ids::InstId;
use misp_orgs::Link;
use std::alloc::Global;
use std::collections::BTreeSet;
use std::marker::Model;
use toml::Value;

/// Links in the order in which they are listed, and what tells which names an instance has given.
///
/// A contract sees the list.
#[derive(Drop)]
pub(crate) struct HostLinks {
    list: Vec<HostLink>,
    taken: Pairs,
}

impl Model for HostLinks {
    ghost use Rattle.std.specs.Prelude.{List};
    ghost use Rattle.misp_script.specs.declared.description.HostLink.{HostLink};
    ghost use Rattle.misp_script.specs.Known.{KnowsLinks};

    ghost Value = { List HostLink };

    ghost view = { λ k. k.list.items };

    ghost invariant = { λ k. KnowsLinks k.list.items k.taken };
}

impl HostLinks {
    fn new(alloc: Global) -> HostLinks
        ensures { result ≡ [] }
    {
        HostLinks {
            list: Vec::new(alloc),
            taken: BTreeSet::new(alloc),
        }
    }

    pub(crate) fn as_slice(&self) -> &[HostLink]
        ensures { result.now ≡ self.now }
    {
        self.list.as_slice()
    }

    fn has(&self, alloc: Global, at: &InstId, name: &InstId) -> Result<bool, DescFault>
        ensures { Gives result (Ok (has_link self.now at.now name.now)) }
    {
        has_pair(alloc, &self.taken, at.text(), name.text())
    }

    // With another at the end.
    fn with(self, alloc: Global, next: HostLink) -> Result<HostLinks, DescFault>
        ensures { Gives result (Ok (self ++ next ∷ [])) }
    {
        let HostLinks {
            mut list,
            mut taken,
        } = self;
        put_pair(alloc, &mut taken, next.at.text(), next.link.name.text())?;
        list.push(next)?;
        Ok(HostLinks { list, taken })
    }
}

fn host_in(hosts: &HostList, it: &Listed<'_>, name: &str) -> Option<InstId>
    ensures { result ≡ host_in hosts.now (body_of it.now) name.now }
{
    match it.text_in(name) {
        Some(text) => hosts.named(text),
        None => None,
    }
}

/// Whether the instance whose link it is has one of this name already.
fn is_taken(
    hosts: &HostList,
    before: &HostLinks,
    it: &Listed<'_>,
    name: &InstId,
) -> Result<bool, DescFault>
    ensures { Gives result (Ok (is_taken hosts.now before.now (body_of it.now) name.now)) }
{
    match host_in(hosts, it, "at") {
        Some(at) => before.has(it.alloc, &at, name),
        None => Ok(false),
    }
}

/// A link, after those that stand before it in the list.
#[tactic(auto, unfolding(crate::specs::Tables::link_at))]
fn link(
    orgs: &OrgList,
    hosts: &HostList,
    before: &HostLinks,
    it: &Listed<'_>,
) -> Result<HostLink, DescFault>
    ensures { Gives result (link_at orgs.now hosts.now before.now (body_of it.now)) }
{
    let name = host_name(it)?;
    let taken = is_taken(hosts, before, it, &name)?;
    it.refused_if(taken, "name", DescNeed::Distinct)?;
    let at = known_host(hosts, it, "at")?;
    let peer = known_host(hosts, it, "to")?;
    it.refused_if(peer.text() == at.text(), "to", DescNeed::Distinct)?;
    let key = api_key(it)?;
    let holder = known_org(orgs, it, "holder")?;
    let push_org = known_org(orgs, it, "push_org")?;
    let on = it.flag_or("on", true)?;
    let internal = internal(hosts, it, &at, &peer)?;
    it.no_other(&[
        "name", "at", "to", "key", "holder", "push_org", "on", "internal",
    ])?;
    Ok(HostLink {
        at,
        link: Link {
            name,
            peer,
            key,
            holder,
            push_org,
            on,
            internal,
        },
    })
}

/// The links of the list.
pub(crate) fn links(
    alloc: Global,
    orgs: &OrgList,
    hosts: &HostList,
    list: &[Value],
) -> Result<HostLinks, DescFault>
    ensures { Gives result (each (next_link orgs.now hosts.now) 0 [] (map view list.now)) }
{
    let mut links = HostLinks::new(alloc);
    for (index, value) in list.iter().enumerate() {
        let it = Listed {
            alloc,
            list: "link",
            index,
            value,
        };
        let next = link(orgs, hosts, &links, &it)?;
        links = links.with(alloc, next)?;
    }
    Ok(links)
}
