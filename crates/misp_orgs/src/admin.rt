//! What is set up at an instance.

ghost use Rattle.std.specs.Prelude.{◌≡◌, ◌≤◌, length, option_map, IfOk, IfSome, OnOk};
ghost use Rattle.std.specs.List.Sorted.{IsStrictlySortedBy};
ghost use Rattle.misp_orgs.specs.Org.{name_limit, org_of, name_of, has_org, has_org_name};
ghost use Rattle.misp_lists.specs.Order.{sorted_by};
ghost use Rattle.misp_orgs.specs.Admin.{by_uuid, by_key, by_name, AreDistinct, admin_of, record_of, who_of, link_of};

use crate::held_key::HeldKey;
use crate::key::{Caller, KeyRecord};
use crate::link::Link;
use crate::org::Org;
use misp_ids::{ApiKey, InstId, Items, OrgId};
use std::alloc::AllocError;
use std::marker::Model;

/// The organisations that are known at an instance, its keys and its links.
///
/// A contract sees it as its fields.
#[derive(Drop)]
pub struct Admin {
    /// In ascending order of their identifiers.
    pub orgs: Items<Org>,
    /// In ascending order of the keys.
    pub keys: Items<HeldKey>,
    /// In ascending order of their names.
    pub links: Items<Link>,
}

impl Model for Admin {
    ghost use Rattle.misp_orgs.specs.Admin.{AdminFields, IsAdmin};

    ghost Value = { AdminFields };

    ghost view = { λ a. record { orgs = a.orgs; keys = a.keys; links = a.links } };

    ghost invariant = { λ a. IsAdmin (record { orgs = a.orgs; keys = a.keys; links = a.links }) };
}

fn org_of<'a>(orgs: &'a [Org], uuid: &OrgId) -> Option<&'a Org>
    requires { IsStrictlySortedBy by_uuid orgs.now }
    ensures { option_map (λ o. o.now) result ≡ org_of orgs.now uuid.now }
{
    match orgs.binary_search_by(|org| org.uuid.0.0.cmp(&uuid.0.0)) {
        Ok(place) => Some(&orgs[place]),
        Err(_) => None,
    }
}

fn record_of<'a>(keys: &'a [HeldKey], key: &ApiKey) -> Option<&'a KeyRecord>
    requires { IsStrictlySortedBy by_key keys.now }
    ensures { option_map (λ r. r.now) result ≡ record_of keys.now key.now }
{
    match keys.binary_search_by(|held| held.record().key.text().cmp(key.text())) {
        Ok(place) => Some(keys[place].record()),
        Err(_) => None,
    }
}

fn link_of<'a>(links: &'a [Link], name: &InstId) -> Option<&'a Link>
    requires { IsStrictlySortedBy by_name links.now }
    ensures { option_map (λ l. l.now) result ≡ link_of links.now name.now }
{
    match links.binary_search_by(|link| link.name.text().cmp(name.text())) {
        Ok(place) => Some(&links[place]),
        Err(_) => None,
    }
}

fn sort_orgs(orgs: &mut Vec<Org>) -> Result<(), AllocError>
    ensures { OnOk result (orgs.new.items ≡ sorted_by by_uuid orgs.old.items) }
{
    orgs.sort_by(|a, b| a.uuid.0.0.cmp(&b.uuid.0.0))
}

fn sort_keys(keys: &mut Vec<HeldKey>) -> Result<(), AllocError>
    ensures { OnOk result (keys.new.items ≡ sorted_by by_key keys.old.items) }
{
    keys.sort_by(|a, b| a.record().key.text().cmp(b.record().key.text()))
}

fn sort_links(links: &mut Vec<Link>) -> Result<(), AllocError>
    ensures { OnOk result (links.new.items ≡ sorted_by by_name links.old.items) }
{
    links.sort_by(|a, b| a.name.text().cmp(b.name.text()))
}

impl Admin {
    /// What is set up by these lists, which may be in any order.
    pub fn made(
        mut orgs: Vec<Org>,
        mut keys: Vec<HeldKey>,
        mut links: Vec<Link>,
    ) -> Result<Admin, AllocError>
        requires distinct { AreDistinct orgs.items keys.items links.items }
        ensures { IfOk result (λ admin. admin ≡ admin_of orgs.items keys.items links.items) }
    {
        sort_orgs(&mut orgs)?;
        sort_keys(&mut keys)?;
        sort_links(&mut links)?;
        Ok(Admin {
            orgs: Items::of(orgs),
            keys: Items::of(keys),
            links: Items::of(links),
        })
    }

    /// Who asks with a key.
    pub fn who(&self, key: &ApiKey) -> Option<Caller>
        ensures { result ≡ who_of self.now key.now }
    {
        match record_of(self.keys.as_slice(), key) {
            Some(record) if !record.revoked => Some(Caller {
                org: record.org,
                role: record.role,
                partner: record.partner,
                internal: record.internal,
            }),
            _ => None,
        }
    }

    /// The record of a key, revoked or not.
    pub fn record(&self, key: &ApiKey) -> Option<&KeyRecord>
        ensures { option_map (λ k. k.now) result ≡ record_of self.now.keys key.now }
    {
        record_of(self.keys.as_slice(), key)
    }

    /// The link of a name.
    pub fn link(&self, name: &InstId) -> Option<&Link>
        ensures { option_map (λ link. link.now) result ≡ link_of self.now.links name.now }
    {
        link_of(self.links.as_slice(), name)
    }

    /// The name of an organisation.
    pub fn name_of(&self, org: &OrgId) -> Option<&str>
        ensures name { option_map (λ name. name.now) result ≡ name_of self.now.orgs org.now }
        ensures short { IfSome result (λ name. length name.now ≤ name_limit) }
    {
        match org_of(self.orgs.as_slice(), org) {
            Some(org) => Some(org.name.as_str()),
            None => None,
        }
    }

    /// Whether the organisation is known.
    pub fn is_known(&self, org: &OrgId) -> bool
        ensures { result ≡ has_org self.now.orgs org.now }
    {
        org_of(self.orgs.as_slice(), org).is_some()
    }

    /// Whether an organisation has this name. Looks at each of them.
    pub fn is_named(&self, name: &str) -> bool
        ensures { result ≡ has_org_name self.now.orgs name.now }
    {
        self.orgs
            .as_slice()
            .iter()
            .any(|org| org.name.as_str() == name)
    }
}
