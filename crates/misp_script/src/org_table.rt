//! The list `org`.

ghost use Rattle.std.specs.Prelude.{◌≡◌, ◌≤◌, ◌&&◌, ◌==◌, [], ◌∷◌, ◌++◌, Ok, List, length, map, IfOk, IfErr, OnOk};
ghost use Rattle.misp_orgs.specs.Org.{name_limit, OrgFields, is_org_name};
ghost use Rattle.misp_script.specs.declared.fault.DescFault.TheVariants.{NoMemory};
ghost use Rattle.misp_script.specs.Known.{NamesOrgs};
ghost use Rattle.std.specs.List.{list_any};
ghost use Rattle.toml.specs.View.{view};
ghost use Rattle.misp_script.specs.Faults.{Gives};
ghost use Rattle.misp_script.specs.Seen.{Shows, body_of};
ghost use Rattle.misp_script.specs.Entries.{each};
ghost use Rattle.misp_script.specs.Tables.{org_named, has_name, has_number, org_name_at, uuid_at, org_at, next_org, known_org_at, known_org_or_none_at};

use crate::fault::{DescFault, DescNeed};
use crate::listed::Listed;
use misp_ids::{OrgId, Text, Uid};
use misp_orgs::{Org, is_org_name};
use std::alloc::Global;
use std::collections::{BTreeMap, BTreeSet};
use std::marker::Model;
use toml::Value;

/// Organisations in the order in which they are listed, and what finds them.
///
/// A contract sees the list.
#[derive(Drop)]
pub(crate) struct OrgList {
    list: Vec<Org>,
    names: BTreeMap<String, OrgId>,
    numbers: BTreeSet<u128>,
}

impl Model for OrgList {
    ghost use Rattle.std.specs.Prelude.{List};
    ghost use Rattle.misp_orgs.specs.Org.{OrgFields};
    ghost use Rattle.misp_script.specs.Known.{KnowsOrgs};

    ghost Value = { List OrgFields };

    ghost view = { λ o. o.list.items };

    ghost invariant = { λ o. KnowsOrgs o.list.items o.names o.numbers };
}

// A name stands for the first that has it.
fn put_name(alloc: Global, names: &mut BTreeMap<String, OrgId>, next: &Org) -> Result<(), DescFault>
    ensures memory { IfErr result (λ fault. fault ≡ NoMemory) }
    ensures more { OnOk result ((orgs : List OrgFields) →
        NamesOrgs orgs names.old → NamesOrgs (orgs ++ next.now ∷ []) names.new) }
{
    let name = next.name.as_str();
    if names.contains_key(name) {
        return Ok(());
    }
    names.insert(String::from_str(alloc, name)?, next.uuid)?;
    Ok(())
}

impl OrgList {
    fn new(alloc: Global) -> OrgList
        ensures { result ≡ [] }
    {
        OrgList {
            list: Vec::new(alloc),
            names: BTreeMap::new(alloc),
            numbers: BTreeSet::new(alloc),
        }
    }

    pub(crate) fn as_slice(&self) -> &[Org]
        ensures { result.now ≡ self.now }
    {
        self.list.as_slice()
    }

    /// The organisation of a name.
    pub(crate) fn named(&self, name: &str) -> Option<OrgId>
        ensures { result ≡ org_named self.now name.now }
    {
        self.names.get(name).copied()
    }

    fn has_name(&self, name: &str) -> bool
        ensures { result ≡ has_name self.now name.now }
    {
        self.names.contains_key(name)
    }

    fn has_number(&self, number: u128) -> bool
        ensures { result ≡ has_number self.now number }
    {
        self.numbers.contains(&number)
    }

    // With another at the end.
    fn with(self, alloc: Global, next: Org) -> Result<OrgList, DescFault>
        ensures { Gives result (Ok (self ++ next ∷ [])) }
    {
        let OrgList {
            mut list,
            mut names,
            mut numbers,
        } = self;
        put_name(alloc, &mut names, &next)?;
        numbers.insert(next.uuid.0.0)?;
        list.push(next)?;
        Ok(OrgList {
            list,
            names,
            numbers,
        })
    }
}

fn org_name<'a>(it: &Listed<'a>) -> Result<&'a str, DescFault>
    ensures name { Shows (λ name. name.now) result (org_name_at (body_of it.now)) }
    ensures short { IfOk result (λ name. length name.now ≤ name_limit) }
{
    let text = it.text("name")?;
    if is_org_name(text) {
        return Ok(text);
    }
    it.refused("name", DescNeed::Name)
}

fn uuid(it: &Listed<'_>) -> Result<Uid, DescFault>
    ensures { Gives result (uuid_at (body_of it.now)) }
{
    let text = it.text("uuid")?;
    it.said("uuid", DescNeed::Uuid, Uid::read(text))
}

/// The organisation that a member names.
pub(crate) fn known_org(orgs: &OrgList, it: &Listed<'_>, name: &str) -> Result<OrgId, DescFault>
    ensures { Gives result (known_org_at orgs.now (body_of it.now) name.now) }
{
    let text = it.text(name)?;
    it.said(name, DescNeed::Known, orgs.named(text))
}

/// The same, where there is the member.
pub(crate) fn known_org_or_none(
    orgs: &OrgList,
    it: &Listed<'_>,
    name: &str,
) -> Result<Option<OrgId>, DescFault>
    ensures { Gives result (known_org_or_none_at orgs.now (body_of it.now) name.now) }
{
    if !it.has(name) {
        return Ok(None);
    }
    let org = known_org(orgs, it, name)?;
    Ok(Some(org))
}

/// An organisation, after those that stand before it in the list.
#[tactic(auto, unfolding(crate::specs::Tables::org_at))]
fn org(before: &OrgList, it: &Listed<'_>) -> Result<Org, DescFault>
    ensures { Gives result (org_at before.now (body_of it.now)) }
{
    let name = org_name(it)?;
    it.refused_if(before.has_name(name), "name", DescNeed::Distinct)?;
    let uuid = uuid(it)?;
    it.refused_if(before.has_number(uuid.0), "uuid", DescNeed::Distinct)?;
    it.no_other(&["name", "uuid"])?;
    Ok(Org {
        uuid: OrgId(uuid),
        name: Text::of(String::from_str(it.alloc, name)?),
    })
}

/// The organisations of the list.
pub(crate) fn orgs(alloc: Global, list: &[Value]) -> Result<OrgList, DescFault>
    ensures { Gives result (each next_org 0 [] (map view list.now)) }
{
    let mut orgs = OrgList::new(alloc);
    for (index, value) in list.iter().enumerate() {
        let it = Listed {
            alloc,
            list: "org",
            index,
            value,
        };
        let next = org(&orgs, &it)?;
        orgs = orgs.with(alloc, next)?;
    }
    Ok(orgs)
}
