//! What lines may name.

ghost use Rattle.std.specs.Prelude.{◌≡◌, ◌<◌, List, [], ◌∷◌, ◌++◌, map, length, IfOk, IfSome, OnOk};
ghost use Rattle.std.specs.List.Sorted.{IsStrictlySortedBy};
ghost use Rattle.misp_script.specs.Directory.{Roster as RosterData, HasPlaces, is_among, knows, place_of, roster_names, roster_of};
ghost use Rattle.misp_script.specs.Kept.{by_number};

use crate::description::Entry;
use misp_ids::{InstId, NoMemory, OrgId};
use misp_orgs::Admin;
use std::alloc::Global;
use std::collections::BTreeMap;
use std::marker::Model;

/// An instance, and the organisations known there.
///
/// A contract sees its name and their identifiers.
#[derive(Drop)]
pub(crate) struct Roster {
    name: InstId,
    /// In ascending order.
    orgs: Vec<OrgId>,
}

impl Model for Roster {
    ghost use Rattle.misp_script.specs.Directory.{Roster};
    ghost use Rattle.misp_script.specs.Kept.{IsRoster};

    ghost Value = { Roster };

    ghost view = { λ s. record { name = s.name; orgs = s.orgs.items } };

    ghost invariant = { λ s. IsRoster (record { name = s.name; orgs = s.orgs.items }) };
}

fn is_among(orgs: &[OrgId], org: &OrgId) -> bool
    requires { IsStrictlySortedBy by_number orgs.now }
    ensures { result ≡ is_among orgs.now org.now }
{
    orgs.binary_search_by(|known| known.0.0.cmp(&org.0.0))
        .is_ok()
}

fn orgs_of(alloc: Global, admin: &Admin) -> Result<Vec<OrgId>, NoMemory>
    ensures orgs { IfOk result (λ orgs. orgs.items ≡ map (λ org. org.uuid) admin.now.orgs) }
    ensures ascend { IfOk result (λ orgs. IsStrictlySortedBy by_number orgs.items) }
{
    let mut orgs = Vec::new(alloc);
    for org in admin.orgs.as_slice() {
        orgs.push(org.uuid)?;
    }
    Ok(orgs)
}

impl Roster {
    /// What a directory has of an instance.
    pub(crate) fn of(alloc: Global, entry: &Entry) -> Result<Roster, NoMemory>
        ensures { IfOk result (λ roster. roster ≡ roster_of entry.now) }
    {
        Ok(Roster {
            name: entry.name,
            orgs: orgs_of(alloc, &entry.admin)?,
        })
    }

    fn knows(&self, org: &OrgId) -> bool
        ensures { result ≡ is_among self.now.orgs org.now }
    {
        is_among(self.orgs.as_slice(), org)
    }
}

/// The instances that lines may name, and what finds them.
///
/// A contract sees the list of the instances, each with the organisations known there.
#[derive(Drop)]
pub struct Directory {
    rosters: Vec<Roster>,
    places: BTreeMap<Vec<u8>, usize>,
}

impl Model for Directory {
    ghost use Rattle.std.specs.Prelude.{List};
    ghost use Rattle.misp_script.specs.Directory.{Roster, HasPlaces};

    ghost Value = { List Roster };

    ghost view = { λ d. d.rosters.items };

    ghost invariant = { λ d. HasPlaces d.rosters.items d.places };
}

// A name stands for the first that has it.
fn put_place(
    alloc: Global,
    places: &mut BTreeMap<Vec<u8>, usize>,
    at: usize,
    next: &Roster,
) -> Result<(), NoMemory>
    ensures { OnOk result ((rosters : List RosterData) → length rosters ≡ at →
        HasPlaces rosters places.old → HasPlaces (rosters ++ next.now ∷ []) places.new) }
{
    let name = next.name.text().as_bytes();
    if places.contains_key(name) {
        return Ok(());
    }
    places.insert(name.to_vec(alloc)?, at)?;
    Ok(())
}

impl Directory {
    pub(crate) fn new(alloc: Global) -> Directory
        ensures { result ≡ [] }
    {
        Directory {
            rosters: Vec::new(alloc),
            places: BTreeMap::new(alloc),
        }
    }

    // With another at the end.
    pub(crate) fn with(self, alloc: Global, next: Roster) -> Result<Directory, NoMemory>
        ensures { IfOk result (λ directory. directory ≡ self ++ next ∷ []) }
    {
        let Directory {
            mut rosters,
            mut places,
        } = self;
        put_place(alloc, &mut places, rosters.len(), &next)?;
        rosters.push(next)?;
        Ok(Directory { rosters, places })
    }

    /// The place of the first instance of a name, from 0.
    pub fn place_of(&self, text: &[u8]) -> Option<usize>
        ensures place { result ≡ place_of (roster_names self.now) text.now }
        ensures inside { IfSome result (λ at. at < length self.now) }
    {
        self.places.get(text).copied()
    }

    /// Whether an organisation is known at the instance of a place.
    pub fn knows(&self, at: usize, org: &OrgId) -> bool
        ensures { result ≡ knows self.now at org.now }
    {
        match self.rosters.get(at) {
            Some(roster) => roster.knows(org),
            None => false,
        }
    }
}
