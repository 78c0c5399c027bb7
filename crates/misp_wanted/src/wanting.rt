//! Which rows of a package an owner wants.

ghost use Rattle.std.specs.Prelude.{◌≡◌, List, filter, map, IfOk};
ghost use Rattle.std.specs.List.Sorted.{IsStrictlySortedBy};
ghost use Rattle.misp_elem.specs.declared.row.RowFields.{RowFields};
ghost use Rattle.misp_ids.specs.Same.{Inst};
ghost use Rattle.misp_ids.specs.declared.uid.EventId.{EventId as Event};
ghost use Rattle.misp_ids.specs.declared.uid.OrgId.{OrgId as Owner};
ghost use Rattle.misp_package.specs.Landing.{IsLanding};
ghost use Rattle.misp_package.specs.Packing.{key_order};
ghost use Rattle.misp_package.specs.Stamps.{is_as_new, stamp_at};
ghost use Rattle.misp_wanted.specs.Wanting.{is_wanted_at, is_wanted_by, wanted_keys};

use crate::held::{has_as_new, state};
use misp_copies::{CopyState, takes};
use misp_elem::{Key, Row};
use misp_ids::{EventId, InstId, NoMemory, OrgId};
use misp_manifest::KeyStamp;
use misp_package::{Landing, Stamps};
use std::alloc::Global;

// Whether there is a stamp at the key, as new as this one.
#[tactic(auto, using(misp_package::proofs::StampLemmas::found_by_order))]
fn is_as_new(stamps: &Stamps, told: &KeyStamp) -> bool
    ensures { result ≡ is_as_new (stamp_at stamps.now told.now.key) told.now.stamp }
{
    match stamps.get(&told.key) {
        Some(stamp) => told.stamp.get() <= stamp.get(),
        None => false,
    }
}

// Whether a row of this key and stamp is wanted.
#[tactic(auto, unfolding(crate::specs::Wanting::is_wanted_by))]
fn is_wanted_by(landing: &Landing, told: &KeyStamp) -> bool
    ensures { result ≡ is_wanted_by landing.now told.now }
{
    takes(landing.state, &told.key, &landing.here) && !is_as_new(&landing.newest, told)
}

// The keys of those that are wanted.
fn keys_wanted_by(alloc: Global, landing: &Landing, keys: &[KeyStamp]) -> Result<Vec<Key>, NoMemory>
    ensures { IfOk result (λ wanted. wanted.items
        ≡ map (λ k. k.key) (filter (is_wanted_by landing.now) keys.now)) }
{
    let mut wanted = Vec::new(alloc);
    for told in keys {
        if is_wanted_by(landing, told) {
            wanted.push(told.key)?;
        }
    }
    Ok(wanted)
}

/// The keys of a package of which the owner wants the rows, in their order, by what it has.
pub fn wanted_over(
    alloc: Global,
    landing: &Landing,
    keys: &[KeyStamp],
) -> Result<Vec<Key>, NoMemory>
    ensures { IfOk result (λ wanted. (i : Inst) (w : Owner) (e : Event)
        (held : List RowFields) → IsLanding landing.now i w e held →
        wanted.items ≡ wanted_keys i held w e keys.now) }
{
    keys_wanted_by(alloc, landing, keys)
}

// Whether a row of this key and stamp is wanted, where the owner's copy has this state.
#[tactic(auto, unfolding(crate::specs::Wanting::is_wanted_at))]
fn is_wanted_at(
    held: &[Row],
    owner: &OrgId,
    here: &InstId,
    state: CopyState,
    told: &KeyStamp,
) -> bool
    ensures { IsStrictlySortedBy key_order held.now →
        result ≡ is_wanted_at here.now state held.now owner.now told.now }
{
    takes(state, &told.key, here) && !has_as_new(held, owner, told)
}

// The keys of those that are wanted then.
fn keys_wanted_at(
    alloc: Global,
    held: &[Row],
    owner: &OrgId,
    here: &InstId,
    state: CopyState,
    keys: &[KeyStamp],
) -> Result<Vec<Key>, NoMemory>
    ensures { IsStrictlySortedBy key_order held.now → IfOk result (λ wanted. wanted.items
        ≡ map (λ k. k.key) (filter (is_wanted_at here.now state held.now owner.now) keys.now)) }
{
    let mut wanted = Vec::new(alloc);
    for told in keys {
        if is_wanted_at(held, owner, here, state, told) {
            wanted.push(told.key)?;
        }
    }
    Ok(wanted)
}

/// The keys of a package of an event of which the owner wants the rows, in their order, where these
/// rows of the event are held and ascend by their keys. A package of which none is wanted brings
/// nothing. No landing is made for it.
pub fn wanted(
    alloc: Global,
    event: &EventId,
    keys: &[KeyStamp],
    held: &[Row],
    owner: &OrgId,
    here: &InstId,
) -> Result<Vec<Key>, NoMemory>
    ensures { IsStrictlySortedBy key_order held.now → IfOk result (λ wanted. wanted.items
        ≡ wanted_keys here.now held.now owner.now event.now keys.now) }
{
    let state = state(held, owner, event);
    keys_wanted_at(alloc, held, owner, here, state, keys)
}
