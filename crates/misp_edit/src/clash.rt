//! Uuids that a body brings twice, or that the caller's copy has.

ghost use Rattle.std.specs.Prelude.{◌≡◌, ◌↔◌, ℕ, true, eqb, ◌++◌, map, IfOk, OnOk, ◌||◌};
ghost use Rattle.std.specs.List.{IsDistinct, filter_map};
ghost use Rattle.std.specs.Ordering.{nat_cmp};
ghost use Rattle.std.specs.BTreeSet.{contains};
ghost use Rattle.misp_lists.specs.Order.{in_order};
ghost use Rattle.misp_edit.specs.Adding.{is_read_before};
ghost use Rattle.misp_edit.specs.Targets.{target_in};
ghost use Rattle.misp_copies.specs.Uuids.{has_uuid, is_used};
ghost use Rattle.misp_edit.specs.Uuids.{part_uuid, reference_uuid, numbered_in, clash_in, is_among};

use crate::targets::Targets;
use misp_copies::own_uuid;
use misp_elem::{Draft, ReferenceDraft, Row, Submission, uuid_at};
use misp_ids::{EventId, NoMemory, OrgId};
use std::alloc::Global;
use std::collections::BTreeSet;

// With the uuid in the row, if there is one.
fn note(used: &mut Vec<u128>, row: &Row, owner: OrgId, event: EventId) -> Result<(), NoMemory>
    ensures { OnOk result ((u : ℕ) → is_among used.new.items u
        ≡ (is_among used.old.items u || has_uuid owner event u row.now)) }
{
    if let Some(uuid) = own_uuid(row, owner, event) {
        used.push(uuid)?;
    }
    Ok(())
}

// The event's own uuid, and those that the owner's copy has.
#[tactic(auto, unfolding(misp_copies::specs::Uuids::is_used))]
fn used_uuids(
    alloc: Global,
    rows: &[Row],
    owner: OrgId,
    event: EventId,
) -> Result<Vec<u128>, NoMemory>
    ensures { IfOk result (λ used. (u : ℕ) →
        is_among used.items u ≡ is_used rows.now owner event u) }
{
    let mut used = Vec::new(alloc);
    used.push(event.0.0)?;
    for row in rows {
        note(&mut used, row, owner, event)?;
    }
    Ok(used)
}

// The uuids of the parts.
#[tactic(auto, unfolding(crate::specs::Uuids::part_uuid))]
fn part_uuids(alloc: Global, parts: &[Draft], event: EventId) -> Result<Vec<(u32, u128)>, NoMemory>
    ensures { IfOk result (λ uuids. uuids.items ≡ map (part_uuid event) parts.now) }
{
    let uuids = parts
        .iter()
        .map(|draft| (draft.number, uuid_at(event, draft.place)))
        .collect(alloc)?;
    Ok(uuids)
}

// The uuid of a reference, if it has a target.
#[tactic(auto, unfolding(crate::specs::Uuids::reference_uuid))]
fn reference_uuid(reference: &ReferenceDraft, targets: &Targets) -> Option<(u32, u128)>
    ensures { result ≡ reference_uuid (target_in targets.now) reference.now }
{
    if targets.contains_key(&reference.referenced.0.0) {
        Some((reference.number, reference.uuid.0.0))
    } else {
        None
    }
}

// With those of the references that have a target.
fn with_references(
    mut uuids: Vec<(u32, u128)>,
    references: &[ReferenceDraft],
    targets: &Targets,
) -> Result<Vec<(u32, u128)>, NoMemory>
    ensures { IfOk result (λ all. all.items
        ≡ uuids.items ++ filter_map (reference_uuid (target_in targets.now)) references.now) }
{
    for reference in references {
        if let Some(uuid) = reference_uuid(reference, targets) {
            uuids.push(uuid)?;
        }
    }
    Ok(uuids)
}

// The uuids that a body brings, in reading order.
#[tactic(auto, unfolding(crate::specs::Uuids::numbered_in))]
fn read_uuids(
    alloc: Global,
    submission: &Submission,
    targets: &Targets,
) -> Result<Vec<(u32, u128)>, NoMemory>
    ensures { IfOk result (λ uuids. uuids.items
        ≡ in_order is_read_before (numbered_in (target_in targets.now) submission.now)) }
{
    let uuids = part_uuids(alloc, submission.parts.as_slice(), submission.event)?;
    let mut uuids = with_references(uuids, submission.references.as_slice(), targets)?;
    uuids.sort_by_key(|pair| pair.0)?;
    Ok(uuids)
}

// The used uuids, and those of the body.
fn with_body(alloc: Global, used: &[u128], uuids: &[(u32, u128)]) -> Result<Vec<u128>, NoMemory>
    ensures { IfOk result (λ all. all.items ≡ used.now ++ map (λ p. p.1) uuids.now) }
{
    let all = used
        .iter()
        .copied()
        .chain(uuids.iter().map(|pair| pair.1))
        .collect(alloc)?;
    Ok(all)
}

// Whether no uuid stands twice.
fn all_differ(mut uuids: Vec<u128>) -> bool
    ensures { (result ≡ true) ↔ IsDistinct eqb uuids.items }
{
    uuids.sort_unstable();
    uuids.is_sorted_by(|a, b| a < b)
}

// The uuids as a set.
fn set_of(alloc: Global, uuids: &[u128]) -> Result<BTreeSet<u128>, NoMemory>
    ensures { IfOk result (λ set. (u : ℕ) → contains nat_cmp set u ≡ is_among uuids.now u) }
{
    let mut set = BTreeSet::new(alloc);
    for uuid in uuids {
        set.insert(*uuid)?;
    }
    Ok(set)
}

// The first of these uuids that is used, or that stands before.
#[tactic(auto, unfolding(crate::specs::Uuids::clash_in))]
fn first_used(mut used: BTreeSet<u128>, uuids: &[(u32, u128)]) -> Result<Option<u128>, NoMemory>
    ensures { IfOk result (λ clash.
        clash ≡ clash_in (contains nat_cmp used) (map (λ p. p.1) uuids.now)) }
{
    for (_, uuid) in uuids {
        if !used.insert(*uuid)? {
            return Ok(Some(*uuid));
        }
    }
    Ok(None)
}

// The same, where a walk in reading order is taken only if some uuid stands twice.
fn first_among(
    alloc: Global,
    used: &[u128],
    uuids: &[(u32, u128)],
) -> Result<Option<u128>, NoMemory>
    ensures { IfOk result (λ clash.
        clash ≡ clash_in (is_among used.now) (map (λ p. p.1) uuids.now)) }
{
    if all_differ(with_body(alloc, used, uuids)?) {
        return Ok(None);
    }
    first_used(set_of(alloc, used)?, uuids)
}

// The first uuid of the body that is used, or that stands before.
pub(crate) fn first_clash(
    alloc: Global,
    submission: &Submission,
    targets: &Targets,
    rows: &[Row],
    owner: OrgId,
) -> Result<Option<u128>, NoMemory>
    ensures { IfOk result (λ clash. clash
        ≡ clash_in (is_used rows.now owner submission.now.event) (map (λ p. p.1)
        (in_order is_read_before (numbered_in (target_in targets.now) submission.now)))) }
{
    let used = used_uuids(alloc, rows, owner, submission.event)?;
    let uuids = read_uuids(alloc, submission, targets)?;
    first_among(alloc, used.as_slice(), uuids.as_slice())
}
