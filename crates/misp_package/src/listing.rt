//! The keys of packages, and the stamps of their rows.

ghost use Rattle.std.specs.Prelude.{◌≡◌, ◌≤◌, ◌∷◌, length, map, IfOk, OnOk};
ghost use Rattle.std.specs.List.{AllByRecursion};
ghost use Rattle.misp_elem.specs.Row.{AreRows, IsRow};
ghost use Rattle.misp_manifest.specs.Manifest.{key_stamp, said_of};
ghost use Rattle.misp_package.specs.Packing.{IsPart, rows_in};

use misp_elem::Row;
use misp_ids::{EventId, Items, NoMemory};
use misp_manifest::{KeyStamp, ManifestEvent, ManifestFields};
use std::alloc::Global;

// The key of a row, and its stamp.
fn key_stamp(row: &Row) -> KeyStamp
    ensures value { result ≡ key_stamp row.now }
    ensures row { IsRow row.now }
{
    KeyStamp {
        key: row.key,
        stamp: row.stamp,
    }
}

// Those of the event's own row and of others.
fn keys_of(alloc: Global, own: &Row, others: &[&Row]) -> Result<Items<KeyStamp>, NoMemory>
    ensures keys { IfOk result (λ keys. keys
        ≡ map key_stamp (own.now ∷ map (λ r. r.now) others.now)) }
    ensures rows { OnOk result (AreRows (own.now ∷ map (λ r. r.now) others.now)) }
{
    let mut keys = Vec::with_capacity(alloc, others.len().saturating_add(1))?;
    keys.push(key_stamp(own))?;
    for row in others {
        keys.push(key_stamp(row))?;
    }
    Ok(Items::of(keys))
}

// Those of each of these parts, in which the event's own row comes first.
fn keys_of_parts(
    alloc: Global,
    own: &Row,
    parts: &[&[&Row]],
) -> Result<Items<Items<KeyStamp>>, NoMemory>
    ensures keys { IfOk result (λ keys. keys
        ≡ map (λ part. map key_stamp (own.now ∷ part)) (rows_in parts.now)) }
    ensures rows { OnOk result
        (AllByRecursion (λ part. AreRows (own.now ∷ part)) (rows_in parts.now)) }
{
    let mut keys = Vec::with_capacity(alloc, parts.len())?;
    for part in parts {
        keys.push(keys_of(alloc, own, part)?)?;
    }
    Ok(Items::of(keys))
}

/// What a manifest says of the event, where each of these parts goes into a package in which the
/// event's own row comes first.
pub(crate) fn listed(
    alloc: Global,
    event: &EventId,
    own: &Row,
    parts: &[&[&Row]],
) -> Result<ManifestEvent, NoMemory>
    requires fit { AllByRecursion (λ part. IsPart event.now (own.now ∷ part)) (rows_in parts.now) }
    requires some { 1 ≤ length parts.now }
    ensures { IfOk result (λ m. m
        ≡ said_of event.now (map (λ part. own.now ∷ part) (rows_in parts.now))) }
{
    let _number = event.0.0;
    let Ok(_count) = u32::try_from(parts.len()) else {
        return Err(NoMemory);
    };
    let parts = keys_of_parts(alloc, own, parts)?;
    Ok(ManifestEvent::of(ManifestFields {
        event: *event,
        parts,
    }))
}
