//! Rows in packages.

ghost use Rattle.std.specs.Prelude.{◌≡◌, ◌<◌, ◌∷◌, true, length, map, IfOk, OnOk};
ghost use Rattle.std.specs.List.{AllByRecursion, list_all};
ghost use Rattle.misp_elem.specs.Row.{AreRows};
ghost use Rattle.misp_history.specs.Merging.{cut};
ghost use Rattle.misp_package.specs.Packing.{AreNumbered, IsPart, is_whole, on_wire, rows_in};

use crate::wire::on_wire;
use misp_elem::Row;
use misp_ids::{EventId, Items, NoMemory, Way};
use misp_model::{Package, PackageFields};
use std::alloc::Global;

/// The most rows that a package has beside that of the event itself.
const MOST_OTHERS: usize = 64;

/// The list in parts that each go into a package. There is one part at least.
pub(crate) fn parts_of<'a, 'b>(
    alloc: Global,
    others: &'b [&'a Row],
) -> Result<Vec<&'b [&'a Row]>, NoMemory>
    ensures { IfOk result (λ parts. map (λ part. part.now) parts.items ≡ cut 64 others.now) }
{
    let mut parts = Vec::new(alloc);
    let mut from = 0;
    while others.len() - from > MOST_OTHERS {
        let part = &others[from..from + MOST_OTHERS];
        parts.push(part)?;
        from += MOST_OTHERS;
    }
    let last = &others[from..];
    parts.push(last)?;
    Ok(parts)
}

// The event's own row and others as they are on the wire of this way.
fn all_on_wire(alloc: Global, way: Way, own: &Row, others: &[&Row]) -> Result<Vec<Row>, NoMemory>
    requires { list_all is_whole (own.now ∷ map (λ r. r.now) others.now) ≡ true }
    ensures wired { IfOk result (λ rows. rows.items
        ≡ map (on_wire way) (own.now ∷ map (λ r. r.now) others.now)) }
    ensures rows { OnOk result
        (AreRows (map (on_wire way) (own.now ∷ map (λ r. r.now) others.now))) }
{
    let mut rows = Vec::with_capacity(alloc, others.len().saturating_add(1))?;
    rows.push(on_wire(alloc, way, own)?)?;
    for row in others {
        rows.push(on_wire(alloc, way, row)?)?;
    }
    Ok(rows)
}

// The package of this number, with the event's own row and these others.
fn package(
    alloc: Global,
    way: Way,
    event: &EventId,
    own: &Row,
    others: &[&Row],
    part: u32,
    parts: u32,
) -> Result<Package, NoMemory>
    requires part { IsPart event.now (own.now ∷ map (λ r. r.now) others.now) }
    requires number { part < parts }
    ensures { IfOk result (λ p. p ≡ record {
      event = event.now;
      part = part;
      parts = parts;
      rows = map (on_wire way) (own.now ∷ map (λ r. r.now) others.now);
    }) }
{
    let _number = event.0.0;
    let rows = all_on_wire(alloc, way, own, others)?;
    Ok(Package::of(PackageFields {
        event: *event,
        part,
        parts,
        rows: Items::of(rows),
    }))
}

/// A package for each of these parts, in which the event's own row comes first.
pub(crate) fn packed(
    alloc: Global,
    way: Way,
    event: &EventId,
    own: &Row,
    parts: &[&[&Row]],
) -> Result<Vec<Package>, NoMemory>
    requires { AllByRecursion (λ part. IsPart event.now (own.now ∷ part)) (rows_in parts.now) }
    ensures packed { IfOk result (λ packages. map (λ p. p.rows) packages.items
        ≡ map (λ part. map (on_wire way) (own.now ∷ part)) (rows_in parts.now)) }
    ensures numbered { IfOk result (λ packages. AreNumbered event.now packages.items) }
{
    let Ok(count) = u32::try_from(parts.len()) else {
        return Err(NoMemory);
    };
    let mut packages = Vec::new(alloc);
    let mut number = 0;
    for part in parts {
        packages.push(package(alloc, way, event, own, part, number, count)?)?;
        number += 1;
    }
    Ok(packages)
}
