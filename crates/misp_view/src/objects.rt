//! The objects that show.

ghost use Rattle.std.specs.Prelude.{◌≡◌, map, IfOk};
ghost use Rattle.misp_view.specs.Form.{object_in};
ghost use Rattle.misp_view.specs.Parts.{Rises};

use crate::attributes::attributes;
use crate::parts::part;
use misp_copies::{StatementsByTarget, copies_of, copy};
use misp_elem::{Row, VisibleObject};
use misp_ids::{Items, NoMemory};
use std::alloc::Global;

// An object, with what is in it of the attributes and the references, which are by objects.
fn object(
    alloc: Global,
    row: &Row,
    inner: &[&Row],
    references: &[&Row],
    proposals: &StatementsByTarget,
    sightings: &StatementsByTarget,
) -> Result<VisibleObject, NoMemory>
    ensures { Rises inner.now → Rises references.now → IfOk result (λ object. object
        ≡ object_in (map (λ r. r.now) inner.now) (map (λ r. r.now) references.now)
        proposals.now sightings.now row.now) }
{
    let attributes = attributes(alloc, part(inner, row), proposals, sightings)?;
    let references = copies_of(alloc, part(references, row))?;
    Ok(VisibleObject {
        row: copy(row)?,
        attributes,
        references,
    })
}

/// These objects, each with what is in it of the attributes and the references, which are by
/// objects.
pub(crate) fn objects(
    alloc: Global,
    list: &[&Row],
    inner: &[&Row],
    references: &[&Row],
    proposals: &StatementsByTarget,
    sightings: &StatementsByTarget,
) -> Result<Items<VisibleObject>, NoMemory>
    ensures { Rises inner.now → Rises references.now → IfOk result (λ items. items
        ≡ map (object_in (map (λ r. r.now) inner.now) (map (λ r. r.now) references.now)
        proposals.now sightings.now) (map (λ r. r.now) list.now)) }
{
    let mut items = Vec::with_capacity(alloc, list.len())?;
    for row in list {
        items.push(object(alloc, row, inner, references, proposals, sightings)?)?;
    }
    Ok(Items::of(items))
}
