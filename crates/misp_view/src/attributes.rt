//! The attributes that show.

ghost use Rattle.std.specs.Prelude.{◌≡◌, map, IfOk};
ghost use Rattle.misp_view.specs.Form.{attribute_in};

use misp_copies::{StatementsByTarget, copy};
use misp_elem::{Row, VisibleAttribute};
use misp_ids::{Items, NoMemory};
use std::alloc::Global;

// An attribute, with those of the proposals and sightings that are about it.
#[tactic(auto, unfolding(crate::specs::Form::attribute_in))]
fn attribute(
    alloc: Global,
    row: &Row,
    proposals: &StatementsByTarget,
    sightings: &StatementsByTarget,
) -> Result<VisibleAttribute, NoMemory>
    ensures { IfOk result (λ attribute. attribute
        ≡ attribute_in proposals.now sightings.now row.now) }
{
    let proposals = proposals.about(alloc, &row.key)?;
    let sightings = sightings.about(alloc, &row.key)?;
    Ok(VisibleAttribute {
        row: copy(row)?,
        proposals,
        sightings,
    })
}

/// These attributes, each with those of the proposals and sightings that are about it.
pub(crate) fn attributes(
    alloc: Global,
    list: &[&Row],
    proposals: &StatementsByTarget,
    sightings: &StatementsByTarget,
) -> Result<Items<VisibleAttribute>, NoMemory>
    ensures { IfOk result (λ items. items
        ≡ map (attribute_in proposals.now sightings.now) (map (λ r. r.now) list.now)) }
{
    let mut items = Vec::with_capacity(alloc, list.len())?;
    for row in list {
        items.push(attribute(alloc, row, proposals, sightings)?)?;
    }
    Ok(Items::of(items))
}
