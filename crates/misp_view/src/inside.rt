//! What is in one copy of an event.

ghost use Rattle.std.specs.Prelude.{◌≡◌, map, IfOk};
ghost use Rattle.misp_view.specs.Inside.{in_list, IsList, IsGrouped, IsInside};

use crate::attributes::attributes;
use crate::kinds::{Kind, collect};
use crate::objects::objects;
use crate::order::in_order;
use crate::parts::by_object;
use misp_copies::{CopyView, ElementSet, StatementsByTarget, are_linked, seen};
use misp_elem::{Row, VisibleAttribute, VisibleObject};
use misp_ids::{Items, NoMemory};
use std::alloc::Global;

/// The attributes outside objects, and the objects.
#[derive(Drop)]
pub(crate) struct Inside {
    pub(crate) attributes: Items<VisibleAttribute>,
    pub(crate) objects: Items<VisibleObject>,
}

// The rows that show and are of this kind, in their order.
#[tactic(auto, unfolding(crate::specs::Inside::in_list))]
fn in_list<'a>(
    alloc: Global,
    kind: Kind,
    copy_view: &CopyView,
    seen: &ElementSet,
    rows: &'a [Row],
) -> Result<Vec<&'a Row>, NoMemory>
    ensures { IfOk result (λ list.
        IsList list.items (in_list kind copy_view.now seen.now rows.now)) }
{
    in_order(collect(alloc, kind, copy_view, seen, rows)?)
}

// The same by objects.
fn grouped<'a>(
    alloc: Global,
    kind: Kind,
    copy_view: &CopyView,
    seen: &ElementSet,
    rows: &'a [Row],
) -> Result<Vec<&'a Row>, NoMemory>
    ensures { IfOk result (λ list.
        IsGrouped list.items (in_list kind copy_view.now seen.now rows.now)) }
{
    let list = in_list(alloc, kind, copy_view, seen, rows)?;
    let list = by_object(list)?;
    Ok(list)
}

/// What is in the copy, each with those of the proposals and sightings that are about it.
pub(crate) fn inside_of(
    alloc: Global,
    rows: &[Row],
    copy_view: &CopyView,
    proposals: &StatementsByTarget,
    sightings: &StatementsByTarget,
) -> Result<Inside, NoMemory>
    ensures { IfOk result (λ inside.
        IsInside inside copy_view.now proposals.now sightings.now rows.now) }
{
    let seen = seen(alloc, rows, copy_view, are_linked(rows))?;
    let plain = in_list(alloc, Kind::Attribute, copy_view, &seen, rows)?;
    let list = in_list(alloc, Kind::Object, copy_view, &seen, rows)?;
    let inner = grouped(alloc, Kind::Inner, copy_view, &seen, rows)?;
    let references = grouped(alloc, Kind::Reference, copy_view, &seen, rows)?;
    let attributes = attributes(alloc, plain.as_slice(), proposals, sightings)?;
    let objects = objects(
        alloc,
        list.as_slice(),
        inner.as_slice(),
        references.as_slice(),
        proposals,
        sightings,
    )?;
    Ok(Inside {
        attributes,
        objects,
    })
}
