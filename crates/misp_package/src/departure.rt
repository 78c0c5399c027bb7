//! What a synchronisation carries of an event.

ghost use Rattle.std.specs.Prelude.{◌≡◌, true, length, map, IfOk, IfSome};
ghost use Rattle.std.specs.List.{list_all};
ghost use Rattle.misp_elem.specs.Parents.{event_of};
ghost use Rattle.misp_ids.specs.Same.{same_event};
ghost use Rattle.misp_manifest.specs.Manifest.{manifest_event};
ghost use Rattle.misp_model.specs.View.{IsTable};
ghost use Rattle.misp_history.specs.Merging.{arriving_rows, packages};
ghost use Rattle.misp_package.specs.Packing.{AreNumbered};
ghost use Rattle.misp_package.specs.Passing.{route_of};

use crate::fitting::packable;
use crate::listing::listed;
use crate::packing::{packed, parts_of};
use crate::passing::passing;
use crate::via::Via;
use misp_elem::Row;
use misp_ids::{EventId, NoMemory};
use misp_manifest::ManifestEvent;
use misp_model::Package;
use std::alloc::Global;

/// The packages in which a synchronisation carries what passes of an event, where these are all of
/// its rows at the sender. There is none where nothing passes. More of them than a `u32` counts are
/// not made: the answer is `NoMemory`.
pub fn outgoing(
    alloc: Global,
    rows: &[Row],
    event: &EventId,
    via: &Via,
) -> Result<Vec<Package>, NoMemory>
    ensures packed { IsTable rows.now →
        list_all (λ row. same_event (event_of row.key) event.now) rows.now ≡ true →
        IfOk result (λ ps. map (λ p. p.rows) ps.items
        ≡ packages (arriving_rows rows.now via.now.groups.now (route_of via.now))) }
    ensures numbered { IfOk result (λ ps. AreNumbered event.now ps.items) }
{
    let list = passing(alloc, rows, event, via)?;
    let Some(list) = packable(list, event)? else {
        return Ok(Vec::new(alloc));
    };
    let Some((own, others)) = list.as_slice().split_first() else {
        return Ok(Vec::new(alloc));
    };
    let parts = parts_of(alloc, others)?;
    let packages = packed(alloc, via.way, event, own, parts.as_slice())?;
    Ok(packages)
}

/// How many packages `outgoing` makes of an event. No row is copied for it.
pub fn count_outgoing(
    alloc: Global,
    rows: &[Row],
    event: &EventId,
    via: &Via,
) -> Result<u32, NoMemory>
    ensures { IsTable rows.now →
        list_all (λ row. same_event (event_of row.key) event.now) rows.now ≡ true →
        IfOk result (λ count. count
        ≡ length (packages (arriving_rows rows.now via.now.groups.now (route_of via.now)))) }
{
    let list = passing(alloc, rows, event, via)?;
    let Some((_own, others)) = list.as_slice().split_first() else {
        return Ok(0);
    };
    let parts = parts_of(alloc, others)?;
    match u32::try_from(parts.len()) {
        Ok(count) => Ok(count),
        Err(_) => Err(NoMemory),
    }
}

/// What a manifest says of an event: the keys of the rows of the packages that `outgoing` makes of
/// it, and their stamps. No row is copied for it.
pub fn outgoing_keys(
    alloc: Global,
    rows: &[Row],
    event: &EventId,
    via: &Via,
) -> Result<Option<ManifestEvent>, NoMemory>
    ensures listed { IsTable rows.now →
        list_all (λ row. same_event (event_of row.key) event.now) rows.now ≡ true →
        IfOk result (λ said. said ≡ manifest_event event.now
        (packages (arriving_rows rows.now via.now.groups.now (route_of via.now)))) }
    ensures event { IfOk result (λ said. IfSome said (λ m. m.event ≡ event.now)) }
{
    let list = passing(alloc, rows, event, via)?;
    let Some(list) = packable(list, event)? else {
        return Ok(None);
    };
    let Some((own, others)) = list.as_slice().split_first() else {
        return Ok(None);
    };
    let parts = parts_of(alloc, others)?;
    let said = listed(alloc, event, own, parts.as_slice())?;
    Ok(Some(said))
}
