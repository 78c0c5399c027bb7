//! Whether rows can go into packages of an event.

ghost use Rattle.std.specs.Prelude.{◌≡◌, ◌↔◌, true, map, option_map, IfOk};
ghost use Rattle.std.specs.List.{list_all};
ghost use Rattle.std.specs.List.Sorted.{IsStrictlySortedBy};
ghost use Rattle.std.specs.Ordering.{is_lt};
ghost use Rattle.misp_model.specs.Package.{BeginsWith};
ghost use Rattle.misp_package.specs.Packing.{ArePackable, IsPacking, is_packable, key_order};

use crate::key_order::{by_keys, compare};
use misp_copies::is_itself;
use misp_elem::Row;
use misp_ids::{EventId, NoMemory};

// Whether the row can go into a package of the event.
#[tactic(auto, unfolding(crate::specs::Packing::is_packable, crate::specs::Packing::is_whole, misp_ids::specs::Same::same_event))]
fn is_packable(row: &Row, event: &EventId) -> bool
    ensures { result ≡ is_packable event.now row.now }
{
    row.key.event() == *event && !row.is_tombstone()
}

// Whether each of the rows can.
fn each_packable(rows: &[&Row], event: &EventId) -> bool
    ensures { result ≡ list_all (λ r. is_packable event.now r.now) rows.now }
{
    rows.iter().all(|row| is_packable(row, event))
}

// Whether the event's own row goes before the others.
fn begins_with_own(rows: &[&Row], event: &EventId) -> bool
    ensures { (result ≡ true) ↔ BeginsWith event.now (map (λ r. r.now) rows.now) }
{
    match rows {
        [own, ..] => is_itself(own, event),
        [] => false,
    }
}

// Whether the key of the first goes before that of the second.
fn goes_before(a: &Row, b: &Row) -> bool
    ensures { result ≡ is_lt (key_order a.now b.now) }
{
    compare(a, b).is_lt()
}

// Whether the rows ascend by their keys.
fn ascend(rows: &[&Row]) -> bool
    ensures { (result ≡ true) ↔ IsStrictlySortedBy key_order (map (λ r. r.now) rows.now) }
{
    rows.is_sorted_by(|a, b| goes_before(a, b))
}

// Whether the rows can go into packages of the event.
fn are_packable(rows: &[&Row], event: &EventId) -> bool
    ensures { (result ≡ true) ↔ ArePackable event.now (map (λ r. r.now) rows.now) }
{
    if !begins_with_own(rows, event) {
        return false;
    }
    if !each_packable(rows, event) {
        return false;
    }
    ascend(rows)
}

/// The rows by their keys, or none where these cannot go into packages of the event. Rows of one
/// owner stand so already.
pub(crate) fn packable<'a>(
    rows: Vec<&'a Row>,
    event: &EventId,
) -> Result<Option<Vec<&'a Row>>, NoMemory>
    ensures { IfOk result (λ found. IsPacking event.now (map (λ r. r.now) rows.entry.items)
        (option_map (λ list. map (λ r. r.now) list.items) found)) }
{
    if are_packable(rows.as_slice(), event) {
        return Ok(Some(rows));
    }
    let list = by_keys(rows)?;
    if are_packable(list.as_slice(), event) {
        Ok(Some(list))
    } else {
        Ok(None)
    }
}
