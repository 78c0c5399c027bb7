//! Rows by their events.

ghost use Rattle.std.specs.Prelude.{◌≡◌, eqb, map, IfOk};
ghost use Rattle.std.specs.List.{dedup};
ghost use Rattle.std.specs.List.Sorted.{IsStrictlySortedBy};
ghost use Rattle.misp_lists.specs.Prelude.{nat_cmp};
ghost use Rattle.misp_elem.specs.Parents.{event_of};
ghost use Rattle.misp_ids.specs.Same.{same_event};
ghost use Rattle.misp_ids.specs.Uid.{IsUid};
ghost use Rattle.misp_model.specs.Machine.{event_number, event_rows};
ghost use Rattle.misp_core.specs.Pulling.{IsByEvent, Rises, event_at};

use misp_elem::{NoMemory, Row};
use misp_ids::{EventId, Uid};
use std::alloc::Global;

// The number of a row's event.
#[tactic(auto, unfolding(misp_model::specs::Machine::event_number))]
fn event_number(row: &Row) -> u128
    ensures { result ≡ event_number row.now }
{
    row.key.event().0.0
}

/// Whether the row is of the event.
#[tactic(auto, unfolding(misp_ids::specs::Same::same_event))]
pub(crate) fn is_of(row: &Row, event: &EventId) -> bool
    ensures { result ≡ same_event (event_of row.now.key) event.now }
{
    row.key.event() == *event
}

/// Those of the rows that are of the event.
pub(crate) fn of_event(rows: Vec<Row>, event: &EventId) -> Vec<Row>
    ensures { result.items ≡ event_rows event.now rows.items }
{
    let mut rows = rows;
    rows.retain(|row| is_of(row, event));
    rows
}

/// The rows by their events, those of one event in the order in which they stood.
pub(crate) fn by_event(rows: Vec<Row>) -> Result<Vec<Row>, NoMemory>
    ensures { IfOk result (λ list. IsByEvent list.items rows.items) }
{
    let mut list = rows;
    list.sort_by_key(|row| event_number(row))?;
    Ok(list)
}

/// Those of a list by events that are of this event.
pub(crate) fn part<'a>(list: &'a [Row], event: &EventId) -> &'a [Row]
    ensures { Rises list.now → result.now ≡ event_rows event.now list.now }
{
    let number = event.0.0;
    let low = list.partition_point(|row| event_number(row) < number);
    let rest = &list[low..];
    let count = rest.partition_point(|row| event_number(row) <= number);
    &rest[..count]
}

// The number of each row's event.
fn numbers(alloc: Global, list: &[Row]) -> Result<Vec<u128>, NoMemory>
    ensures { IfOk result (λ numbers. numbers.items ≡ map event_number list.now) }
{
    let mut numbers = Vec::with_capacity(alloc, list.len())?;
    for row in list {
        numbers.push(event_number(row))?;
    }
    Ok(numbers)
}

/// The numbers of the events in a list by events, each once.
pub(crate) fn events_of(alloc: Global, list: &[Row]) -> Result<Vec<u128>, NoMemory>
    ensures all { IfOk result (λ events. events.items ≡ dedup eqb (map event_number list.now)) }
    ensures ascend { Rises list.now →
        IfOk result (λ events. IsStrictlySortedBy nat_cmp events.items) }
{
    let mut events = numbers(alloc, list)?;
    events.dedup();
    Ok(events)
}

/// The event of a number.
pub(crate) fn event_at(number: u128) -> EventId
    ensures event { result ≡ event_at number }
    ensures fits { IsUid result.0 }
{
    EventId(Uid(number))
}
