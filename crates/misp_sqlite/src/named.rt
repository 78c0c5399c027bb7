//! Rows of an event by the bytes that their names begin with.

ghost use Rattle.std.specs.Prelude.{◌≡◌, [], ◌∷◌, filter, nat_eq, option_map, IsTrue, IfOk, IfSome};
ghost use Rattle.std.specs.List.{starts_with};
ghost use Rattle.sqlite_value.specs.declared.value.Value.TheVariants.{Blob};
ghost use Rattle.sqlite.specs.Held.{state};
ghost use Rattle.sqlite.specs.State.{HasCleanDisk, Survives};
ghost use Rattle.misp_lists.specs.Order.{ascend};
ghost use Rattle.misp_outside.specs.Held.{comes_before, rows_named};
ghost use Rattle.misp_sqlite.specs.Kept.{between_query};
ghost use Rattle.misp_sqlite.specs.Ranges.{IsRangeOf, bytes_after, rows_between};
ghost use Rattle.misp_sqlite.specs.Standing.{ShowsSame, kept_of};
ghost use Rattle.misp_sqlite.specs.Stored.{IsSelected, event_of};

use crate::fault::fault_of;
use crate::loading::{event_rows, event_rows_in, is_ready};
use crate::texts::BETWEEN;
use misp_outside::{KeeperFault, RawRow};
use sqlite::{Alter, Connection, Row};
use sqlite_value::value::ValueRef;
use std::alloc::Global;

/// The least bytes after all that begin with these. After no bytes, and after bytes 255 alone,
/// there are none.
fn bytes_after(alloc: Global, front: &[u8]) -> Result<Option<Vec<u8>>, KeeperFault>
    ensures after { IfOk result (λ after.
        option_map (λ bytes. bytes.items) after ≡ bytes_after front.now) }
    ensures exact { IfOk result (λ after.
        IfSome after (λ after. IsRangeOf front.now after.items)) }
{
    let mut after = front.to_vec(alloc)?;
    while let Some(last) = after.pop() {
        if last < u8::MAX {
            after.push(last + 1)?;
            return Ok(Some(after));
        }
    }
    Ok(None)
}

/// The rows of the table under the bytes of an event whose names are in the range.
fn rows_in_range<A: Alter>(
    connection: &mut Connection<A>,
    event: &[u8],
    from: &[u8],
    until: &[u8],
) -> Result<Vec<Row>, KeeperFault>
    ensures found { HasCleanDisk (state A.Store connection.new) → IfOk result (λ rows.
        IsSelected between_query (Blob event.now ∷ Blob from.now ∷ Blob until.now ∷ [])
        ((state A.Store connection.old).now.trees 0) rows.items) }
    ensures same { ShowsSame (state A.Store connection.old) (state A.Store connection.new) }
    ensures survives { Survives (state A.Store connection.old) (state A.Store connection.new)
        (λ _. ⊥) }
{
    if !is_ready(connection) {
        return Err(KeeperFault::Failed);
    }
    let values = [
        ValueRef::Blob(event),
        ValueRef::Blob(from),
        ValueRef::Blob(until),
    ];
    match connection.query_all(BETWEEN, &values) {
        Ok(rows) => Ok(rows),
        Err(error) => Err(fault_of(error)),
    }
}

/// The rows of an event whose names are in the range.
fn between_rows<A: Alter>(
    connection: &mut Connection<A>,
    alloc: Global,
    event: u128,
    from: &[u8],
    until: &[u8],
) -> Result<Vec<RawRow>, KeeperFault>
    ensures found { HasCleanDisk (state A.Store connection.new) → IfOk result (λ found.
        found.items ≡ rows_between (event_of event) from.now until.now
        (kept_of (state A.Store connection.old)).rows) }
    ensures order { IfOk result (λ found. IsTrue (ascend comes_before found.items)) }
    ensures same { ShowsSame (state A.Store connection.old) (state A.Store connection.new) }
    ensures survives { Survives (state A.Store connection.old) (state A.Store connection.new)
        (λ _. ⊥) }
{
    let bytes = event.to_be_bytes();
    let rows = rows_in_range(connection, bytes.as_slice(), from, until)?;
    event_rows_in(alloc, event, &rows)
}

/// Rows of an event: those whose names begin with the bytes, and no others where these bytes have
/// bytes after them.
fn rows_near<A: Alter>(
    connection: &mut Connection<A>,
    alloc: Global,
    event: u128,
    front: &[u8],
) -> Result<Vec<RawRow>, KeeperFault>
    ensures found { HasCleanDisk (state A.Store connection.new) → IfOk result (λ found.
        filter (λ row. starts_with nat_eq row.name front.now) found.items ≡ rows_named
        (event_of event) front.now (kept_of (state A.Store connection.old)).rows) }
    ensures order { IfOk result (λ found. IsTrue (ascend comes_before found.items)) }
    ensures same { ShowsSame (state A.Store connection.old) (state A.Store connection.new) }
    ensures survives { Survives (state A.Store connection.old) (state A.Store connection.new)
        (λ _. ⊥) }
{
    match bytes_after(alloc, front)? {
        Some(after) => between_rows(connection, alloc, event, front, after.as_slice()),
        None => event_rows(connection, alloc, event),
    }
}

/// The rows whose names begin with the bytes.
fn named_in(alloc: Global, rows: Vec<RawRow>, front: &[u8]) -> Result<Vec<RawRow>, KeeperFault>
    ensures { IfOk result (λ found. found.items
        ≡ filter (λ row. starts_with nat_eq row.name front.now) rows.items) }
{
    let mut found = Vec::new(alloc);
    for row in rows {
        if row.name.as_slice().starts_with(front) {
            found.push(row)?;
        }
    }
    Ok(found)
}

/// The rows of an event whose names begin with the bytes.
pub(crate) fn named_rows<A: Alter>(
    connection: &mut Connection<A>,
    alloc: Global,
    event: u128,
    front: &[u8],
) -> Result<Vec<RawRow>, KeeperFault>
    ensures found { HasCleanDisk (state A.Store connection.new) → IfOk result (λ found.
        found.items ≡ rows_named (event_of event) front.now
        (kept_of (state A.Store connection.old)).rows) }
    ensures order { IfOk result (λ found. IsTrue (ascend comes_before found.items)) }
    ensures same { ShowsSame (state A.Store connection.old) (state A.Store connection.new) }
    ensures survives { Survives (state A.Store connection.old) (state A.Store connection.new)
        (λ _. ⊥) }
{
    let rows = rows_near(connection, alloc, event, front)?;
    named_in(alloc, rows, front)
}
