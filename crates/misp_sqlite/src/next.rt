//! The first row of an event from a name on.

ghost use Rattle.std.specs.Prelude.{◌≡◌, [], ◌∷◌, slice_get, IfOk};
ghost use Rattle.sqlite_value.specs.declared.value.Value.TheVariants.{Blob};
ghost use Rattle.sqlite.specs.Held.{state};
ghost use Rattle.sqlite.specs.State.{HasCleanDisk, Survives};
ghost use Rattle.misp_outside.specs.Held.{next_row};
ghost use Rattle.misp_sqlite.specs.Kept.{next_query};
ghost use Rattle.misp_sqlite.specs.Standing.{ShowsSame, kept_of};
ghost use Rattle.misp_sqlite.specs.Stored.{IsPaged, event_of};

use crate::fault::fault_of;
use crate::loading::{event_rows_in, is_ready};
use crate::texts::NEXT;
use misp_outside::{KeeperFault, RawRow};
use sqlite::{Alter, Connection, Row};
use sqlite_value::value::ValueRef;
use std::alloc::Global;

/// The first two of the rows of the table under the bytes of an event whose names are not before
/// the given one.
fn rows_from<A: Alter>(
    connection: &mut Connection<A>,
    event: &[u8],
    from: &[u8],
) -> Result<Vec<Row>, KeeperFault>
    ensures found { HasCleanDisk (state A.Store connection.new) → IfOk result (λ rows.
        IsPaged next_query (Blob event.now ∷ Blob from.now ∷ [])
        ((state A.Store connection.old).now.trees 0) rows.items) }
    ensures same { ShowsSame (state A.Store connection.old) (state A.Store connection.new) }
    ensures survives { Survives (state A.Store connection.old) (state A.Store connection.new)
        (λ _. ⊥) }
{
    if !is_ready(connection) {
        return Err(KeeperFault::Failed);
    }
    let values = [ValueRef::Blob(event), ValueRef::Blob(from)];
    match connection.query_all(NEXT, &values) {
        Ok(rows) => Ok(rows),
        Err(error) => Err(fault_of(error)),
    }
}

/// The first of the rows, if there is one.
fn first_of(rows: Vec<RawRow>) -> Option<RawRow>
    ensures { result ≡ slice_get rows.items 0 }
{
    rows.into_iter().next()
}

/// The first of the rows of an event whose names are not before the given one. It reads one row
/// more, and so finds out whether two rows have that name.
pub(crate) fn next_row<A: Alter>(
    connection: &mut Connection<A>,
    alloc: Global,
    event: u128,
    from: &[u8],
) -> Result<Option<RawRow>, KeeperFault>
    ensures found { HasCleanDisk (state A.Store connection.new) → IfOk result (λ found.
        found ≡ next_row (event_of event) from.now (kept_of (state A.Store connection.old)).rows) }
    ensures same { ShowsSame (state A.Store connection.old) (state A.Store connection.new) }
    ensures survives { Survives (state A.Store connection.old) (state A.Store connection.new)
        (λ _. ⊥) }
{
    let bytes = event.to_be_bytes();
    let rows = rows_from(connection, bytes.as_slice(), from)?;
    let found = event_rows_in(alloc, event, &rows)?;
    Ok(first_of(found))
}
