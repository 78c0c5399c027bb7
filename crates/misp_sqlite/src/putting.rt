//! Rows as the upsert takes them.

ghost use Rattle.std.specs.Prelude.{◌≡◌, pos, [], IsTrue, OnErr, OnOk};
ghost use Rattle.sqlite.specs.Held.{state};
ghost use Rattle.sqlite.specs.State.{HasCleanDisk, Survives};
ghost use Rattle.misp_sqlite.specs.Putting.{HasPut, admin_of, raw_of, with_admin_row, with_admin_rows, with_row, with_rows};
ghost use Rattle.misp_sqlite.specs.Standing.{HasBatch, IsInside, PutsInside, ShowsSame, Steps, is_reporting, kept_of};
ghost use Rattle.misp_sqlite.specs.Stored.{held_in};
ghost use Rattle.misp_outside.specs.Held.{with_batch};

use crate::fault::fault_of;
use crate::loading::is_ready;
use crate::texts::PUT;
use misp_outside::{AdminRow, KeeperFault, RawBatch, RawRow};
use sqlite::{Alter, Connection, Transaction};
use sqlite_value::value::ValueRef;

/// Puts a row. An upsert that changes no row is a fault.
fn put<'row, A: Alter>(
    transaction: &mut Transaction<'_, A>,
    event: &'row [u8],
    kind: u8,
    name: &'row [u8],
    bytes: &'row [u8],
) -> Result<(), KeeperFault>
    ensures same_reference { transaction.new.conn.ghost_name ≡ transaction.old.conn.ghost_name }
    ensures steps { Steps (state A.Store transaction.old.conn.now)
        (state A.Store transaction.new.conn.now) }
    ensures done { HasCleanDisk (state A.Store transaction.new.conn.now) →
        IsInside (state A.Store transaction.old.conn.now) →
        OnOk result (IsInside (state A.Store transaction.new.conn.now)
        × HasPut event.now (pos kind) name.now bytes.now
        ((state A.Store transaction.old.conn.now).now.trees 0)
        ((state A.Store transaction.new.conn.now).now.trees 0)) }
{
    let values = [
        ValueRef::Blob(event),
        ValueRef::Int(i64::from(kind)),
        ValueRef::Blob(name),
        ValueRef::Blob(bytes),
    ];
    match transaction.execute(PUT, &values) {
        Ok(1) => Ok(()),
        Ok(_) => Err(KeeperFault::Failed),
        Err(error) => Err(fault_of(error)),
    }
}

/// Puts a row of an event.
fn put_raw<A: Alter>(
    transaction: &mut Transaction<'_, A>,
    event: u128,
    name: &[u8],
    bytes: &[u8],
) -> Result<(), KeeperFault>
    ensures same_reference { transaction.new.conn.ghost_name ≡ transaction.old.conn.ghost_name }
    ensures steps { Steps (state A.Store transaction.old.conn.now)
        (state A.Store transaction.new.conn.now) }
    ensures done { PutsInside (state A.Store transaction.old.conn.now)
        (state A.Store transaction.new.conn.now)
        (with_row (raw_of event name.now bytes.now)) result }
{
    let event = event.to_be_bytes();
    put(transaction, event.as_slice(), 0, name, bytes)
}

/// Puts a row of the administration.
fn put_admin<A: Alter>(
    transaction: &mut Transaction<'_, A>,
    kind: u8,
    name: &[u8],
    bytes: &[u8],
) -> Result<(), KeeperFault>
    ensures same_reference { transaction.new.conn.ghost_name ≡ transaction.old.conn.ghost_name }
    ensures steps { Steps (state A.Store transaction.old.conn.now)
        (state A.Store transaction.new.conn.now) }
    ensures done { PutsInside (state A.Store transaction.old.conn.now)
        (state A.Store transaction.new.conn.now)
        (with_admin_row (admin_of kind name.now bytes.now)) result }
{
    put(transaction, &[], kind, name, bytes)
}

fn put_rows<A: Alter>(
    transaction: &mut Transaction<'_, A>,
    rows: &[RawRow],
) -> Result<(), KeeperFault>
    ensures same_reference { transaction.new.conn.ghost_name ≡ transaction.old.conn.ghost_name }
    ensures steps { Steps (state A.Store transaction.old.conn.now)
        (state A.Store transaction.new.conn.now) }
    ensures done { PutsInside (state A.Store transaction.old.conn.now)
        (state A.Store transaction.new.conn.now) (with_rows rows.now) result }
{
    for row in rows {
        put_raw(
            transaction,
            row.event.0.0,
            row.name.as_slice(),
            row.bytes.as_slice(),
        )?;
    }
    Ok(())
}

fn put_admins<A: Alter>(
    transaction: &mut Transaction<'_, A>,
    rows: &[AdminRow],
) -> Result<(), KeeperFault>
    ensures same_reference { transaction.new.conn.ghost_name ≡ transaction.old.conn.ghost_name }
    ensures steps { Steps (state A.Store transaction.old.conn.now)
        (state A.Store transaction.new.conn.now) }
    ensures done { PutsInside (state A.Store transaction.old.conn.now)
        (state A.Store transaction.new.conn.now) (with_admin_rows rows.now) result }
{
    for row in rows {
        put_admin(
            transaction,
            row.kind,
            row.name.as_slice(),
            row.bytes.as_slice(),
        )?;
    }
    Ok(())
}

/// Puts all rows of the batch.
fn put_all<A: Alter>(
    transaction: &mut Transaction<'_, A>,
    batch: &RawBatch,
) -> Result<(), KeeperFault>
    ensures same_reference { transaction.new.conn.ghost_name ≡ transaction.old.conn.ghost_name }
    ensures steps { Steps (state A.Store transaction.old.conn.now)
        (state A.Store transaction.new.conn.now) }
    ensures done { PutsInside (state A.Store transaction.old.conn.now)
        (state A.Store transaction.new.conn.now) (with_batch batch.now) result }
{
    put_rows(transaction, batch.rows.as_slice())?;
    put_admins(transaction, batch.admin.as_slice())
}

/// Puts all rows of the batch in one transaction, or none.
pub(crate) fn put_batch<A: Alter>(
    connection: &mut Connection<A>,
    batch: &RawBatch,
) -> Result<(), KeeperFault>
    ensures done { HasCleanDisk (state A.Store connection.new) → OnOk result
        (HasBatch batch.now (state A.Store connection.old) (state A.Store connection.new)) }
    ensures same { OnErr result
        (ShowsSame (state A.Store connection.old) (state A.Store connection.new)) }
    ensures crash { Survives (state A.Store connection.old) (state A.Store connection.new)
        (λ trees. held_in (trees 0)
        ≡ with_batch batch.now (kept_of (state A.Store connection.old))) }
    ensures reported { OnOk result (IsTrue (state A.Store connection.new).is_open →
        is_reporting (state A.Store connection.new)
        ≡ is_reporting (state A.Store connection.old)) }
{
    if !is_ready(connection) {
        return Err(KeeperFault::Failed);
    }
    let mut transaction = connection.transaction();
    put_all(&mut transaction, batch)?;
    match transaction.commit() {
        Ok(()) => Ok(()),
        Err(error) => Err(fault_of(error)),
    }
}
