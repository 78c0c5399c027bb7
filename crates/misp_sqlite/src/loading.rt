//! Rows as the selections give them.

ghost use Rattle.std.specs.Prelude.{◌≡◌, [], ◌∷◌, ◌++◌, map, IsTrue, IfOk, OnOk};
ghost use Rattle.std.specs.List.{list_all};
ghost use Rattle.sqlite_value.specs.declared.value.Value.TheVariants.{Blob};
ghost use Rattle.sqlite_value.specs.Order.{bytes, column};
ghost use Rattle.sqlite.specs.Held.{state};
ghost use Rattle.sqlite.specs.State.{HasCleanDisk, Survives};
ghost use Rattle.misp_lists.specs.Order.{ascend};
ghost use Rattle.misp_outside.specs.Held.{admin_before, comes_before, rows_of};
ghost use Rattle.misp_sqlite.specs.Kept.{one_query, all_query};
ghost use Rattle.misp_sqlite.specs.Standing.{IsReady, ShowsSame, kept_of};
ghost use Rattle.misp_sqlite.specs.Stored.{IsSelected, admin_shown, any_shown, event_in, event_of, is_admin_row, is_any_row, is_event, is_event_row, kind_in, raw_from};

use crate::fault::fault_of;
use crate::schema::is_kept;
use crate::texts::{ALL, ONE};
use misp_ids::{EventId, Items, Uid};
use misp_outside::{AdminRow, KeeperFault, RawRow};
use sqlite::{Alter, Connection, Row};
use sqlite_value::value::ValueRef;
use std::alloc::Global;

/// Whether the connection is in no transaction, and has the table and nothing else.
pub(crate) fn is_ready<A: Alter>(connection: &Connection<A>) -> bool
    ensures { IsTrue result → IsReady (state A.Store connection.now) }
{
    connection.is_autocommit() && is_kept(connection.schema())
}

/// The rows of the table under the bytes of an event, or under none.
fn rows_under<A: Alter>(
    connection: &mut Connection<A>,
    event: &[u8],
) -> Result<Vec<Row>, KeeperFault>
    ensures found { HasCleanDisk (state A.Store connection.new) → IfOk result (λ rows.
        IsSelected one_query (Blob event.now ∷ []) ((state A.Store connection.old).now.trees 0)
        rows.items) }
    ensures same { ShowsSame (state A.Store connection.old) (state A.Store connection.new) }
    ensures survives { Survives (state A.Store connection.old) (state A.Store connection.new)
        (λ _. ⊥) }
{
    if !is_ready(connection) {
        return Err(KeeperFault::Failed);
    }
    match connection.query_all(ONE, &[ValueRef::Blob(event)]) {
        Ok(rows) => Ok(rows),
        Err(error) => Err(fault_of(error)),
    }
}

fn blob_at(row: &Row, at: usize) -> Result<&[u8], KeeperFault>
    ensures { IfOk result (λ bytes. column row.now at ≡ Blob bytes.now) }
{
    match row.get_ref(at) {
        Ok(ValueRef::Blob(bytes)) => Ok(bytes),
        _ => Err(KeeperFault::Failed),
    }
}

fn bytes_at(alloc: Global, row: &Row, at: usize) -> Result<Items<u8>, KeeperFault>
    ensures { IfOk result (λ bytes. column row.now at ≡ Blob bytes) }
{
    Ok(Items::of(blob_at(row, at)?.to_vec(alloc)?))
}

fn kind_at(row: &Row, at: usize) -> Result<u8, KeeperFault>
    ensures { IfOk result (λ kind. kind_in (column row.now at) ≡ kind) }
{
    match row.get_ref(at) {
        Ok(ValueRef::Int(kind)) => match u8::try_from(kind) {
            Ok(kind) => Ok(kind),
            Err(_) => Err(KeeperFault::Failed),
        },
        _ => Err(KeeperFault::Failed),
    }
}

/// A row of the kind 0.
fn raw_at(alloc: Global, row: &Row, event: u128) -> Result<RawRow, KeeperFault>
    ensures is { OnOk result (IsTrue (is_event_row row.now)) }
    ensures found { IfOk result (λ raw.
        raw ≡ raw_from event (column row.now 1) (column row.now 2)) }
{
    if kind_at(row, 0)? != 0 {
        return Err(KeeperFault::Failed);
    }
    Ok(RawRow {
        event: EventId(Uid(event)),
        name: bytes_at(alloc, row, 1)?,
        bytes: bytes_at(alloc, row, 2)?,
    })
}

#[tactic(auto, unfolding(misp_outside::specs::Held::comes_before))]
fn comes_before(first: &RawRow, second: &RawRow) -> bool
    ensures { result ≡ comes_before first.now second.now }
{
    let by_event = first.event.0.0.cmp(&second.event.0.0);
    let by_name = first.name.as_slice().cmp(second.name.as_slice());
    by_event.then(by_name).is_lt()
}

/// Puts the row behind those before it, which it has to follow.
fn push_raw(found: &mut Vec<RawRow>, raw: RawRow) -> Result<(), KeeperFault>
    requires { IsTrue (ascend comes_before found.old.items) }
    ensures found { OnOk result (found.new.items ≡ found.old.items ++ raw ∷ []) }
    ensures order { OnOk result (IsTrue (ascend comes_before found.new.items)) }
{
    if let Some(last) = found.last() {
        if !comes_before(last, &raw) {
            return Err(KeeperFault::Failed);
        }
    }
    found.push(raw)?;
    Ok(())
}

/// The rows that are answered, as rows of the event.
#[tactic(auto, unfolding(misp_lists::specs::Order::ascend))]
pub(crate) fn event_rows_in(
    alloc: Global,
    event: u128,
    rows: &[Row],
) -> Result<Vec<RawRow>, KeeperFault>
    ensures each { OnOk result (IsTrue (list_all is_event_row rows.now)) }
    ensures found { IfOk result (λ found. found.items
        ≡ map (λ r. raw_from event (column r 1) (column r 2)) rows.now) }
    ensures order { IfOk result (λ found. IsTrue (ascend comes_before found.items)) }
{
    let mut found = Vec::new(alloc);
    for row in rows {
        push_raw(&mut found, raw_at(alloc, row, event)?)?;
    }
    Ok(found)
}

/// The rows of an event.
pub(crate) fn event_rows<A: Alter>(
    connection: &mut Connection<A>,
    alloc: Global,
    event: u128,
) -> Result<Vec<RawRow>, KeeperFault>
    ensures found { HasCleanDisk (state A.Store connection.new) → IfOk result (λ found.
        found.items ≡ rows_of (event_of event)
        (kept_of (state A.Store connection.old)).rows) }
    ensures order { IfOk result (λ found. IsTrue (ascend comes_before found.items)) }
    ensures same { ShowsSame (state A.Store connection.old) (state A.Store connection.new) }
    ensures survives { Survives (state A.Store connection.old) (state A.Store connection.new)
        (λ _. ⊥) }
{
    let bytes = event.to_be_bytes();
    let rows = rows_under(connection, bytes.as_slice())?;
    event_rows_in(alloc, event, &rows)
}

/// A row of the administration.
fn admin_at(alloc: Global, row: &Row) -> Result<AdminRow, KeeperFault>
    ensures is { OnOk result (IsTrue (is_admin_row row.now)) }
    ensures found { IfOk result (λ admin. admin ≡ admin_shown row.now) }
{
    Ok(AdminRow {
        kind: kind_at(row, 0)?,
        name: bytes_at(alloc, row, 1)?,
        bytes: bytes_at(alloc, row, 2)?,
    })
}

#[tactic(auto, unfolding(misp_outside::specs::Held::admin_before))]
fn admin_before(first: &AdminRow, second: &AdminRow) -> bool
    ensures { result ≡ admin_before first.now second.now }
{
    let by_kind = first.kind.cmp(&second.kind);
    let by_name = first.name.as_slice().cmp(second.name.as_slice());
    by_kind.then(by_name).is_lt()
}

fn push_admin(found: &mut Vec<AdminRow>, admin: AdminRow) -> Result<(), KeeperFault>
    requires { IsTrue (ascend admin_before found.old.items) }
    ensures found { OnOk result (found.new.items ≡ found.old.items ++ admin ∷ []) }
    ensures order { OnOk result (IsTrue (ascend admin_before found.new.items)) }
{
    if let Some(last) = found.last() {
        if !admin_before(last, &admin) {
            return Err(KeeperFault::Failed);
        }
    }
    found.push(admin)?;
    Ok(())
}

#[tactic(auto, unfolding(misp_lists::specs::Order::ascend))]
fn admin_rows_in(alloc: Global, rows: &[Row]) -> Result<Vec<AdminRow>, KeeperFault>
    ensures each { OnOk result (IsTrue (list_all is_admin_row rows.now)) }
    ensures found { IfOk result (λ found. found.items ≡ map admin_shown rows.now) }
    ensures order { IfOk result (λ found. IsTrue (ascend admin_before found.items)) }
{
    let mut found = Vec::new(alloc);
    for row in rows {
        push_admin(&mut found, admin_at(alloc, row)?)?;
    }
    Ok(found)
}

/// The rows of the administration.
pub(crate) fn admin_rows<A: Alter>(
    connection: &mut Connection<A>,
    alloc: Global,
) -> Result<Vec<AdminRow>, KeeperFault>
    ensures found { HasCleanDisk (state A.Store connection.new) → IfOk result (λ found.
        found.items ≡ (kept_of (state A.Store connection.old)).admin) }
    ensures order { IfOk result (λ found. IsTrue (ascend admin_before found.items)) }
    ensures same { ShowsSame (state A.Store connection.old) (state A.Store connection.new) }
    ensures survives { Survives (state A.Store connection.old) (state A.Store connection.new)
        (λ _. ⊥) }
{
    let rows = rows_under(connection, &[])?;
    admin_rows_in(alloc, &rows)
}

/// The rows of the table of all events.
fn rows_of_events<A: Alter>(connection: &mut Connection<A>) -> Result<Vec<Row>, KeeperFault>
    ensures found { HasCleanDisk (state A.Store connection.new) → IfOk result (λ rows.
        IsSelected all_query [] ((state A.Store connection.old).now.trees 0) rows.items) }
    ensures same { ShowsSame (state A.Store connection.old) (state A.Store connection.new) }
    ensures survives { Survives (state A.Store connection.old) (state A.Store connection.new)
        (λ _. ⊥) }
{
    if !is_ready(connection) {
        return Err(KeeperFault::Failed);
    }
    match connection.query_all(ALL, &[]) {
        Ok(rows) => Ok(rows),
        Err(error) => Err(fault_of(error)),
    }
}

/// Whether the bytes are those of the event.
fn spells(event: u128, bytes: &[u8]) -> bool
    ensures is { IsTrue result → IsTrue (is_event (Blob bytes.now)) }
    ensures event { IsTrue result → event ≡ event_in bytes.now }
{
    event.to_be_bytes().as_slice() == bytes
}

fn event_at(row: &Row) -> Result<EventId, KeeperFault>
    ensures is { OnOk result (IsTrue (is_event (column row.now 0))) }
    ensures found { IfOk result (λ event. event.0.0 ≡ event_in (bytes (column row.now 0))) }
{
    let bytes = blob_at(row, 0)?;
    let Ok(array) = <[u8; 16]>::try_from(bytes) else {
        return Err(KeeperFault::Failed);
    };
    let event = u128::from_be_bytes(array);
    if !spells(event, bytes) {
        return Err(KeeperFault::Failed);
    }
    Ok(EventId(Uid(event)))
}

fn any_at(alloc: Global, row: &Row) -> Result<RawRow, KeeperFault>
    ensures is { OnOk result (IsTrue (is_any_row row.now)) }
    ensures found { IfOk result (λ raw. raw ≡ any_shown row.now) }
{
    if kind_at(row, 1)? != 0 {
        return Err(KeeperFault::Failed);
    }
    Ok(RawRow {
        event: event_at(row)?,
        name: bytes_at(alloc, row, 2)?,
        bytes: bytes_at(alloc, row, 3)?,
    })
}

#[tactic(auto, unfolding(misp_lists::specs::Order::ascend))]
fn all_rows_in(alloc: Global, rows: &[Row]) -> Result<Vec<RawRow>, KeeperFault>
    ensures each { OnOk result (IsTrue (list_all is_any_row rows.now)) }
    ensures found { IfOk result (λ found. found.items ≡ map any_shown rows.now) }
    ensures order { IfOk result (λ found. IsTrue (ascend comes_before found.items)) }
{
    let mut found = Vec::new(alloc);
    for row in rows {
        push_raw(&mut found, any_at(alloc, row)?)?;
    }
    Ok(found)
}

/// The rows of all events.
pub(crate) fn all_rows<A: Alter>(
    connection: &mut Connection<A>,
    alloc: Global,
) -> Result<Vec<RawRow>, KeeperFault>
    ensures found { HasCleanDisk (state A.Store connection.new) → IfOk result (λ found.
        found.items ≡ (kept_of (state A.Store connection.old)).rows) }
    ensures order { IfOk result (λ found. IsTrue (ascend comes_before found.items)) }
    ensures same { ShowsSame (state A.Store connection.old) (state A.Store connection.new) }
    ensures survives { Survives (state A.Store connection.old) (state A.Store connection.new)
        (λ _. ⊥) }
{
    let rows = rows_of_events(connection)?;
    all_rows_in(alloc, &rows)
}
