//! Rows of the first form, put anew.

ghost use Rattle.std.specs.Prelude.{◌≡◌, Ok, Err, Some, None, [], ◌∷◌, ◌++◌, length, cond, filter, map, IfOk, IfErr, IfSome, IsOk, OnOk, OnErr};
ghost use Rattle.misp_outside.specs.Causes.{HasCause, StaysUnless};
ghost use Rattle.misp_outside.specs.Reporting.{StaysHeld, WhereReported};
ghost use Rattle.misp_outside.specs.Held.{with_batch};
ghost use Rattle.misp_store.specs.Decoding.{IsNoRow, NamesBadRow};
ghost use Rattle.misp_store.specs.Loading.{NamesFault};
ghost use Rattle.misp_store.specs.Raw.{row_in, rows_in};
ghost use Rattle.misp_store.specs.Renewing.{IsRead, is_old, put_anew, renewed, renewed_row, rewritten, rows_alone};

use crate::fault::{LoadFault, RowFault};
use crate::rows::{decode_row, raw_row};
use misp_elem::NoMemory;
use misp_ids::Items;
use misp_outside::{Keeper, KeeperFault, RawBatch, RawRow};
use std::alloc::Global;

// Whether the row is of the first form.
#[tactic(auto, unfolding(crate::specs::Renewing::is_old))]
fn is_old(raw: &RawRow) -> bool
    ensures { result ≡ is_old raw.now }
{
    match raw.bytes.as_slice() {
        [form, ..] => *form == 1,
        [] => false,
    }
}

// The row as it is written now, where it is of the first form. In either form it is a row.
#[tactic(auto, unfolding(crate::specs::Renewing::rewritten))]
fn rewritten(alloc: Global, raw: &RawRow) -> Result<Option<RawRow>, RowFault>
    ensures ok { IfOk result (λ anew.
        anew ≡ cond (is_old raw.now) (Some (rewritten raw.now)) None) }
    ensures read { OnOk result (IsRead raw.now) }
    ensures bad { IfErr result (IsNoRow raw.now) }
{
    let row = decode_row(alloc, raw)?;
    if !is_old(raw) {
        drop(row);
        return Ok(None);
    }
    match raw_row(alloc, &row) {
        Ok(anew) => {
            drop(row);
            Ok(Some(anew))
        }
        Err(NoMemory) => {
            drop(row);
            Err(RowFault::NoMemory)
        }
    }
}

// Adds the row as it is written now, where it is of the first form.
fn add_rewritten(alloc: Global, anew: &mut Vec<RawRow>, raw: &RawRow) -> Result<(), RowFault>
    ensures ok { OnOk result (anew.new.items ≡ anew.old.items ++ put_anew (raw.now ∷ [])) }
    ensures read { OnOk result (IsRead raw.now) }
    ensures bad { IfErr result (IsNoRow raw.now) }
{
    match rewritten(alloc, raw)? {
        Some(row) => Ok(anew.push(row)?),
        None => Ok(()),
    }
}

// Those of the rows that are of the first form, as they are written now.
fn all_rewritten(alloc: Global, raws: &[RawRow]) -> Result<Vec<RawRow>, RowFault>
    ensures ok { IfOk result (λ anew. anew.items ≡ put_anew raws.now) }
    ensures read { OnOk result (IsOk (rows_in raws.now)) }
    ensures same { OnOk result (rows_in (map renewed_row raws.now) ≡ rows_in raws.now) }
    ensures bad { IfErr result (NamesBadRow (rows_in raws.now)) }
{
    let mut anew = Vec::new(alloc);
    for raw in raws {
        add_rewritten(alloc, &mut anew, raw)?;
    }
    Ok(anew)
}

// Puts rows in one batch, where there are any, and tells how many they are.
fn put_rows<K: Keeper>(keeper: &mut K, alloc: Global, rows: Vec<RawRow>) -> Result<u64, KeeperFault>
    ensures count { IfOk result (λ count. count ≡ length rows.items) }
    ensures put { OnOk result (WhereReported (K.state keeper.old).held (K.state keeper.new).held
        (λ held new. new ≡ with_batch (rows_alone rows.items) held)) }
    ensures err { OnErr result (StaysHeld (K.state keeper.old).held (K.state keeper.new).held) }
    ensures cause { HasCause (K.state keeper.old).faults (K.state keeper.new).faults
        (result ≡ Err KeeperFault.Failed) }
    ensures stays { StaysUnless (K.state keeper.old).faults (K.state keeper.new).faults
        (result ≡ Err KeeperFault.Failed) }
{
    let count = rows.len() as u64;
    if count > 0 {
        keeper.apply(RawBatch {
            rows: Items::of(rows),
            admin: Items::of(Vec::new(alloc)),
        })?;
    }
    Ok(count)
}

/// Puts all rows of the first form anew, in the form that is written and in one batch, and tells
/// how many they are. Where there are none, nothing is put.
pub fn renew<K: Keeper>(keeper: &mut K, alloc: Global) -> Result<u64, LoadFault>
    ensures put { OnOk result (WhereReported (K.state keeper.old).held (K.state keeper.new).held
        (λ held new. new ≡ renewed held)) }
    ensures count { IfOk result (λ count.
        WhereReported (K.state keeper.old).held (K.state keeper.new).held
        (λ held _. count ≡ length (filter is_old held.rows))) }

    // Every row that is held decodes, and says the same when it is put anew.
    ensures read { OnOk result (WhereReported (K.state keeper.old).held (K.state keeper.new).held
        (λ held _. IsOk (rows_in held.rows))) }
    ensures same { OnOk result (WhereReported (K.state keeper.old).held (K.state keeper.new).held
        (λ held _. rows_in (renewed held).rows ≡ rows_in held.rows)) }
    ensures bad { IfErr result (λ fault. IfSome (K.state keeper.new).held
        (λ held. NamesFault (rows_in held.rows) fault)) }
    ensures err { OnErr result (StaysHeld (K.state keeper.old).held (K.state keeper.new).held) }
    ensures cause { HasCause (K.state keeper.old).faults (K.state keeper.new).faults
        (result ≡ Err LoadFault.KeeperFault) }
    ensures stays { StaysUnless (K.state keeper.old).faults (K.state keeper.new).faults
        (result ≡ Err LoadFault.KeeperFault) }
{
    let raws = keeper.load_all(alloc)?;
    let anew = all_rewritten(alloc, &raws)?;
    drop(raws);
    Ok(put_rows(keeper, alloc, anew)?)
}
