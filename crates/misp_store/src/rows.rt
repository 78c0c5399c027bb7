//! Rows as a keeper holds them.

ghost use Rattle.std.specs.Prelude.{◌≡◌, ◌&&◌, ◌++◌, ◌∷◌, Some, None, Ok, map, option_map, [], IfOk, IfErr, IsErr, OnOk};
ghost use Rattle.misp_elem.specs.Row.{IsRow};
ghost use Rattle.misp_elem.specs.Spelling as spelling;
ghost use Rattle.misp_ids.specs.Same.{same_event};
ghost use Rattle.misp_elem.specs.Parents.{event_of};
ghost use Rattle.misp_store.specs.Raw.{rows_in, row_in, raw_row, stands_under};
ghost use Rattle.misp_store.specs.Decoding.{IsNoRow, NamesBadRow};

use crate::fault::RowFault;
use crate::naming::is_named;
use misp_elem::{DecodeFault, NoMemory, Row, decode, encode, encode_name};
use misp_ids::{EventId, Items};
use misp_outside::RawRow;
use std::alloc::Global;

fn event_of(row: &Row) -> EventId
    ensures { result ≡ event_of row.now.key }
{
    row.key.event()
}

// Whether the row is held under its own event.
#[tactic(auto, unfolding(misp_ids::specs::Same::same_event))]
fn is_at_event(raw: &RawRow, row: &Row) -> bool
    ensures { result ≡ same_event (event_of row.now.key) raw.now.event }
{
    event_of(row).0.0 == raw.event.0.0
}

// Whether the row is held under its own event and name.
#[tactic(auto, unfolding(crate::specs::Raw::stands_under))]
fn stands_under(raw: &RawRow, row: &Row) -> bool
    requires { spelling.Spells raw.now.bytes row.now }
    ensures { result ≡ stands_under raw.now row.now }
{
    is_at_event(raw, row) && is_named(raw, row)
}

fn bad_row<T>(raw: &RawRow) -> Result<T, RowFault>
    ensures fault { IfErr result (λ fault. row_in raw.now ≡ None → IsNoRow raw.now fault) }
    ensures err { IsErr result }
{
    Err(RowFault::BadRow {
        name: raw.name.clone()?,
    })
}

/// The row that is held there.
#[tactic(auto, unfolding(crate::specs::Raw::row_in))]
pub(crate) fn decode_row(alloc: Global, raw: &RawRow) -> Result<Row, RowFault>
    ensures ok { IfOk result (λ row. row_in raw.now ≡ Some row) }
    ensures bad { IfErr result (IsNoRow raw.now) }
{
    match decode(alloc, raw.bytes.as_slice()) {
        Ok(row) => {
            if stands_under(raw, &row) {
                Ok(row)
            } else {
                drop(row);
                bad_row(raw)
            }
        }
        Err(DecodeFault::BadRow { .. }) => bad_row(raw),
        Err(DecodeFault::NoMemory) => Err(RowFault::NoMemory),
    }
}

// Adds the row that is held there.
fn add_row(alloc: Global, rows: &mut Vec<Row>, raw: &RawRow) -> Result<(), RowFault>
    ensures ok { OnOk result (Some rows.new.items
        ≡ option_map (λ row. rows.old.items ++ row ∷ []) (row_in raw.now)) }
    ensures bad { IfErr result (IsNoRow raw.now) }
{
    Ok(rows.push(decode_row(alloc, raw)?)?)
}

/// The rows that are held there, or the first that is none.
#[tactic(auto, unfolding(crate::specs::Raw::rows_in))]
pub(crate) fn decode_rows(alloc: Global, raws: &[RawRow]) -> Result<Vec<Row>, RowFault>
    ensures ok { IfOk result (λ rows. rows_in raws.now ≡ Ok rows.items) }
    ensures bad { IfErr result (NamesBadRow (rows_in raws.now)) }
{
    let mut rows = Vec::with_capacity(alloc, raws.len())?;
    for raw in raws {
        add_row(alloc, &mut rows, raw)?;
    }
    Ok(rows)
}

/// A row as a keeper holds it.
#[tactic(auto, unfolding(crate::specs::Raw::raw_row, misp_model::specs::Machine::name_bytes))]
pub(crate) fn raw_row(alloc: Global, row: &Row) -> Result<RawRow, NoMemory>
    ensures ok { IfOk result (λ raw. raw ≡ raw_row row.now) }
    ensures row { IsRow row.now }
{
    Ok(RawRow {
        event: event_of(row),
        name: Items::of(encode_name(alloc, &row.owner, &row.key)?),
        bytes: Items::of(encode(alloc, row)?),
    })
}

/// Rows as a keeper holds them.
pub(crate) fn raw_rows(alloc: Global, rows: &[Row]) -> Result<Vec<RawRow>, NoMemory>
    ensures { IfOk result (λ raws. raws.items ≡ map raw_row rows.now) }
{
    let mut raws = Vec::with_capacity(alloc, rows.len())?;
    for row in rows {
        raws.push(raw_row(alloc, row)?)?;
    }
    Ok(raws)
}
