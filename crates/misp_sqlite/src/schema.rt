//! Whether a schema has the table, and nothing else.

ghost use Rattle.std.specs.Prelude.{◌≡◌, true, [], ◌∷◌, IsTrue};
ghost use Rattle.sqlite_value.specs.declared.value.Value.TheVariants.{Null};
ghost use Rattle.sqlite_value.specs.declared.keys.Collation.TheVariants.{Binary};
ghost use Rattle.misp_sqlite.specs.Kept.{kept, kept_index, kept_schema, no_schema};

use sqlite_schema::schema::{Column, Index, Kind, Schema, Table};
use sqlite_value::keys::Collation;
use sqlite_value::value::Value;

fn is_column(column: &Column, name: &[u8], kind: Kind) -> bool
    ensures { IsTrue result → column.now ≡ record {
      name = name.now;
      kind = kind;
      is_strict = true;
      not_null = true;
      default = Null;
      collation = Binary;
    } }
{
    column.name.as_slice() == name
        && column.kind == kind
        && column.is_strict
        && column.not_null
        && matches!(column.default, Value::Null)
        && column.collation == Collation::Binary
}

fn are_columns(columns: &[Column]) -> bool
    ensures { IsTrue result → columns.now ≡ kept.columns }
{
    match columns {
        [event, kind, name, bytes] => is_column(event, b"event".as_slice(), Kind::Blob)
            && is_column(kind, b"kind".as_slice(), Kind::Integer)
            && is_column(name, b"name".as_slice(), Kind::Blob)
            && is_column(bytes, b"bytes".as_slice(), Kind::Blob),
        _ => false,
    }
}

/// The places of the event, the kind and the name.
fn is_key(places: &[usize]) -> bool
    ensures { IsTrue result → places.now ≡ 1 ∷ 2 ∷ 3 ∷ [] }
{
    matches!(places, [1, 2, 3])
}

fn has_key(table: &Table) -> bool
    ensures primary { IsTrue result → table.now.primary ≡ kept.primary }
    ensures uniques { IsTrue result → table.now.uniques ≡ kept.uniques }
    ensures orders { IsTrue result → table.now.orders ≡ kept.orders }
{
    match (table.uniques.as_slice(), table.orders.as_slice()) {
        ([key], [order]) => is_key(table.primary.as_slice())
            && is_key(key.as_slice())
            && order.digits == 0,
        _ => false,
    }
}

/// It has no key that is a rowid, no check, no reference and no default that is computed.
fn is_plain(table: &Table) -> bool
    ensures key { IsTrue result → table.now.key ≡ kept.key }
    ensures checks { IsTrue result → table.now.checks ≡ kept.checks }
    ensures references { IsTrue result → table.now.references ≡ kept.references }
    ensures computed { IsTrue result → table.now.computed ≡ kept.computed }
    ensures stamps { IsTrue result → table.now.stamps ≡ kept.stamps }
    ensures counted { IsTrue result → table.now.is_counted ≡ kept.is_counted }
{
    table.key.is_none()
        && table.checks.roots.is_empty()
        && table.references.is_empty()
        && table.computed.is_empty()
        && table.stamps.places.is_empty()
        && table.stamps.terms.roots.is_empty()
        && table.stamps.formats.is_empty()
        && !table.is_counted
}

fn is_table(table: &Table) -> bool
    ensures { IsTrue result → table.now ≡ kept }
{
    table.name.as_slice() == b"kept_row".as_slice()
        && table.tree == 0
        && are_columns(table.columns.as_slice())
        && has_key(table)
        && is_plain(table)
}

fn is_index(index: &Index) -> bool
    ensures { IsTrue result → index.now ≡ kept_index }
{
    index.name.as_slice() == b"sqlite_autoindex_kept_row_1".as_slice()
        && index.tree == 1
        && index.table == 0
        && is_key(index.columns.as_slice())
        && index.order.digits == 0
        && index.is_unique
}

fn are_tables(tables: &[Table]) -> bool
    ensures { IsTrue result → tables.now ≡ kept ∷ [] }
{
    match tables {
        [table] => is_table(table),
        _ => false,
    }
}

fn are_indexes(indexes: &[Index]) -> bool
    ensures { IsTrue result → indexes.now ≡ kept_index ∷ [] }
{
    match indexes {
        [index] => is_index(index),
        _ => false,
    }
}

pub(crate) fn is_kept(schema: &Schema) -> bool
    ensures { IsTrue result → schema.now ≡ kept_schema }
{
    if !are_tables(schema.tables.as_slice()) {
        return false;
    }
    if !are_indexes(schema.indexes.as_slice()) {
        return false;
    }
    schema.views.is_empty()
}

/// Whether the schema has nothing.
pub(crate) fn is_empty(schema: &Schema) -> bool
    ensures { IsTrue result → schema.now ≡ no_schema }
{
    schema.tables.is_empty() && schema.indexes.is_empty() && schema.views.is_empty()
}
