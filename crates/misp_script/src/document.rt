//! The text of a description, and its lists of tables.

ghost use Rattle.std.specs.Prelude.{◌≡◌, map, codes};
ghost use Rattle.toml.specs.View.{table_view, items_view, view};
ghost use Rattle.misp_script.specs.declared.fault.DescNeed.TheVariants as needs;
ghost use Rattle.misp_script.specs.Faults.{Gives, bad, bad_if};
ghost use Rattle.misp_script.specs.Seen.{Shows};
ghost use Rattle.misp_script.specs.Network.{parsed_at, document_at, all_tables, is_table_list, is_list_name, all_known, items_in, entries_at, at_most, within_limits};

use crate::fault::{DescFault, DescNeed};
use crate::listed::named_among;
use misp_ids::Text;
use std::alloc::Global;
use std::str;
use toml::{Table, Value};

/// The most organisations of a description.
pub const ORG_LIMIT: usize = 1000;

/// The most instances.
pub const INSTANCE_LIMIT: usize = 16;

/// The most keys.
pub const KEY_LIMIT: usize = 1000;

/// The most links.
pub const LINK_LIMIT: usize = 200;

/// A fault at a path.
pub(crate) fn refused<T>(alloc: Global, path: &str, need: DescNeed) -> Result<T, DescFault>
    ensures { Gives result (bad path.now need) }
{
    Err(DescFault::Bad {
        path: Text::of(String::from_str(alloc, path)?),
        need,
    })
}

/// A fault at a path where a test holds.
pub(crate) fn refused_if(
    alloc: Global,
    test: bool,
    path: &str,
    need: DescNeed,
) -> Result<(), DescFault>
    ensures { Gives result (bad_if test path.now need) }
{
    if test {
        return refused(alloc, path, need);
    }
    Ok(())
}

fn no_table(alloc: Global) -> Result<Table, DescFault>
    ensures { Shows (λ t. table_view t) result (bad (codes "-") needs.Toml) }
{
    refused(alloc, "-", DescNeed::Toml)
}

fn parsed(alloc: Global, text: &str) -> Result<Table, DescFault>
    ensures { Shows (λ t. table_view t) result (parsed_at text.now) }
{
    match toml::table_from_str(alloc, text) {
        Ok(table) => Ok(table),
        Err(e) => {
            if e.is_memory() {
                Err(DescFault::NoMemory)
            } else {
                no_table(alloc)
            }
        }
    }
}

/// The table that the text says.
pub(crate) fn document(alloc: Global, bytes: &[u8]) -> Result<Table, DescFault>
    ensures { Shows (λ t. table_view t) result (document_at bytes.now) }
{
    match str::from_utf8(bytes) {
        Ok(text) => parsed(alloc, text),
        Err(_) => no_table(alloc),
    }
}

fn all_tables(items: &[Value]) -> bool
    ensures { result ≡ all_tables (items_view items.now) }
{
    for item in items {
        if item.as_table().is_none() {
            return false;
        }
    }
    true
}

fn is_table_list(value: &Value) -> bool
    ensures { result ≡ is_table_list (view value.now) }
{
    match value.as_array() {
        Some(items) => all_tables(items.as_slice()),
        None => false,
    }
}

fn is_list_name(name: &str) -> bool
    ensures { result ≡ is_list_name name.now }
{
    named_among(&["org", "instance", "key", "link"], name)
}

/// Each member of the whole is one of the lists of tables.
pub(crate) fn all_known(alloc: Global, table: &Table) -> Result<(), DescFault>
    ensures { Gives result (all_known (table_view table.now)) }
{
    for (name, value) in table.iter() {
        if !is_list_name(name.as_str()) || !is_table_list(value) {
            return refused(alloc, name.as_str(), DescNeed::Member);
        }
    }
    Ok(())
}

fn items_in(value: &Value) -> &[Value]
    ensures { map view result.now ≡ items_in (view value.now) }
{
    match value.as_array() {
        Some(items) => items.as_slice(),
        None => &[],
    }
}

/// The entries of a list, which may be left out.
pub(crate) fn entries<'a>(table: &'a Table, name: &str) -> &'a [Value]
    ensures { map view result.now ≡ entries_at name.now (table_view table.now) }
{
    match table.get(name) {
        Some(value) => items_in(value),
        None => &[],
    }
}

fn at_most(alloc: Global, limit: usize, name: &str, table: &Table) -> Result<(), DescFault>
    ensures { Gives result (at_most limit name.now (entries_at name.now (table_view table.now))) }
{
    refused_if(
        alloc,
        entries(table, name).len() > limit,
        name,
        DescNeed::Limit,
    )
}

/// No list is longer than its limit.
pub(crate) fn within_limits(alloc: Global, table: &Table) -> Result<(), DescFault>
    ensures { Gives result (within_limits (table_view table.now)) }
{
    at_most(alloc, ORG_LIMIT, "org", table)?;
    at_most(alloc, INSTANCE_LIMIT, "instance", table)?;
    at_most(alloc, KEY_LIMIT, "key", table)?;
    at_most(alloc, LINK_LIMIT, "link", table)
}
