//! Rows by their keys, and those of one key by their owners.

ghost use Rattle.std.specs.Prelude.{◌≡◌, map, ltb, ◌&&◌, IfOk};
ghost use Rattle.std.specs.List.{list_any};
ghost use Rattle.std.specs.List.Sorted.{IsPermutation};
ghost use Rattle.misp_copies.specs.StatementsByKey.{statement_cmp, is_lesser};

use crate::keys::{are_same, compare};
use misp_elem::Row;
use misp_ids::NoMemory;
use std::alloc::Global;
use std::cmp::Ordering;
use std::marker::Model;

/// Rows by their keys, and those of one key by their owners, so that the least owner of a key is
/// found by binary search.
///
/// A contract sees them as the list of the rows.
#[derive(Drop)]
pub struct StatementsByKey<'a> {
    rows: Vec<&'a Row>,
}

impl<'a> Model for StatementsByKey<'a> {
    ghost use Rattle.std.specs.Prelude.{List, map};
    ghost use Rattle.misp_elem.specs.declared.row.RowFields.{RowFields as Row};
    ghost use Rattle.misp_copies.specs.StatementsByKey.{AreByKey};

    ghost Value = { List Row };

    ghost view = { λ s. map (λ r. r.now) s.rows.items };

    ghost invariant = { λ s. AreByKey s.rows.items };
}

// How the first stands to the second.
fn compare_statements(a: &Row, b: &Row) -> Ordering
    ensures { result ≡ statement_cmp a.now b.now }
{
    compare(&a.key, &b.key).then(a.owner.0.0.cmp(&b.owner.0.0))
}

// Whether the first is of the same key and of a lesser owner.
fn is_lesser(other: &Row, row: &Row) -> bool
    ensures { result ≡ is_lesser row.now other.now }
{
    other.owner.0.0 < row.owner.0.0 && are_same(&other.key, &row.key)
}

impl<'a> StatementsByKey<'a> {
    /// These rows, in that order.
    pub fn of(alloc: Global, rows: &[&'a Row]) -> Result<StatementsByKey<'a>, NoMemory>
        ensures { IfOk result (λ by_key. IsPermutation (map (λ r. r.now) rows.now) by_key) }
    {
        let mut rows = Vec::from_slice(alloc, rows)?;
        rows.sort_by(|a, b| compare_statements(a, b))?;
        Ok(StatementsByKey { rows })
    }

    /// Whether one is of the row's key and of a lesser owner.
    pub fn has_lesser(&self, row: &Row) -> bool
        ensures { result ≡ list_any (is_lesser row.now) self.now }
    {
        let rows = self.rows.as_slice();
        let low = rows.partition_point(|other| compare(&other.key, &row.key).is_lt());
        low < rows.len() && is_lesser(rows[low], row)
    }
}
