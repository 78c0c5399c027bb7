//! Rows by what they are about.

ghost use Rattle.std.specs.Prelude.{◌≡◌, map, IfOk};
ghost use Rattle.std.specs.List.{filter, list_any};
ghost use Rattle.misp_copies.specs.Keys.{key_cmp, target_of, is_about};
ghost use Rattle.misp_copies.specs.StatementsByTarget.{IsByTarget};

use crate::keys::{compare, target_of};
use crate::rows::copies_of;
use misp_elem::{Key, KeyForm, Row};
use misp_ids::{Items, NoMemory};
use std::alloc::Global;
use std::cmp::Ordering;
use std::marker::Model;

/// Rows by what they are about, so that those about one key are found by binary search.
///
/// A contract sees them as the list of the rows.
#[derive(Drop)]
pub struct StatementsByTarget<'a> {
    rows: Vec<&'a Row>,
}

impl<'a> Model for StatementsByTarget<'a> {
    ghost use Rattle.std.specs.Prelude.{List, map};
    ghost use Rattle.misp_elem.specs.declared.row.RowFields.{RowFields as Row};
    ghost use Rattle.misp_copies.specs.StatementsByTarget.{AreByTarget};

    ghost Value = { List Row };

    ghost view = { λ s. map (λ r. r.now) s.rows.items };

    ghost invariant = { λ s. AreByTarget s.rows.items };
}

// How what the row is about stands to the key. An element or a reference is about itself.
#[tactic(auto, unfolding(crate::specs::Keys::target_of))]
fn compare_to(row: &Row, key: &Key) -> Ordering
    ensures { result ≡ key_cmp (target_of row.now.key) key.now }
{
    match &row.key.form {
        KeyForm::Element { .. } | KeyForm::Reference { .. } => compare(&row.key, key),
        _ => compare(&target_of(row), key),
    }
}

// How what the first row is about stands to what the second is about.
#[tactic(auto, unfolding(crate::specs::Keys::target_of))]
fn compare_targets(a: &Row, b: &Row) -> Ordering
    ensures { result ≡ key_cmp (target_of a.now.key) (target_of b.now.key) }
{
    match &b.key.form {
        KeyForm::Element { .. } | KeyForm::Reference { .. } => compare_to(a, &b.key),
        _ => compare_to(a, &target_of(b)),
    }
}

impl<'a> StatementsByTarget<'a> {
    /// These rows by what they are about, those about one key in the order in which they stood.
    pub fn of(rows: Vec<&'a Row>) -> Result<StatementsByTarget<'a>, NoMemory>
        ensures { IfOk result (λ statements.
            IsByTarget statements (map (λ r. r.now) rows.entry.items)) }
    {
        let mut rows = rows;
        rows.sort_by(|a, b| compare_targets(a, b))?;
        Ok(StatementsByTarget { rows })
    }

    // Those that are about the key.
    fn part(&self, key: &Key) -> &[&'a Row]
        ensures { map (λ r. r.now) result.now ≡ filter (λ r. is_about key.now r.key) self.now }
    {
        let rows = self.rows.as_slice();
        let low = rows.partition_point(|row| compare_to(row, key).is_lt());
        let rest = &rows[low..];
        let count = rest.partition_point(|row| compare_to(row, key).is_le());
        &rest[..count]
    }

    /// Whether one is about the key.
    #[tactic(auto, using(crate::proofs::Searches::any_left))]
    pub fn has(&self, key: &Key) -> bool
        ensures { result ≡ list_any (λ r. is_about key.now r.key) self.now }
    {
        !self.part(key).is_empty()
    }

    /// Copies of those that are about the key.
    pub fn about(&self, alloc: Global, key: &Key) -> Result<Items<Row>, NoMemory>
        ensures { IfOk result (λ kept. kept ≡ filter (λ r. is_about key.now r.key) self.now) }
    {
        let part = self.part(key);
        if part.is_empty() {
            return Ok(Items::of(Vec::new(alloc)));
        }
        copies_of(alloc, part)
    }
}
