//! Rows in the order of their keys.

ghost use Rattle.std.specs.Prelude.{◌≡◌, map, IfOk};
ghost use Rattle.misp_lists.specs.Order.{sorted_by};
ghost use Rattle.misp_copies.specs.Keys.{key_cmp};
ghost use Rattle.misp_package.specs.Packing.{key_order};

use misp_elem::{Row, compare_keys};
use misp_ids::NoMemory;
use std::cmp::Ordering;

/// How the key of the first stands to that of the second.
pub(crate) fn compare(a: &Row, b: &Row) -> Ordering
    ensures { result ≡ key_order a.now b.now }
{
    compare_keys(&a.key, &b.key)
}

/// The rows in the order of their keys.
pub(crate) fn by_keys<'a>(rows: Vec<&'a Row>) -> Result<Vec<&'a Row>, NoMemory>
    ensures { IfOk result (λ list. map (λ r. r.now) list.items
        ≡ sorted_by key_order (map (λ r. r.now) rows.entry.items)) }
{
    let mut list = rows;
    list.sort_by(|a, b| compare(a, b))?;
    Ok(list)
}
