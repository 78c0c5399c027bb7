//! What the organisation of a synchronisation knows at its sender, and what of it is granted.

ghost use Rattle.std.specs.Prelude.{◌≡◌, not, ◌||◌, map, IfOk, OnOk};
ghost use Rattle.std.specs.List.{filter};
ghost use Rattle.misp_ids.specs.Same.{same_org};
ghost use Rattle.misp_elem.specs.Row.{AreRows, IsRow};
ghost use Rattle.misp_copies.specs.Grants.{granted_in};
ghost use Rattle.misp_package.specs.Knowledge.{is_known_in, granted_of_known};

use misp_copies::{Grants, Viewer, is_same_org};
use misp_elem::Row;
use misp_ids::NoMemory;
use std::alloc::Global;

// Whether the organisation knows the row: it is granted to it, or its own.
#[tactic(auto, unfolding(crate::specs::Knowledge::is_known_in, crate::specs::Knowledge::granted_to))]
fn is_known(grants: &Grants, who: &Viewer, row: &Row) -> bool
    ensures known { result ≡ is_known_in grants.now who.now row.now }
    ensures row { IsRow row.now }
{
    is_same_org(&row.owner, &who.org) || grants.has(who, row)
}

/// The rows that the organisation knows.
#[tactic(auto, using(misp_copies::proofs::RowLists::rows_all))]
pub(crate) fn known<'a>(
    alloc: Global,
    rows: &'a [Row],
    grants: &Grants,
    who: &Viewer,
) -> Result<Vec<&'a Row>, NoMemory>
    ensures known { IfOk result (λ list. map (λ r. r.now) list.items
        ≡ filter (is_known_in grants.now who.now) rows.now) }
    ensures rows { OnOk result (AreRows rows.now) }
{
    let mut list = Vec::new(alloc);
    for row in rows {
        if is_known(grants, who, row) {
            list.push(row)?;
        }
    }
    Ok(list)
}

// Whether a row that the organisation knows is granted to it. Of those of other owners all are.
#[tactic(auto, unfolding(crate::specs::Knowledge::granted_of_known, crate::specs::Knowledge::granted_to))]
fn is_granted(grants: &Grants, who: &Viewer, row: &Row) -> bool
    ensures { result ≡ granted_of_known grants.now who.now row.now }
{
    !is_same_org(&row.owner, &who.org) || grants.has(who, row)
}

/// Those of the rows that it knows that are granted to it.
pub(crate) fn granted<'a>(
    alloc: Global,
    known: &[&'a Row],
    grants: &Grants,
    who: &Viewer,
) -> Result<Vec<&'a Row>, NoMemory>
    ensures { IfOk result (λ list. map (λ r. r.now) list.items
        ≡ filter (granted_of_known grants.now who.now) (map (λ r. r.now) known.now)) }
{
    let mut list = Vec::new(alloc);
    for row in known {
        if is_granted(grants, who, row) {
            list.push(*row)?;
        }
    }
    Ok(list)
}
