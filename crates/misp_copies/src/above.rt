//! What stands above a row in its copy, looked up in all rows.

ghost use Rattle.std.specs.Prelude.{◌≡◌};
ghost use Rattle.std.specs.List.{list_all};
ghost use Rattle.misp_elem.specs.Parents.{parents};
ghost use Rattle.misp_model.specs.View.{has_open};
ghost use Rattle.misp_copies.specs.OwnRows.{is_kept};

use crate::copies::{has_deleted, has_open};
use crate::viewer::Viewer;
use misp_elem::{Row, parents};

/// Whether what stands above the row is open to the organisation in the same copy.
pub fn is_open_above(rows: &[Row], who: &Viewer, row: &Row) -> bool
    ensures { result
        ≡ list_all (has_open rows.now who.now.groups.now who.now.here who.now.org row.now.owner)
        (parents row.now.key) }
{
    let above = parents(&row.key);
    above
        .as_slice()
        .iter()
        .all(|key| has_open(rows, who, &row.owner, key))
}

/// Whether nothing is deleted that stands above the row in the same copy.
#[tactic(auto, unfolding(crate::specs::OwnRows::is_kept))]
pub fn is_kept_above(rows: &[Row], row: &Row) -> bool
    ensures { result ≡ list_all (is_kept rows.now row.now.owner) (parents row.now.key) }
{
    let above = parents(&row.key);
    above
        .as_slice()
        .iter()
        .all(|key| !has_deleted(rows, &row.owner, key))
}
