//! What an organisation knows.

ghost use Rattle.std.specs.Prelude.{◌≡◌, ◌||◌, IfOk};
ghost use Rattle.misp_ids.specs.Same.{same_org};
ghost use Rattle.misp_model.specs.View.{known};
ghost use Rattle.misp_copies.specs.Grants.{granted_in};

use crate::grants::Grants;
use crate::viewer::Viewer;
use misp_elem::Row;
use misp_groups::Groups;
use misp_ids::{InstId, NoMemory, OrgId};
use std::alloc::Global;

// Whether the organisation knows one of the rows.
#[tactic(auto, unfolding(misp_ids::specs::Same::same_org))]
fn is_known(grants: &Grants, who: &Viewer, row: &Row) -> bool
    ensures { result ≡ (same_org row.now.owner who.now.org
        || granted_in grants.now who.now.groups.now who.now.here who.now.org row.now) }
{
    row.owner == who.org || grants.has(who, row)
}

/// The rows that the organisation knows at this instance: what is granted to it, and all that is
/// its own.
pub fn known(
    alloc: Global,
    rows: Vec<Row>,
    groups: &Groups,
    here: &InstId,
    org: &OrgId,
) -> Result<Vec<Row>, NoMemory>
    ensures { IfOk result (λ kept. kept.items ≡ known rows.items groups.now here.now org.now) }
{
    let who = Viewer {
        groups,
        here: *here,
        org: *org,
    };
    let grants = Grants::of(alloc, rows.as_slice(), &who)?;
    let mut rows = rows;
    rows.retain(|row| is_known(&grants, &who, row));
    Ok(rows)
}
