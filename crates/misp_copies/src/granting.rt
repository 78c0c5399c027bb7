//! What is granted, and what is live.

ghost use Rattle.std.specs.Prelude.{◌≡◌};
ghost use Rattle.misp_model.specs.View.{element_granted, granted_somewhere, granted, is_live};

use crate::above::{is_kept_above, is_open_above};
use crate::copies::{has_copy, has_gone};
use crate::keys::{are_same, element_key};
use crate::rows::{is_of, is_open};
use crate::viewer::Viewer;
use misp_elem::{Key, KeyForm, Row};
use misp_groups::Groups;
use misp_ids::{InstId, OrgId};

// Whether a row is granted as that of an element or a reference is.
#[tactic(auto, unfolding(misp_model::specs::View::element_granted))]
fn element_granted(rows: &[Row], who: &Viewer, row: &Row) -> bool
    ensures { result
        ≡ element_granted rows.now who.now.groups.now who.now.here who.now.org row.now }
{
    has_copy(rows, &row.owner, &row.key.event())
        && is_open(row, who)
        && is_open_above(rows, who, row)
}

// Whether the element of this key is granted in some copy.
#[tactic(auto, unfolding(misp_model::specs::View::granted_somewhere))]
fn granted_somewhere(rows: &[Row], who: &Viewer, key: &Key) -> bool
    ensures { result
        ≡ granted_somewhere rows.now who.now.groups.now who.now.here who.now.org key.now }
{
    rows.iter().any(|row| are_same(&row.key, key) && element_granted(rows, who, row))
}

/// Whether a row is granted, where the others of its event are these.
#[tactic(auto, unfolding(misp_model::specs::View::granted, misp_model::specs::View::granted_by))]
pub fn is_granted(rows: &[Row], who: &Viewer, row: &Row) -> bool
    ensures { result ≡ granted rows.now who.now.groups.now who.now.here who.now.org row.now }
{
    match &row.key.form {
        KeyForm::Element { .. } | KeyForm::Reference { .. } => { element_granted(rows, who, row) }
        KeyForm::Proposal { event, name } | KeyForm::Verdict { event, name, .. } => {
            is_of(&who.org, row) || granted_somewhere(rows, who, &element_key(*event, name.target))
        }
        KeyForm::Sighting { event, target, .. } => {
            is_of(&who.org, row)
                || has_copy(rows, &who.org, event)
                    && granted_somewhere(rows, who, &element_key(*event, *target))
        }
    }
}

/// Whether a row is granted to the organisation at this instance, where the others of its event are
/// these. It looks through all of them, and for a statement once for each row of its target.
pub fn row_granted(rows: &[Row], groups: &Groups, here: &InstId, org: &OrgId, row: &Row) -> bool
    ensures { result ≡ granted rows.now groups.now here.now org.now row.now }
{
    let who = Viewer {
        groups,
        here: *here,
        org: *org,
    };
    is_granted(rows, &who, row)
}

/// Whether a row is live, where the others of its event are these: neither it nor what stands above
/// it is deleted. It looks through all of them.
#[tactic(auto, unfolding(misp_model::specs::View::is_live, crate::specs::OwnRows::is_kept))]
pub fn live(rows: &[Row], row: &Row) -> bool
    ensures { result ≡ is_live rows.now row.now }
{
    !row.is_deleted() && !has_gone(rows, &row.owner, &row.key.event()) && is_kept_above(rows, row)
}
