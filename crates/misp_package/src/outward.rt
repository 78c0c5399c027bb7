//! What is let out.

ghost use Rattle.std.specs.Prelude.{◌≡◌};
ghost use Rattle.misp_groups.specs.Audience.{label_lets_out};
ghost use Rattle.misp_history.specs.Passing.{lets_out};
ghost use Rattle.misp_package.specs.Passing.{route_of};

use crate::via::Via;
use misp_elem::Row;
use misp_groups::carries;
use misp_ids::{Label, Way};

// Whether the label lets a row out.
#[tactic(auto, unfolding(misp_groups::specs::Audience::label_lets_out, misp_groups::specs::Audience::group_passes))]
fn label_lets_out(label: &Label, via: &Via) -> bool
    ensures { result
        ≡ label_lets_out via.now.groups.now via.now.way via.now.org via.now.dest label.now }
{
    match (via.way, label) {
        (Way::Push, Label::Own | Label::Community) => false,
        (_, Label::Group(id)) => match via.groups.get(id) {
            Some(group) => carries(group, &via.org, &via.dest),
            None => false,
        },
        _ => true,
    }
}

/// Whether the row is let out.
#[tactic(auto, unfolding(misp_history::specs::Passing::lets_out))]
pub(crate) fn lets_out(row: &Row, via: &Via) -> bool
    ensures { result ≡ lets_out via.now.groups.now (route_of via.now) row.now }
{
    !row.held && label_lets_out(&row.label, via)
}
