//! Labels that the caller may not use.

ghost use Rattle.std.specs.Prelude.{◌≡◌, [], ◌∷◌, map, option_map};
ghost use Rattle.std.specs.List.{find};
ghost use Rattle.misp_ids.specs.declared.label.Label.TheVariants as labels;
ghost use Rattle.misp_groups.specs.Audience.{allows, group_passes};
ghost use Rattle.misp_edit.specs.Labels.{is_unusable};

use misp_elem::Draft;
use misp_groups::{Groups, allows};
use misp_ids::{GroupId, InstId, Label, OrgId};

// Whether the group of this name is known and allows the organisation here.
#[tactic(auto, unfolding(misp_groups::specs::Audience::group_passes))]
fn passes(group: &GroupId, groups: &Groups, here: &InstId, org: &OrgId) -> bool
    ensures { result ≡ group_passes groups.now group.now (λ g. allows g org.now here.now) }
{
    match groups.get(group) {
        Some(group) => allows(group, org, here),
        None => false,
    }
}

// The group that a label names, if the organisation may not use it here.
#[tactic(auto, unfolding(crate::specs::Labels::is_unusable))]
pub(crate) fn unusable_group(
    label: Label,
    groups: &Groups,
    here: &InstId,
    org: &OrgId,
) -> Option<GroupId>
    ensures { option_map labels.Group result
        ≡ find (is_unusable groups.now here.now org.now) (label ∷ []) }
{
    match label {
        Label::Group(group) => {
            if passes(&group, groups, here, org) {
                None
            } else {
                Some(group)
            }
        }
        _ => None,
    }
}

// The first such group that the labels of the parts name.
fn first_of_parts(parts: &[Draft], groups: &Groups, here: &InstId, org: &OrgId) -> Option<GroupId>
    ensures { option_map labels.Group result
        ≡ find (is_unusable groups.now here.now org.now) (map (λ d. d.label) parts.now) }
{
    for draft in parts {
        if let Some(group) = unusable_group(draft.label, groups, here, org) {
            return Some(group);
        }
    }
    None
}

// The first group among those that the labels name, the event's label before the parts', that
// the organisation may not use here.
pub(crate) fn first_unusable(
    label: Label,
    parts: &[Draft],
    groups: &Groups,
    here: &InstId,
    org: &OrgId,
) -> Option<GroupId>
    ensures { option_map labels.Group result ≡ find (is_unusable groups.now here.now org.now)
        (label ∷ map (λ d. d.label) parts.now) }
{
    match unusable_group(label, groups, here, org) {
        Some(group) => Some(group),
        None => first_of_parts(parts, groups, here, org),
    }
}
