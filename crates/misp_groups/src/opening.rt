//! What a label opens.

ghost use Rattle.std.specs.Prelude.{◌≡◌, List};
ghost use Rattle.misp_groups.specs.declared.group.GroupFields.{GroupFields as Group};
ghost use Rattle.misp_ids.specs.Same.{Inst};
ghost use Rattle.misp_groups.specs.Audience.{is_open};
ghost use Rattle.misp_groups.specs.Audience.{SaysOfGroup};

use misp_ids::{Label, OrgId};

/// Whether a row of `owner` with this label is open to `org`. `group_allows` says whether the
/// label's group is known and allows the organisation; of a label without a group it says nothing.
#[tactic(auto, unfolding(crate::specs::Audience::is_open, crate::specs::Audience::label_opens, misp_ids::specs::Same::same_org))]
pub fn open(org: &OrgId, owner: &OrgId, label: &Label, group_allows: bool) -> bool
    ensures { (groups : List Group) (here : Inst) →
        SaysOfGroup groups here org.now label.now group_allows →
        result ≡ is_open groups here org.now owner.now label.now }
{
    org == owner
        || match label {
            Label::Own => false,
            Label::Community | Label::Connected | Label::All | Label::Inherit => true,
            Label::Group(_) => group_allows,
        }
}
