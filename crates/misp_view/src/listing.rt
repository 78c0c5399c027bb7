//! The groups that concern an organisation.

ghost use Rattle.std.specs.Prelude.{◌≡◌, ◌||◌, filter, IfOk};
ghost use Rattle.misp_model.specs.Answers.{concerns};
ghost use Rattle.misp_groups.specs.Audience.{allows};
ghost use Rattle.misp_ids.specs.Same.{same_org};

use misp_groups::{Group, Groups, allows};
use misp_ids::{InstId, NoMemory, OrgId};
use std::alloc::Global;

// Whether the organisation created the group, or the group allows it here.
#[tactic(auto, unfolding(misp_ids::specs::Same::same_org))]
fn concerns(group: &Group, org: &OrgId, here: &InstId) -> bool
    ensures { result ≡ concerns org.now here.now group.now }
{
    group.id.creator == *org || allows(group, org, here)
}

/// Those of the groups that concern the organisation, in their order.
pub fn concerning(
    alloc: Global,
    groups: &Groups,
    org: &OrgId,
    here: &InstId,
) -> Result<Vec<Group>, NoMemory>
    ensures { IfOk result (λ some. some.items ≡ filter (concerns org.now here.now) groups.now) }
{
    let mut some = Vec::new(alloc);
    for group in groups.as_slice() {
        if concerns(group, org, here) {
            some.push(group.copied()?)?;
        }
    }
    Ok(some)
}
