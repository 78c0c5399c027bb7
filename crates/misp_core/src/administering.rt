//! How a group is planned to be added or edited.

ghost use Rattle.std.specs.Prelude.{◌≡◌, None, Some, IfOk, IfErr, OnOk};
ghost use Rattle.misp_groups.specs.Changes.{group_now};
ghost use Rattle.misp_groups.specs.Groups.{why_not};
ghost use Rattle.misp_core.specs.Administering.{taken, administered};
ghost use Rattle.misp_core.specs.Planning.{Plans};

use crate::planning::{Batch, NoPlan, Plan};
use crate::reply::Answer;
use misp_groups::{Group, Groups};
use misp_ids::{Items, OrgId, Refusal, RuleName, Stamp};
use std::alloc::Global;

// The plan that puts a group.
fn group_put(alloc: Global, group: Group) -> Result<Plan, NoPlan>
    ensures { Plans result (taken group) }
{
    let mut groups = Vec::with_capacity(alloc, 1)?;
    groups.push(group)?;
    Ok(Plan {
        answer: Answer::Taken(1),
        batch: Some(Batch {
            rows: Items::of(Vec::new(alloc)),
            groups: Items::of(groups),
        }),
    })
}

// The group as it is to be put, or the first rule against it.
fn changed(
    groups: &Groups,
    now: Stamp,
    by: &OrgId,
    group: Group,
    add: bool,
) -> Result<Group, RuleName>
    ensures free { OnOk result (why_not add groups.now by.now group.id ≡ None) }
    ensures group { IfOk result (λ changed. changed ≡ group_now now group groups.now) }
    ensures err { IfErr result (λ rule. why_not add groups.now by.now group.id ≡ Some rule) }
{
    if add {
        groups.added(by, group, now)
    } else {
        groups.edited(by, group, now)
    }
}

/// What is planned where an organisation adds a group at this moment, or edits the one of its name.
pub(crate) fn plan_group(
    alloc: Global,
    groups: &Groups,
    now: Stamp,
    by: &OrgId,
    group: Group,
    add: bool,
) -> Result<Plan, NoPlan>
    ensures { Plans result (administered now by.now add group groups.now) }
{
    match changed(groups, now, by, group, add) {
        Ok(group) => group_put(alloc, group),
        Err(rule) => Err(NoPlan::Refused(Refusal::bare(alloc, rule))),
    }
}
