//! Reads the list of the groups that pass.

ghost use Rattle.std.specs.Prelude.{◌≡◌, IfOk, IfSome, map};
ghost use Rattle.std.specs.List.{AllByRecursion};
ghost use Rattle.std.specs.Result.{result_ok};
ghost use Rattle.serde_json.specs.View.{items_of, view};
ghost use Rattle.misp_groups.specs.Group.{IsGroup};
ghost use Rattle.misp_format.specs.Groups.{group_body_at};
ghost use Rattle.misp_client.specs.Bodies.{groups_at, groups_from, groups_in};

use misp_fields::list;
use misp_format::{FormatFault, read_group, read_json};
use misp_groups::Group;
use misp_ids::{Items, NoMemory};
use serde_json::Value;
use std::alloc::Global;

// The group that a value is.
fn group_in(alloc: Global, value: &Value) -> Result<Option<Group>, NoMemory>
    ensures value { IfOk result (λ found. found ≡ result_ok (group_body_at (view value.now))) }
    ensures fits { IfOk result (λ found. IfSome found IsGroup) }
{
    match read_group(alloc, value) {
        Ok(group) => {
            let _carried = group.carried;
            Ok(Some(group))
        }
        Err(FormatFault::NoMemory) => Err(NoMemory),
        Err(_) => Ok(None),
    }
}

// The groups of a list, where each item is one.
fn groups_listed(alloc: Global, list: &[Value]) -> Result<Option<Items<Group>>, NoMemory>
    ensures value { IfOk result (λ found. found ≡ groups_from (items_of (map view list.now))) }
    ensures each { IfOk result (λ found. IfSome found (AllByRecursion IsGroup)) }
{
    let mut groups = Vec::new(alloc);
    for value in list {
        let Some(group) = group_in(alloc, value)? else {
            return Ok(None);
        };
        groups.push(group)?;
    }
    Ok(Some(Items::of(groups)))
}

// The groups of which a value is the list.
#[tactic(auto, unfolding(crate::specs::Bodies::groups_at))]
fn groups_at(alloc: Global, value: &Value) -> Result<Option<Items<Group>>, NoMemory>
    ensures value { IfOk result (λ found. found ≡ groups_at (view value.now)) }
    ensures each { IfOk result (λ found. IfSome found (AllByRecursion IsGroup)) }
{
    match list(value) {
        Ok(items) => groups_listed(alloc, items),
        Err(_) => Ok(None),
    }
}

/// The groups of which a body is the list.
#[tactic(auto, unfolding(crate::specs::Bodies::groups_in))]
pub(crate) fn read_groups(alloc: Global, body: &[u8]) -> Result<Option<Items<Group>>, NoMemory>
    ensures value { IfOk result (λ found. found ≡ groups_in body.now) }
    ensures each { IfOk result (λ found. IfSome found (AllByRecursion IsGroup)) }
{
    match read_json(alloc, body) {
        Ok(value) => groups_at(alloc, &value),
        Err(FormatFault::NoMemory) => Err(NoMemory),
        Err(_) => Ok(None),
    }
}
