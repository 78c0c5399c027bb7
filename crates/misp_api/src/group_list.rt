//! Reads lists of sharing groups.

ghost use Rattle.std.specs.Prelude.{◌≡◌, ◌++◌, [], IfOk, List, ℕ, codes, map};
ghost use Rattle.serde_json.specs.Data.{Data};
ghost use Rattle.serde_json.specs.View.{items_of, view};
ghost use Rattle.misp_format.specs.Groups.{group_body_at};
ghost use Rattle.misp_format.specs.Path.{item_path};
ghost use Rattle.misp_format.specs.Rows as rows;
ghost use Rattle.misp_format.specs.Tables.{unwrapped};
ghost use Rattle.misp_api.specs.GroupList.{first_name, group_at, groups_at, groups_in, next_group};

use misp_fields::{list, member};
use misp_format::{FormatFault, read_group, read_json};
use misp_groups::Group;
use misp_ids::Text;
use serde_json::Value;
use std::alloc::{AllocError, Global};
use std::fmt::Write;

// What is after the first name of a path.
fn after_first_name(path: &str) -> &str
    ensures { (rest : List ℕ) → path.now ≡ first_name ++ rest → result.now ≡ rest }
{
    match path.strip_prefix("SharingGroup") {
        Some(rest) => rest,
        None => path,
    }
}

// A path in the group that has this place in a list.
fn listed_path(alloc: Global, place: usize, rest: &str) -> Result<Text, AllocError>
    ensures { IfOk result (λ text. text ≡ item_path first_name place ++ rest.now) }
{
    let mut text = String::from_str(alloc, "SharingGroup")?;
    write!(text, "[{place}]")?;
    text.push_str(rest)?;
    Ok(Text::of(text))
}

// Why the group that has this place in a list is none, by why it is none alone.
fn listed_fault(alloc: Global, place: usize, fault: FormatFault) -> FormatFault
    ensures { (d : Data) → rows.Fails fault (group_body_at d) →
        rows.Fails result (group_at place d) }
{
    match fault {
        FormatFault::BadField { path, need } => {
            match listed_path(alloc, place, after_first_name(path.as_str())) {
                Ok(path) => FormatFault::BadField { path, need },
                Err(_) => FormatFault::NoMemory,
            }
        }
        FormatFault::BinaryType { path } => FormatFault::BinaryType { path },
        FormatFault::NoJson => FormatFault::NoJson,
        FormatFault::NoMemory => FormatFault::NoMemory,
    }
}

// The group that has this place in a list.
fn group_at(alloc: Global, place: usize, value: &Value) -> Result<Group, FormatFault>
    ensures { rows.Gives result (group_at place (view value.now)) }
{
    match read_group(alloc, value) {
        Ok(group) => Ok(group),
        Err(fault) => Err(listed_fault(alloc, place, fault)),
    }
}

// The groups of a list.
fn groups_listed(alloc: Global, list: &[Value]) -> Result<Vec<Group>, FormatFault>
    ensures { rows.Shows (λ groups. groups.items) result
        (rows.each next_group 0 [] (items_of (map view list.now))) }
{
    let mut groups = Vec::new(alloc);
    for (place, value) in list.iter().enumerate() {
        groups.push(group_at(alloc, place, value)?)?;
    }
    Ok(groups)
}

// What a body brings, which may be in a member of it.
fn unwrapped(body: &Value) -> &Value
    ensures { view result.now ≡ unwrapped first_name (view body.now) }
{
    match member(body, "SharingGroup") {
        Some(inner) => inner,
        None => body,
    }
}

// The groups that a body is the list of.
#[tactic(auto, unfolding(crate::specs::GroupList::groups_at))]
fn groups_at(alloc: Global, body: &Value) -> Result<Vec<Group>, FormatFault>
    ensures { rows.Shows (λ groups. groups.items) result (groups_at (view body.now)) }
{
    match list(unwrapped(body)) {
        Ok(items) => groups_listed(alloc, items),
        Err(need) => Err(FormatFault::BadField {
            path: Text::of(String::from_str(alloc, "SharingGroup")?),
            need,
        }),
    }
}

/// The groups that a text is the list of.
#[tactic(auto, unfolding(crate::specs::GroupList::groups_in))]
pub(crate) fn read_groups(alloc: Global, text: &[u8]) -> Result<Vec<Group>, FormatFault>
    ensures { rows.Shows (λ groups. groups.items) result (groups_in text.now) }
{
    let body = read_json(alloc, text)?;
    groups_at(alloc, &body)
}
