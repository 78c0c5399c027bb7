//! Sharing groups as a keeper holds them.

ghost use Rattle.std.specs.Prelude.{◌≡◌, ◌&&◌, Some, None, map, option_map, IfOk, IfErr, OnOk, IsErr, bytes_eq};
ghost use Rattle.misp_outside.specs.Held.{same_admin};
ghost use Rattle.misp_groups.specs.Changes.{put_group};
ghost use Rattle.misp_store.specs.Sharing.{group_name, group_row, group_told, is_row_of, group_in, IsStorable, AreStorable};
ghost use Rattle.misp_store.specs.Decoding.{IsNoGroup};

use crate::fault::RowFault;
use misp_format::{FormatFault, read_group_text, write_group};
use misp_groups::{Group, Groups};
use misp_ids::{GroupId, Items, NoMemory};
use misp_outside::AdminRow;
use std::alloc::Global;

/// The kind of the rows of groups.
const GROUP_KIND: u8 = 1;

// The name under which a group is held.
#[tactic(auto, unfolding(crate::specs::Sharing::group_name, misp_elem::specs::Spelling::uid))]
fn group_name(alloc: Global, id: &GroupId) -> Result<Vec<u8>, NoMemory>
    ensures { IfOk result (λ name. name.items ≡ group_name id.now) }
{
    let mut name = Vec::with_capacity(alloc, 32)?;
    name.extend_from_slice(&id.creator.0.0.to_be_bytes())?;
    name.extend_from_slice(&id.uuid.0.to_be_bytes())?;
    Ok(name)
}

// A group as a keeper holds it.
#[tactic(auto, unfolding(crate::specs::Sharing::group_row))]
fn group_row(alloc: Global, group: &Group) -> Result<AdminRow, NoMemory>
    ensures row { IfOk result (λ row. row ≡ group_row group.now) }
    ensures storable { OnOk result (IsStorable group.now) }
{
    let name = group_name(alloc, &group.id)?;
    let mut bytes = Vec::new(alloc);
    bytes.push(u8::from(group.carried))?;
    let text = write_group(alloc, group)?;
    bytes.extend_from_slice(&text)?;
    Ok(AdminRow {
        kind: GROUP_KIND,
        name: Items::of(name),
        bytes: Items::of(bytes),
    })
}

/// Groups as a keeper holds them.
pub(crate) fn group_rows(alloc: Global, groups: &[Group]) -> Result<Vec<AdminRow>, NoMemory>
    ensures rows { IfOk result (λ rows. rows.items ≡ map group_row groups.now) }
    ensures storable { OnOk result (AreStorable groups.now) }
{
    let mut rows = Vec::with_capacity(alloc, groups.len())?;
    for group in groups {
        rows.push(group_row(alloc, group)?)?;
    }
    Ok(rows)
}

// The group that a flag and a text tell.
#[tactic(auto, unfolding(crate::specs::Sharing::group_told))]
fn group_told(alloc: Global, bytes: &[u8]) -> Result<Option<Group>, NoMemory>
    ensures { IfOk result (λ group. group ≡ group_told bytes.now) }
{
    let Some((flag, text)) = bytes.split_first() else {
        return Ok(None);
    };
    match read_group_text(alloc, text) {
        Ok(mut group) => {
            group.carried = *flag == 1;
            Ok(Some(group))
        }
        Err(FormatFault::NoMemory) => Err(NoMemory),
        Err(_) => Ok(None),
    }
}

#[tactic(auto, unfolding(misp_outside::specs::Held::same_admin))]
fn same_row(a: &AdminRow, b: &AdminRow) -> bool
    ensures { result ≡ (same_admin a.now b.now && bytes_eq a.now.bytes b.now.bytes) }
{
    a.kind == b.kind
        && a.name.as_slice() == b.name.as_slice()
        && a.bytes.as_slice() == b.bytes.as_slice()
}

// Whether the row is just that of this group.
fn is_row_of(alloc: Global, row: &AdminRow, group: &Group) -> Result<bool, NoMemory>
    ensures { IfOk result (λ is. is ≡ is_row_of row.now group.now) }
{
    let own = group_row(alloc, group)?;
    Ok(same_row(row, &own))
}

fn bad_row<T>(row: &AdminRow) -> Result<T, RowFault>
    ensures fault { IfErr result (λ fault. group_in row.now ≡ None → IsNoGroup row.now fault) }
    ensures err { IsErr result }
{
    Err(RowFault::BadRow {
        name: row.name.clone()?,
    })
}

// The group that the bytes of the row tell, where it is just the row of that group.
#[tactic(auto, unfolding(crate::specs::Sharing::group_in))]
fn placed(alloc: Global, row: &AdminRow, group: Group) -> Result<Group, RowFault>
    requires { group_told row.now.bytes ≡ Some group }
    ensures ok { IfOk result (λ placed. group_in row.now ≡ Some placed) }
    ensures bad { IfErr result (IsNoGroup row.now) }
{
    match is_row_of(alloc, row, &group) {
        Ok(true) => Ok(group),
        Ok(false) => {
            drop(group);
            bad_row(row)
        }
        Err(NoMemory) => {
            drop(group);
            Err(RowFault::NoMemory)
        }
    }
}

// The group that is held there.
#[tactic(auto, unfolding(crate::specs::Sharing::group_in))]
fn decode_group(alloc: Global, row: &AdminRow) -> Result<Group, RowFault>
    ensures ok { IfOk result (λ group. group_in row.now ≡ Some group) }
    ensures bad { IfErr result (IsNoGroup row.now) }
{
    match group_told(alloc, row.bytes.as_slice()) {
        Ok(Some(group)) => placed(alloc, row, group),
        Ok(None) => bad_row(row),
        Err(NoMemory) => Err(RowFault::NoMemory),
    }
}

/// Puts the group that is held there in its place.
pub(crate) fn put_held(alloc: Global, groups: &mut Groups, row: &AdminRow) -> Result<(), RowFault>
    ensures ok { OnOk result (Some groups.new
        ≡ option_map (λ group. put_group group groups.old) (group_in row.now)) }
    ensures bad { IfErr result (IsNoGroup row.now) }
{
    let group = decode_group(alloc, row)?;
    drop(groups.put(group)?);
    Ok(())
}
