//! Sharing groups as they are written, with their names.

ghost use Rattle.std.specs.Prelude.{◌≡◌, OnOk, IfOk};
ghost use Rattle.misp_format.specs.Fields.{group_data, group_names};
ghost use Rattle.misp_format.specs.Names.{names_in};
ghost use Rattle.misp_format.specs.Tokens.{put_value, put_group};

use crate::writing::writer::Writer;
use misp_ids::{GroupId, Label, NoMemory, Text};
use std::alloc::Global;
use std::collections::BTreeMap;

/// The names of groups.
pub(crate) type GroupNames = BTreeMap<GroupId, Text>;

/// The names that a list gives, where the first of a group counts.
pub(crate) fn group_names(alloc: Global, listed: &[(GroupId, Text)]) -> Result<GroupNames, NoMemory>
    ensures { IfOk result (λ m. names_in m ≡ group_names listed.now) }
{
    let mut names = BTreeMap::new(alloc);
    let mut index = listed.len();
    while index > 0 {
        index -= 1;
        let (group, name) = &listed[index];
        drop(names.insert(*group, name.clone()?)?);
    }
    Ok(names)
}

/// The name of a group, which is empty where it has none here.
fn name_of<'a>(names: &'a GroupNames, group: &GroupId) -> &'a str
    ensures { result.now ≡ names_in names.now group.now }
{
    match names.get(group) {
        Some(name) => name.as_str(),
        None => "",
    }
}

fn put_group_value(out: &mut Writer, names: &GroupNames, group: &GroupId) -> Result<(), NoMemory>
    ensures { OnOk result (out.new
        ≡ put_value (group_data (names_in names.now) group.now) out.old) }
{
    out.begin_object()?;
    out.text("name", name_of(names, group))?;
    out.uuid("organisation_uuid", &group.creator.0)?;
    out.uuid("uuid", &group.uuid)?;
    out.end_object()?;
    Ok(())
}

/// The member `SharingGroup`, where the label names a group.
#[tactic(auto, unfolding(crate::specs::Tokens::put_member))]
pub(crate) fn put_sharing_group(
    out: &mut Writer,
    names: &GroupNames,
    label: &Label,
) -> Result<(), NoMemory>
    ensures { OnOk result (out.new ≡ put_group (names_in names.now) label.now out.old) }
{
    match label {
        Label::Group(group) => {
            out.name("SharingGroup")?;
            put_group_value(out, names, group)?;
            Ok(())
        }
        _ => Ok(()),
    }
}
