//! Whole sharing groups as they are written.

ghost use Rattle.std.specs.Prelude.{◌≡◌, ◌++◌, Ok, IfOk, OnOk, string_bytes};
ghost use Rattle.misp_groups.specs.Group.{IsGroup};
ghost use Rattle.misp_format.specs.GroupText.{group_in_text};
ghost use Rattle.misp_format.specs.Tokens.{put_value};
ghost use Rattle.misp_format.specs.WholeGroup.{server_url, named_server_data, whole_group_data, group_text, groups_text, uncarried};

use crate::writing::group_names::GroupNames;
use crate::writing::listed::{Listed, put_list, put_list_text};
use crate::writing::writer::Writer;
use misp_groups::{Group, GroupOrg, GroupServer};
use misp_ids::{InstId, NoMemory};
use std::alloc::Global;
use std::collections::BTreeMap;

// ---- organisations

/// The organisations of a group.
struct GroupOrgs;

impl Listed for GroupOrgs {
    ghost use Rattle.misp_format.specs.WholeGroup.{group_org_data};

    type Item = GroupOrg;

    ghost value = { λ _. group_org_data };

    #[tactic(auto, unfolding(crate::specs::WholeGroup::group_org_data))]
    fn put(out: &mut Writer, _names: &GroupNames, org: &GroupOrg) -> Result<(), NoMemory> {
        out.begin_object()?;
        out.org("Organisation", &org.org, org.name.as_str())?;
        out.flag("extend", org.extend)?;
        out.end_object()?;
        Ok(())
    }
}

// ---- instances

/// The place of an instance in the web.
fn server_url(alloc: Global, name: &str) -> Result<String, NoMemory>
    ensures { IfOk result (λ text. string_bytes text ≡ server_url name.now) }
{
    let mut text = String::from_str(alloc, "http://")?;
    text.push_str(name)?;
    text.push_str("/")?;
    Ok(text)
}

/// An instance, by its name and its place in the web.
#[tactic(auto)]
fn put_server(out: &mut Writer, name: &InstId) -> Result<(), NoMemory>
    ensures { OnOk result (out.new ≡ put_value (named_server_data name.now) out.old) }
{
    let alloc = out.alloc;
    out.begin_object()?;
    out.text("name", name.text())?;
    out.text("url", server_url(alloc, name.text())?.as_str())?;
    out.end_object()?;
    Ok(())
}

/// The instances of a group.
struct GroupServers;

impl Listed for GroupServers {
    ghost use Rattle.misp_format.specs.WholeGroup.{group_server_data};

    type Item = GroupServer;

    ghost value = { λ _. group_server_data };

    #[tactic(auto, unfolding(crate::specs::WholeGroup::group_server_data))]
    fn put(out: &mut Writer, _names: &GroupNames, server: &GroupServer) -> Result<(), NoMemory> {
        out.begin_object()?;
        out.name("Server")?;
        put_server(out, &server.name)?;
        out.flag("all_orgs", server.all_orgs)?;
        out.end_object()?;
        Ok(())
    }
}

// ---- groups

/// Whole groups.
struct Groups;

impl Listed for Groups {
    ghost use Rattle.misp_format.specs.WholeGroup.{whole_group_data};

    type Item = Group;

    ghost value = { λ _. whole_group_data };

    fn put(out: &mut Writer, names: &GroupNames, group: &Group) -> Result<(), NoMemory> {
        put_group(out, names, group)
    }
}

fn put_group(out: &mut Writer, names: &GroupNames, group: &Group) -> Result<(), NoMemory>
    ensures written { OnOk result (out.new ≡ put_value (whole_group_data group.now) out.old) }
    ensures fits { OnOk result (IsGroup group.now) }
{
    out.begin_object()?;
    put_list::<GroupOrgs>(out, "SharingGroupOrg", names, group.orgs.as_slice())?;
    put_list::<GroupServers>(out, "SharingGroupServer", names, group.servers.as_slice())?;
    out.flag("active", group.active)?;
    out.text("description", group.description.as_str())?;
    out.number("modified", group.modified.get())?;
    out.text("name", group.name.as_str())?;
    out.uuid("organisation_uuid", &group.id.creator.0)?;
    out.text("releasability", group.releasability.as_str())?;
    out.flag("roaming", group.roaming)?;
    out.uuid("uuid", &group.id.uuid)?;
    out.end_object()?;
    Ok(())
}

/// The text of a group.
pub fn write_group(alloc: Global, group: &Group) -> Result<Vec<u8>, NoMemory>
    // The text, byte for byte.
    ensures text { IfOk result (λ bytes. bytes.items ≡ group_text group.now) }
    // It is read as the group again.
    ensures read_back { IfOk result (λ bytes. group_in_text bytes.items
        ≡ Ok (uncarried group.now)) }
{
    let mut out = Writer::behind(alloc, Vec::new(alloc));
    put_group(&mut out, &BTreeMap::new(alloc), group)?;
    Ok(out.into_text())
}

/// Puts the text of a list of groups at the end of a text.
pub fn put_groups(lines: &mut Vec<u8>, alloc: Global, groups: &[Group]) -> Result<(), NoMemory>
    ensures { OnOk result (lines.new.items ≡ lines.old.items ++ groups_text groups.now) }
{
    let names = BTreeMap::new(alloc);
    put_list_text::<Groups>(lines, alloc, &names, groups)
}
