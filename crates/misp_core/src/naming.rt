//! The names of organisations, and of what an event names.

ghost use Rattle.std.specs.Prelude.{◌≡◌, ◌≤◌, IfOk, OnOk, length};
ghost use Rattle.misp_core.specs.Answers.{name_in, named_event};

use misp_elem::VisibleEvent;
use misp_groups::Groups;
use misp_ids::{Items, NoMemory, OrgId, Text};
use misp_orgs::Admin;
use misp_view::group_names;
use std::alloc::Global;

/// The name of an organisation, empty where it is not known here.
pub(crate) fn name_text(alloc: Global, admin: &Admin, org: &OrgId) -> Result<Text, NoMemory>
    ensures name { IfOk result (λ name. name ≡ name_in admin.now org.now) }
    ensures short { IfOk result (λ name. length name ≤ 64) }
{
    match admin.name_of(org) {
        Some(name) => Ok(Text::of(String::from_str(alloc, name)?)),
        None => Ok(Text::of(String::new(alloc))),
    }
}

fn holder(event: &VisibleEvent) -> OrgId
    ensures { result ≡ event.now.row.owner }
{
    event.row.owner
}

// Gives the event the name of its holder, and those of the groups that its labels name.
fn put_names(
    alloc: Global,
    admin: &Admin,
    groups: &Groups,
    event: &mut VisibleEvent,
) -> Result<(), NoMemory>
    ensures { OnOk result (event.new ≡ named_event admin.now groups.now event.old) }
{
    let name = name_text(alloc, admin, &holder(event))?;
    let names = group_names(alloc, groups, event)?;
    event.org_name = name;
    event.group_names = Items::of(names);
    Ok(())
}

/// The event with the name of its holder, and with those of the groups that its labels name.
pub(crate) fn named(
    alloc: Global,
    admin: &Admin,
    groups: &Groups,
    event: VisibleEvent,
) -> Result<VisibleEvent, NoMemory>
    ensures { IfOk result (λ named. named ≡ named_event admin.now groups.now event) }
{
    let mut event = event;
    match put_names(alloc, admin, groups, &mut event) {
        Ok(()) => Ok(event),
        Err(NoMemory) => {
            drop(event);
            Err(NoMemory)
        }
    }
}
