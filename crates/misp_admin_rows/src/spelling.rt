//! Items as rows.

ghost use Rattle.std.specs.Prelude.{◌≡◌, ◌++◌, ◌∷◌, ◌<◌, ◌^◌, [], length, IfOk, OnOk};
ghost use Rattle.misp_elem.specs.Spelling as spelling;
ghost use Rattle.misp_admin_rows.specs.Rows.{item_row, key_row, link_row, optional_inst, org_row, role_number};

use crate::kinds::{KEY_KIND, LINK_KIND, ORG_KIND};
use misp_admins::Item;
use misp_ids::{InstId, Items, NoMemory, OrgId, Text};
use misp_orgs::{KeyRecord, Link, Org, Role};
use misp_outside::AdminRow;
use std::alloc::{AllocError, Global};

#[tactic(auto, unfolding(misp_elem::specs::Spelling::uid))]
fn put_org(out: &mut Vec<u8>, org: OrgId) -> Result<(), AllocError>
    ensures { OnOk result (out.new.items ≡ out.old.items ++ spelling.uid org.0) }
{
    out.extend_from_slice(&org.0.0.to_be_bytes())
}

#[tactic(auto, unfolding(misp_elem::specs::Spelling::text))]
fn put_text(out: &mut Vec<u8>, text: &Text) -> Result<(), AllocError>
    requires { length text.now < 2 ^ 32 }
    ensures { OnOk result (out.new.items ≡ out.old.items ++ spelling.text text.now) }
{
    let text = text.as_str().as_bytes();
    out.extend_from_slice(&(text.len() as u32).to_be_bytes())?;
    out.extend_from_slice(text)
}

fn put_inst(out: &mut Vec<u8>, name: &InstId) -> Result<(), AllocError>
    ensures { OnOk result (out.new.items ≡ out.old.items ++ spelling.inst_name name.now) }
{
    let name = name.text();
    out.push(name.len() as u8)?;
    out.extend_from_slice(name.as_bytes())
}

fn put_optional_inst(out: &mut Vec<u8>, name: &Option<InstId>) -> Result<(), AllocError>
    ensures { OnOk result (out.new.items ≡ out.old.items ++ optional_inst name.now) }
{
    match name {
        None => {
            out.push(0)?;
            Ok(())
        }
        Some(name) => {
            out.push(1)?;
            put_inst(out, name)
        }
    }
}

fn put_flags(out: &mut Vec<u8>, first: bool, second: bool) -> Result<(), AllocError>
    ensures { OnOk result (out.new.items ≡ out.old.items ++ spelling.flags (first, second)) }
{
    out.push(match (first, second) {
        (false, false) => 0,
        (true, false) => 1,
        (false, true) => 2,
        (true, true) => 3,
    })?;
    Ok(())
}

fn role_number(role: Role) -> u8
    ensures { result ≡ role_number role }
{
    match role {
        Role::Reader => 0,
        Role::User => 1,
        Role::Publisher => 2,
        Role::OrgAdmin => 3,
        Role::Sync => 4,
        Role::SiteAdmin => 5,
    }
}

fn org_row(alloc: Global, org: &Org) -> Result<AdminRow, NoMemory>
    ensures { IfOk result (λ row. row ≡ org_row org.now) }
{
    let mut name = Vec::with_capacity(alloc, 16)?;
    put_org(&mut name, org.uuid)?;
    let mut bytes = Vec::new(alloc);
    put_text(&mut bytes, &org.name)?;
    Ok(AdminRow {
        kind: ORG_KIND,
        name: Items::of(name),
        bytes: Items::of(bytes),
    })
}

fn key_row(alloc: Global, key: &KeyRecord) -> Result<AdminRow, NoMemory>
    ensures { IfOk result (λ row. row ≡ key_row key.now) }
{
    let mut name = Vec::with_capacity(alloc, 40)?;
    name.extend_from_slice(key.key.text().as_bytes())?;
    let mut bytes = Vec::new(alloc);
    put_org(&mut bytes, key.org)?;
    bytes.push(role_number(key.role))?;
    put_flags(&mut bytes, key.revoked, key.internal)?;
    put_optional_inst(&mut bytes, &key.partner)?;
    Ok(AdminRow {
        kind: KEY_KIND,
        name: Items::of(name),
        bytes: Items::of(bytes),
    })
}

fn link_row(alloc: Global, link: &Link) -> Result<AdminRow, NoMemory>
    ensures { IfOk result (λ row. row ≡ link_row link.now) }
{
    let mut name = Vec::new(alloc);
    name.extend_from_slice(link.name.text().as_bytes())?;
    let mut bytes = Vec::new(alloc);
    put_inst(&mut bytes, &link.peer)?;
    bytes.extend_from_slice(link.key.text().as_bytes())?;
    put_org(&mut bytes, link.holder)?;
    put_org(&mut bytes, link.push_org)?;
    put_flags(&mut bytes, link.on, link.internal)?;
    Ok(AdminRow {
        kind: LINK_KIND,
        name: Items::of(name),
        bytes: Items::of(bytes),
    })
}

/// An item as a keeper holds it.
#[tactic(auto, unfolding(crate::specs::Rows::item_row))]
pub fn item_row(alloc: Global, item: &Item) -> Result<AdminRow, NoMemory>
    ensures { IfOk result (λ row. row ≡ item_row item.now) }
{
    match item {
        Item::Org(org) => org_row(alloc, org),
        Item::Key(key) => key_row(alloc, key),
        Item::Link(link) => link_row(alloc, link),
    }
}
