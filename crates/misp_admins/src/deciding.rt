//! What becomes of an ask.

ghost use Rattle.std.specs.Prelude.{◌≡◌, None, Some, IfOk, IfErr, OnOk};
ghost use Rattle.misp_admins.specs.Asks.{Decides, is_given_org, item_of, link_edited, why_not};

use crate::ask::{AdminAsk, LinkEdit};
use crate::item::Item;
use misp_ids::{ApiKey, OrgId, RuleName};
use misp_orgs::{Admin, KeyRecord, Link, Org};

#[tactic(auto, unfolding(crate::specs::Asks::first_ground, crate::specs::Asks::item_of))]
fn decide_org(admin: &Admin, org: Org) -> Result<Item, RuleName>
    ensures { Decides admin.now (AdminAsk.AddOrg org) result }
{
    if admin.is_known(&org.uuid) || admin.is_named(org.name.as_str()) {
        return Err(RuleName::OrgExists);
    }
    Ok(Item::Org(org))
}

#[tactic(auto, unfolding(crate::specs::Asks::first_ground, crate::specs::Asks::item_of))]
fn decide_key(admin: &Admin, key: KeyRecord) -> Result<Item, RuleName>
    ensures { Decides admin.now (AdminAsk.AddKey key) result }
{
    if !admin.is_known(&key.org) {
        return Err(RuleName::NoOrg);
    }
    if admin.record(&key.key).is_some() {
        return Err(RuleName::KeyExists);
    }
    Ok(Item::Key(key))
}

#[tactic(auto, unfolding(crate::specs::Asks::first_ground, crate::specs::Asks::item_of))]
fn decide_revoked(admin: &Admin, key: ApiKey) -> Result<Item, RuleName>
    ensures { Decides admin.now (AdminAsk.RevokeKey key) result }
{
    match admin.record(&key) {
        Some(record) if !record.revoked => Ok(Item::Key(KeyRecord {
            revoked: true,
            ..*record
        })),
        _ => Err(RuleName::UnknownKey),
    }
}

#[tactic(auto, unfolding(crate::specs::Asks::first_ground, crate::specs::Asks::item_of))]
fn decide_link(admin: &Admin, link: Link) -> Result<Item, RuleName>
    ensures { Decides admin.now (AdminAsk.AddLink link) result }
{
    if !admin.is_known(&link.holder) || !admin.is_known(&link.push_org) {
        return Err(RuleName::NoOrg);
    }
    if admin.link(&link.name).is_some() {
        return Err(RuleName::LinkExists);
    }
    Ok(Item::Link(link))
}

fn is_given_org(admin: &Admin, org: &Option<OrgId>) -> bool
    ensures { result ≡ is_given_org admin.now org.now }
{
    match org {
        Some(org) => admin.is_known(org),
        None => true,
    }
}

fn link_edited(edit: &LinkEdit, link: &Link) -> Link
    ensures { result ≡ link_edited edit.now link.now }
{
    Link {
        key: edit.key.unwrap_or(link.key),
        holder: edit.holder.unwrap_or(link.holder),
        push_org: edit.push_org.unwrap_or(link.push_org),
        on: edit.on.unwrap_or(link.on),
        ..*link
    }
}

#[tactic(auto, unfolding(crate::specs::Asks::first_ground, crate::specs::Asks::item_of))]
fn decide_edit(admin: &Admin, edit: LinkEdit) -> Result<Item, RuleName>
    ensures { Decides admin.now (AdminAsk.EditLink edit) result }
{
    let Some(link) = admin.link(&edit.name) else {
        return Err(RuleName::NoLink);
    };
    if !is_given_org(admin, &edit.holder) || !is_given_org(admin, &edit.push_org) {
        return Err(RuleName::NoOrg);
    }
    Ok(Item::Link(link_edited(&edit, link)))
}

/// What an ask makes of an administration, or the first rule against it. It takes no memory.
pub fn decide(admin: &Admin, ask: AdminAsk) -> Result<Item, RuleName>
    ensures item { IfOk result (λ item. item_of admin.now ask ≡ Some item) }
    ensures taken { OnOk result (why_not admin.now ask ≡ None) }
    ensures refused { IfErr result (λ rule. why_not admin.now ask ≡ Some rule) }
{
    match ask {
        AdminAsk::AddOrg(org) => decide_org(admin, org),
        AdminAsk::AddKey(key) => decide_key(admin, key),
        AdminAsk::RevokeKey(key) => decide_revoked(admin, key),
        AdminAsk::AddLink(link) => decide_link(admin, link),
        AdminAsk::EditLink(edit) => decide_edit(admin, edit),
    }
}
