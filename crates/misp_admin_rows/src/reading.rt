//! Items that are read from rows.

ghost use Rattle.std.specs.Prelude.{◌≡◌, IfOk};
ghost use Rattle.misp_elem.specs.Reading.{org_at};
ghost use Rattle.misp_admin_rows.specs.Reads.{GivesAll, GivesItem, ReadsAll};
ghost use Rattle.misp_admin_rows.specs.Rows.{all_of, api_key_at, item_in, key_in, link_in, name_in, org_in};

use crate::fault::{BadField, Stop};
use crate::kinds::{KEY_KIND, LINK_KIND, ORG_KIND};
use crate::reader::Reader;
use misp_admins::Item;
use misp_ids::{ApiKey, InstId, NoMemory, OrgId};
use misp_orgs::{KeyRecord, Link, Org};
use misp_outside::AdminRow;
use std::alloc::Global;

// The organisation whose row has this name.
fn org_under(name: &[u8]) -> Result<OrgId, BadField>
    ensures { ReadsAll result (all_of org_at name.now) }
{
    let mut reader = Reader::of(name);
    let uuid = reader.org()?;
    reader.end()?;
    Ok(uuid)
}

fn read_org(alloc: Global, name: &[u8], bytes: &[u8]) -> Result<Org, Stop>
    ensures { GivesAll result (org_in name.now bytes.now) }
{
    let uuid = org_under(name)?;
    let mut reader = Reader::of(bytes);
    let name = reader.org_name(alloc)?;
    reader.end()?;
    Ok(Org { uuid, name })
}

// The key whose row has this name.
fn key_under(name: &[u8]) -> Result<ApiKey, BadField>
    ensures { ReadsAll result (all_of api_key_at name.now) }
{
    let mut reader = Reader::of(name);
    let key = reader.api_key()?;
    reader.end()?;
    Ok(key)
}

#[tactic(auto, unfolding(crate::specs::Rows::key_told_at))]
fn read_key(name: &[u8], bytes: &[u8]) -> Result<KeyRecord, BadField>
    ensures { ReadsAll result (key_in name.now bytes.now) }
{
    let key = key_under(name)?;
    let mut reader = Reader::of(bytes);
    let org = reader.org()?;
    let role = reader.role()?;
    let (revoked, internal) = reader.flags()?;
    let partner = reader.partner(role)?;
    reader.end()?;
    Ok(KeyRecord {
        key,
        org,
        role,
        partner,
        revoked,
        internal,
    })
}

// The link whose row has this name.
fn link_under(name: &[u8]) -> Result<InstId, BadField>
    ensures { ReadsAll result (name_in name.now) }
{
    InstId::from_bytes(name).ok_or(BadField)
}

#[tactic(auto, unfolding(crate::specs::Rows::link_told_at))]
fn read_link(name: &[u8], bytes: &[u8]) -> Result<Link, BadField>
    ensures { ReadsAll result (link_in name.now bytes.now) }
{
    let name = link_under(name)?;
    let mut reader = Reader::of(bytes);
    let peer = reader.inst()?;
    let key = reader.api_key()?;
    let holder = reader.org()?;
    let push_org = reader.org()?;
    let (on, internal) = reader.flags()?;
    reader.end()?;
    Ok(Link {
        name,
        peer,
        key,
        holder,
        push_org,
        on,
        internal,
    })
}

#[tactic(auto, unfolding(crate::specs::Rows::item_in), using(crate::proofs::Texts::unread_item))]
fn item_of(alloc: Global, row: &AdminRow) -> Result<Item, Stop>
    ensures { GivesItem result (item_in row.now) }
{
    let name = row.name.as_slice();
    let bytes = row.bytes.as_slice();
    match row.kind {
        ORG_KIND => Ok(Item::Org(read_org(alloc, name, bytes)?)),
        KEY_KIND => Ok(Item::Key(read_key(name, bytes)?)),
        LINK_KIND => Ok(Item::Link(read_link(name, bytes)?)),
        _ => Err(Stop::BadField),
    }
}

/// The item that is held there, if the row is an item's.
pub fn read_item(alloc: Global, row: &AdminRow) -> Result<Option<Item>, NoMemory>
    ensures { IfOk result (λ item. item ≡ item_in row.now) }
{
    match item_of(alloc, row) {
        Ok(item) => Ok(Some(item)),
        Err(Stop::BadField) => Ok(None),
        Err(Stop::NoMemory) => Err(NoMemory),
    }
}
