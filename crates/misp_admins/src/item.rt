//! What a request makes.

ghost use Rattle.misp_ids.specs.Uid.{IsUid};
ghost use Rattle.misp_elem.specs.Fields.{IsText};
ghost use Rattle.misp_orgs.specs.Org.{name_limit};
ghost use Rattle.misp_admins.specs.Made.{IsItem, IsKeyItem, IsLinkItem, IsOptionalInst};

use misp_ids::{InstId, OrgId};
use misp_orgs::{KeyRecord, Link, Org};

/// An organisation, a key or a link, as it stands after a request that made or changed it.
#[derive(Drop)]
pub enum Item {
    Org(Org),
    Key(KeyRecord),
    Link(Link),
}

// Shows that this is an identifier.
fn is_identifier(org: &OrgId)
    ensures { IsUid org.now.0 }
{
    let _number = org.0.0;
}

// Shows that a partner is the name of an instance.
fn is_partner(partner: &Option<InstId>)
    ensures { IsOptionalInst partner.now }
{
    if let Some(name) = partner {
        let _text = name.text();
    }
}

// Shows that the fields of an organisation are such.
#[tactic(auto, using(crate::proofs::Fitting::short_text))]
fn is_org(org: &Org)
    ensures uuid { IsUid org.now.uuid.0 }
    ensures name { IsText 0 name_limit org.now.name }
{
    is_identifier(&org.uuid);
    let _name = org.name.as_str();
}

// Shows that the fields of a key are such.
fn is_key(key: &KeyRecord)
    ensures { IsKeyItem key.now }
{
    is_identifier(&key.org);
    is_partner(&key.partner);
    let _text = key.key.text();
}

// Shows that the fields of a link are such.
fn is_link(link: &Link)
    ensures { IsLinkItem link.now }
{
    is_identifier(&link.holder);
    is_identifier(&link.push_org);
    let _name = link.name.text();
    let _peer = link.peer.text();
    let _key = link.key.text();
}

impl Item {
    /// Shows that identifiers, names and keys of an item are such.
    pub fn is_fit(&self)
        ensures { IsItem self.now }
    {
        match self {
            Item::Org(org) => is_org(org),
            Item::Key(key) => is_key(key),
            Item::Link(link) => is_link(link),
        }
    }
}
