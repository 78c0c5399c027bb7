//! What site administrators ask.

use misp_ids::{ApiKey, InstId, OrgId};
use misp_orgs::{KeyRecord, Link, Org};

/// What an edit gives of a link. What it does not give stays.
#[derive(Clone, Copy, PartialEq, Eq)]
pub struct LinkEdit {
    /// The link.
    pub name: InstId,
    pub key: Option<ApiKey>,
    pub holder: Option<OrgId>,
    pub push_org: Option<OrgId>,
    pub on: Option<bool>,
}

/// What a site administrator asks: an organisation, a key or a link is added, a key is revoked, or a
/// link is edited.
#[derive(Drop)]
pub enum AdminAsk {
    AddOrg(Org),
    AddKey(KeyRecord),
    RevokeKey(ApiKey),
    AddLink(Link),
    EditLink(LinkEdit),
}
