//! Links to other instances.

use misp_ids::{ApiKey, InstId, OrgId};

/// A link of an instance to another.
#[derive(Clone, Copy, PartialEq, Eq)]
pub struct Link {
    pub name: InstId,
    /// The other instance.
    pub peer: InstId,
    /// The key by which this instance asks there.
    pub key: ApiKey,
    /// Whose become the rows that a pull takes.
    pub holder: OrgId,
    /// Whose rights decide what a push sends.
    pub push_org: OrgId,
    /// Whether the link is in use.
    pub on: bool,
    /// Both instances are of one host, and a push over the link lowers no label.
    pub internal: bool,
}
