//! Who looks.

use misp_groups::Groups;
use misp_ids::{InstId, OrgId};

/// An organisation that looks, the instance where it looks, and the groups that are known there.
#[derive(Drop)]
pub struct Viewer<'a> {
    pub groups: &'a Groups,
    pub here: InstId,
    pub org: OrgId,
}
