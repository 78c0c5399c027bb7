//! Copies of groups.

ghost use Rattle.std.specs.Prelude.{◌≡◌, IfOk};

use crate::group::{Group, GroupOrg, GroupServer};
use misp_ids::{Items, NoMemory};
use std::alloc::AllocError;

impl Clone for GroupOrg {
    ghost is_clone = { λ member copy. copy ≡ member };

    fn clone(&self) -> Result<GroupOrg, AllocError> {
        Ok(GroupOrg {
            org: self.org,
            name: self.name.clone()?,
            extend: self.extend,
        })
    }
}

impl Clone for GroupServer {
    ghost is_clone = { λ server copy. copy ≡ server };

    fn clone(&self) -> Result<GroupServer, AllocError> {
        Ok(GroupServer {
            name: self.name,
            all_orgs: self.all_orgs,
        })
    }
}

fn orgs_of(orgs: &Items<GroupOrg>) -> Result<Items<GroupOrg>, AllocError>
    ensures { IfOk result (λ copy. copy ≡ orgs.now) }
{
    let copy = orgs.clone()?;
    Ok(copy)
}

fn servers_of(servers: &Items<GroupServer>) -> Result<Items<GroupServer>, AllocError>
    ensures { IfOk result (λ copy. copy ≡ servers.now) }
{
    let copy = servers.clone()?;
    Ok(copy)
}

impl Group {
    /// The same group once more.
    pub fn copied(&self) -> Result<Group, NoMemory>
        ensures { IfOk result (λ copy. copy ≡ self.now) }
    {
        Ok(Group {
            id: self.id,
            name: self.name.clone()?,
            description: self.description.clone()?,
            releasability: self.releasability.clone()?,
            active: self.active,
            roaming: self.roaming,
            orgs: orgs_of(&self.orgs)?,
            servers: servers_of(&self.servers)?,
            modified: self.modified,
            carried: self.carried,
        })
    }
}
