//! What a description says.

ghost use Rattle.std.specs.Prelude.{◌≡◌, IfOk};
ghost use Rattle.misp_script.specs.Directory.{directory_of};

use crate::directory::{Directory, Roster};
use misp_ids::{InstId, Items, NoMemory, OrgId, Text};
use misp_orgs::{Admin, KeyRecord, Link};
use std::alloc::Global;

/// The instances of a network, in the order in which they are listed.
#[derive(Drop)]
pub struct Description {
    pub instances: Items<Entry>,
}

/// An instance, its address, which may be empty, and what is set up there.
#[derive(Drop)]
pub struct Entry {
    pub name: InstId,
    pub address: Text,
    pub admin: Admin,
}

impl Description {
    /// The instances and the organisations known at each, by which lines are read.
    pub fn directory(&self, alloc: Global) -> Result<Directory, NoMemory>
        ensures { IfOk result (λ directory. directory ≡ directory_of self.now) }
    {
        let mut directory = Directory::new(alloc);
        for entry in self.instances.as_slice() {
            directory = directory.with(alloc, Roster::of(alloc, entry)?)?;
        }
        Ok(directory)
    }
}

/// An instance that is listed.
#[derive(Drop)]
pub(crate) struct Host {
    pub(crate) name: InstId,
    pub(crate) address: Text,
    /// The organisation that hosts it, if the description says it.
    pub(crate) org: Option<OrgId>,
}

/// A key, and the instance whose key it is.
#[derive(Clone, Copy)]
pub(crate) struct HostKey {
    pub(crate) at: InstId,
    pub(crate) key: KeyRecord,
}

/// A link, and the instance whose link it is.
#[derive(Clone, Copy)]
pub(crate) struct HostLink {
    pub(crate) at: InstId,
    pub(crate) link: Link,
}
