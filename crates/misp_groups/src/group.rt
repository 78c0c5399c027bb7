//! A sharing group.

use misp_ids::{GroupId, InstId, Items, OrgId, Stamp, Text};
use std::marker::Model;

/// An organisation of a group.
#[derive(Drop)]
pub struct GroupOrg {
    pub org: OrgId,
    pub name: Text,
    /// Whether it may extend the group. It is kept, and nothing acts on it.
    pub extend: bool,
}

/// An instance of a group.
#[derive(Drop)]
pub struct GroupServer {
    pub name: InstId,
    /// Whether all organisations of the instance belong to the group.
    pub all_orgs: bool,
}

/// A sharing group, named by its creator and its uuid. Its own name is not empty, its organisations
/// ascend by their identifiers, and its instances by the bytes of their names.
///
/// A contract sees it as its fields.
#[derive(Drop)]
pub struct Group {
    pub id: GroupId,
    pub name: Text,
    pub description: Text,
    pub releasability: Text,
    pub active: bool,
    pub roaming: bool,
    pub orgs: Items<GroupOrg>,
    pub servers: Items<GroupServer>,
    pub modified: Stamp,
    /// Came by a synchronisation.
    pub carried: bool,
}

/// The fields of a group, whether they fit or not.
#[derive(Drop)]
pub struct GroupFields {
    pub id: GroupId,
    pub name: Text,
    pub description: Text,
    pub releasability: Text,
    pub active: bool,
    pub roaming: bool,
    pub orgs: Items<GroupOrg>,
    pub servers: Items<GroupServer>,
    pub modified: Stamp,
    pub carried: bool,
}

impl Model for Group {
    ghost use Rattle.misp_groups.specs.declared.group.GroupFields.{GroupFields};

    ghost Value = { GroupFields };

    ghost use Rattle.misp_groups.specs.Group.{IsGroup};

    ghost view = { λ g. record {
      id = g.id;
      name = g.name;
      description = g.description;
      releasability = g.releasability;
      active = g.active;
      roaming = g.roaming;
      orgs = g.orgs;
      servers = g.servers;
      modified = g.modified;
      carried = g.carried;
    } };

    ghost invariant = { λ g. IsGroup (record {
      id = g.id;
      name = g.name;
      description = g.description;
      releasability = g.releasability;
      active = g.active;
      roaming = g.roaming;
      orgs = g.orgs;
      servers = g.servers;
      modified = g.modified;
      carried = g.carried;
    }) };
}

impl Group {
    ghost use Rattle.std.specs.Prelude.{◌≡◌};
    ghost use Rattle.misp_groups.specs.Group.{IsGroup, home};

    /// The group of these fields.
    pub fn of(fields: GroupFields) -> Group
        requires { IsGroup fields }
        ensures { result ≡ fields }
    {
        let GroupFields {
            id,
            name,
            description,
            releasability,
            active,
            roaming,
            orgs,
            servers,
            modified,
            carried,
        } = fields;
        Group {
            id,
            name,
            description,
            releasability,
            active,
            roaming,
            orgs,
            servers,
            modified,
            carried,
        }
    }

    /// The group as one of this instance, with this stamp.
    pub fn home(mut self, stamp: Stamp) -> Group
        ensures { result ≡ home self stamp }
    {
        self.modified = stamp;
        self.carried = false;
        self
    }
}
