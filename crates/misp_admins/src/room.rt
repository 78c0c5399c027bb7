//! Room for an item, so that it is put without memory.

ghost use Rattle.std.specs.Prelude.{◌≡◌, [], IfOk, OnErr};
ghost use Rattle.misp_admins.specs.Made.{put_item};
ghost use Rattle.misp_admins.specs.Rooms.{roomy};

use crate::held_item::HeldItem;
use crate::item::Item;
use crate::lists::Lists;
use misp_ids::{Items, NoMemory};
use misp_orgs::Admin;
use std::alloc::Global;
use std::marker::Model;
use std::mem;

/// An administration with memory for one item more.
///
/// A contract sees the administration and the item.
#[derive(Drop)]
pub struct Room {
    lists: Lists,
    item: HeldItem,
}

impl Model for Room {
    ghost use Rattle.misp_orgs.specs.Admin.{IsAdmin};
    ghost use Rattle.misp_admins.specs.Rooms.{RoomFields, roomy, admin_in, item_in, HasRoom};

    ghost Value = { RoomFields };

    ghost view = { λ r. roomy (admin_in r.lists) (item_in r.item) };

    ghost invariant = { λ r. IsAdmin (admin_in r.lists) × HasRoom r.lists r.item };
}

// An administration without organisations, keys and links.
fn empty(alloc: Global) -> Admin
    ensures { result ≡ record { orgs = []; keys = []; links = [] } }
{
    Admin {
        orgs: Items::of(Vec::new(alloc)),
        keys: Items::of(Vec::new(alloc)),
        links: Items::of(Vec::new(alloc)),
    }
}

impl Room {
    /// Takes memory for an item, and takes the administration out: nothing is left there.
    pub fn of(admin: &mut Admin, alloc: Global, item: Item) -> Result<Room, NoMemory>
        ensures ok { IfOk result (λ room. room ≡ roomy admin.old item) }
        ensures err { OnErr result (admin.new ≡ admin.old) }
    {
        let item = HeldItem::of(alloc, item)?;
        let mut lists = Lists::of(mem::replace(admin, empty(alloc)));
        if let Err(full) = lists.reserve(&item) {
            *admin = lists.into_admin();
            return Err(full);
        }
        Ok(Room { lists, item })
    }

    /// The administration with the item. It takes no memory.
    pub fn put(self) -> Admin
        ensures { result ≡ put_item self.item self.admin }
    {
        let mut lists = self.lists;
        lists.put(self.item);
        lists.into_admin()
    }

    /// The administration without the item.
    pub fn into_admin(self) -> Admin
        ensures { result ≡ self.admin }
    {
        self.lists.into_admin()
    }
}
