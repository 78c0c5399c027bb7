//! Items in memory of their own.

ghost use Rattle.std.specs.Prelude.{◌≡◌, IfOk};
ghost use Rattle.misp_admins.specs.Rooms.{item_in};

use crate::item::Item;
use misp_ids::NoMemory;
use misp_orgs::{HeldKey, Link, Org};
use std::alloc::Global;

/// An item as the lists of an administration hold it.
#[derive(Drop)]
pub(crate) enum HeldItem {
    Org(Org),
    Key(HeldKey),
    Link(Link),
}

impl HeldItem {
    // Takes the memory that the item needs for itself.
    pub(crate) fn of(alloc: Global, item: Item) -> Result<HeldItem, NoMemory>
        ensures { IfOk result (λ held. item_in held ≡ item) }
    {
        Ok(match item {
            Item::Org(org) => HeldItem::Org(org),
            Item::Key(key) => HeldItem::Key(HeldKey::of(alloc, key)?),
            Item::Link(link) => HeldItem::Link(link),
        })
    }
}
