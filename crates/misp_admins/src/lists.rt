//! The lists of an administration, with their memory.

ghost use Rattle.std.specs.Prelude.{◌≡◌, ◌<◌, IfOk, IfErr, OnOk, set, insert, vec_len, vec_capacity};
ghost use Rattle.std.specs.List.Sorted.{IsStrictlySortedBy, IsSearchInRange};
ghost use Rattle.misp_orgs.specs.Admin.{IsAdmin, by_uuid, by_key, by_name};
ghost use Rattle.misp_admins.specs.Made.{put_by, put_item};
ghost use Rattle.misp_admins.specs.Rooms.{admin_in, item_in, HasRoom};

use crate::held_item::HeldItem;
use misp_ids::{Items, NoMemory};
use misp_orgs::{Admin, HeldKey, Link, Org};

/// The organisations, keys and links of an administration.
#[derive(Drop)]
pub(crate) struct Lists {
    pub(crate) orgs: Vec<Org>,
    pub(crate) keys: Vec<HeldKey>,
    pub(crate) links: Vec<Link>,
}

// Puts an item in the place of the one that a search found, or into the gap where it ended.
fn put_at<T: Drop>(list: &mut Vec<T>, at: Result<usize, usize>, item: T)
    requires within { IsSearchInRange at (vec_len list.old) }
    requires room { vec_len list.old < vec_capacity list.old }
    ensures found { IfOk at (λ place. list.new.items ≡ set list.old.items place item) }
    ensures absent { IfErr at (λ gap. list.new.items ≡ insert list.old.items gap item) }
{
    match at {
        Ok(place) => list[place] = item,
        Err(gap) => list.insert(gap, item).unwrap(),
    }
}

fn put_org(orgs: &mut Vec<Org>, org: Org)
    requires ascend { IsStrictlySortedBy by_uuid orgs.old.items }
    requires room { vec_len orgs.old < vec_capacity orgs.old }
    ensures { orgs.new.items ≡ put_by by_uuid org orgs.old.items }
{
    let at = orgs.binary_search_by(|held| held.uuid.0.0.cmp(&org.uuid.0.0));
    put_at(orgs, at, org);
}

fn put_key(keys: &mut Vec<HeldKey>, key: HeldKey)
    requires ascend { IsStrictlySortedBy by_key keys.old.items }
    requires room { vec_len keys.old < vec_capacity keys.old }
    ensures { keys.new.items ≡ put_by by_key key keys.old.items }
{
    let at = keys.binary_search_by(|held| held.record().key.text().cmp(key.record().key.text()));
    put_at(keys, at, key);
}

fn put_link(links: &mut Vec<Link>, link: Link)
    requires ascend { IsStrictlySortedBy by_name links.old.items }
    requires room { vec_len links.old < vec_capacity links.old }
    ensures { links.new.items ≡ put_by by_name link links.old.items }
{
    let at = links.binary_search_by(|held| held.name.text().cmp(link.name.text()));
    put_at(links, at, link);
}

impl Lists {
    pub(crate) fn of(admin: Admin) -> Lists
        ensures same { admin_in result ≡ admin }
        ensures ascend { IsAdmin admin }
    {
        Lists {
            orgs: admin.orgs.into_vec(),
            keys: admin.keys.into_vec(),
            links: admin.links.into_vec(),
        }
    }

    // Takes memory for an item.
    pub(crate) fn reserve(&mut self, item: &HeldItem) -> Result<(), NoMemory>
        ensures same { admin_in self.new ≡ admin_in self.old }
        ensures room { OnOk result (HasRoom self.new item.now) }
    {
        match item {
            HeldItem::Org(_) => self.orgs.reserve(1)?,
            HeldItem::Key(_) => self.keys.reserve(1)?,
            HeldItem::Link(_) => self.links.reserve(1)?,
        }
        Ok(())
    }

    // Puts an item in its place. It takes no memory.
    #[tactic(auto, unfolding(crate::specs::Made::put_item))]
    pub(crate) fn put(&mut self, item: HeldItem)
        requires ascend { IsAdmin (admin_in self.old) }
        requires room { HasRoom self.old item }
        ensures { admin_in self.new ≡ put_item (item_in item) (admin_in self.old) }
    {
        match item {
            HeldItem::Org(org) => put_org(&mut self.orgs, org),
            HeldItem::Key(key) => put_key(&mut self.keys, key),
            HeldItem::Link(link) => put_link(&mut self.links, link),
        }
    }

    pub(crate) fn into_admin(self) -> Admin
        requires { IsAdmin (admin_in self) }
        ensures { result ≡ admin_in self }
    {
        Admin {
            orgs: Items::of(self.orgs),
            keys: Items::of(self.keys),
            links: Items::of(self.links),
        }
    }
}
