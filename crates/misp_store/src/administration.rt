//! What a keeper holds of the administration: groups and items.

ghost use Rattle.std.specs.Prelude.{◌≡◌, ◌++◌, ◌∷◌, Ok, Err, [], IfOk, IfErr, IfSome, OnOk};
ghost use Rattle.misp_outside.specs.Causes.{HasCause, StaysUnless};
ghost use Rattle.misp_outside.specs.Reporting.{StaysHeld};
ghost use Rattle.misp_admin_rows.specs.Rows.{items_in};
ghost use Rattle.misp_store.specs.Loading.{NamesFault};
ghost use Rattle.misp_store.specs.Decoding.{put_onto, NamesBadGroup};
ghost use Rattle.misp_store.specs.Sharing.{HoldsGroups, groups_in};

use crate::fault::{LoadFault, RowFault};
use crate::sharing::put_held;
use misp_admin_rows::read_item;
use misp_admins::Item;
use misp_groups::Groups;
use misp_ids::Items;
use misp_outside::{AdminRow, Keeper};
use std::alloc::Global;

/// The groups and the items that are held.
#[derive(Drop)]
pub struct HeldAdmin {
    pub groups: Groups,
    /// In the order in which their rows are held.
    pub items: Items<Item>,
}

// Puts what is held there in its place: an item behind the others, or a group.
fn add_held(
    alloc: Global,
    groups: &mut Groups,
    items: &mut Vec<Item>,
    row: &AdminRow,
) -> Result<(), RowFault>
    ensures groups { OnOk result (put_onto groups.old (groups_in (row.now ∷ [])) ≡ Ok groups.new) }
    ensures items { OnOk result (items.new.items ≡ items.old.items ++ items_in (row.now ∷ [])) }
    ensures bad { IfErr result (NamesBadGroup (groups_in (row.now ∷ []))) }
{
    match read_item(alloc, row)? {
        Some(item) => Ok(items.push(item)?),
        None => put_held(alloc, groups, row),
    }
}

// The groups and the items that are held there, or the first row that is neither.
fn decode_admin(alloc: Global, rows: &[AdminRow]) -> Result<HeldAdmin, RowFault>
    ensures groups { IfOk result (λ held. put_onto [] (groups_in rows.now) ≡ Ok held.groups) }
    ensures items { IfOk result (λ held. held.items ≡ items_in rows.now) }
    ensures bad { IfErr result (NamesBadGroup (groups_in rows.now)) }
{
    let mut groups = Groups::new(alloc);
    let mut items = Vec::new(alloc);
    for row in rows {
        add_held(alloc, &mut groups, &mut items, row)?;
    }
    Ok(HeldAdmin {
        groups,
        items: Items::of(items),
    })
}

/// The groups and the items that the keeper holds.
pub fn load_admin<K: Keeper>(keeper: &mut K, alloc: Global) -> Result<HeldAdmin, LoadFault>
    ensures groups { IfOk result (λ found. HoldsGroups (K.state keeper.new).held found.groups) }
    ensures items { IfOk result (λ found. IfSome (K.state keeper.new).held
        (λ held. found.items ≡ items_in held.admin)) }
    ensures bad { IfErr result (λ fault.
        IfSome (K.state keeper.new).held (λ held. NamesFault (groups_in held.admin) fault)) }
    ensures held { StaysHeld (K.state keeper.old).held (K.state keeper.new).held }
    ensures cause { HasCause (K.state keeper.old).faults (K.state keeper.new).faults
        (result ≡ Err LoadFault.KeeperFault) }
    ensures stays { StaysUnless (K.state keeper.old).faults (K.state keeper.new).faults
        (result ≡ Err LoadFault.KeeperFault) }
{
    let rows = keeper.load_admin(alloc)?;
    Ok(decode_admin(alloc, &rows)?)
}
