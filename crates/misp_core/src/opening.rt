//! What a keeper holds, read when an instance is opened over it.

ghost use Rattle.std.specs.Prelude.{◌≡◌, Err, IfOk, IfErr, IfSome, IsOk, OnOk, OnErr};
ghost use Rattle.misp_outside.specs.Causes.{HasCause, StaysUnless};
ghost use Rattle.misp_outside.specs.Reporting.{StaysHeld, WhereReported};
ghost use Rattle.misp_admins.specs.Made.{with_items};
ghost use Rattle.misp_admin_rows.specs.Rows.{items_in};
ghost use Rattle.misp_store.specs.Loading.{NamesFault};
ghost use Rattle.misp_store.specs.Renewing.{opened, renewed};
ghost use Rattle.misp_store.specs.Sharing.{HoldsGroups, groups_in};

use misp_admins::{Item, Room};
use misp_groups::Groups;
use misp_ids::NoMemory;
use misp_orgs::Admin;
use misp_outside::Keeper;
use misp_store::{HeldAdmin, LoadFault, load_admin, renew};
use std::alloc::Global;

// Puts what was made since, one after another.
fn with_items(alloc: Global, admin: Admin, items: Vec<Item>) -> Result<Admin, NoMemory>
    ensures { IfOk result (λ made. made ≡ with_items admin items.items) }
{
    let mut made = admin;
    for item in items {
        let room = Room::of(&mut made, alloc, item)?;
        made = room.put();
    }
    Ok(made)
}

// The groups that the keeper holds, and what is set up with the items that it holds.
fn load_setup<K: Keeper>(
    keeper: &mut K,
    alloc: Global,
    admin: Admin,
) -> Result<(Groups, Admin), LoadFault>
    ensures groups { IfOk result (λ setup. HoldsGroups (K.state keeper.new).held setup.0) }
    ensures admin { IfOk result (λ setup. IfSome (K.state keeper.new).held
        (λ held. setup.1 ≡ with_items admin (items_in held.admin))) }
    ensures bad { IfErr result (λ fault.
        IfSome (K.state keeper.new).held (λ held. NamesFault (groups_in held.admin) fault)) }
    ensures held { StaysHeld (K.state keeper.old).held (K.state keeper.new).held }
    ensures cause { HasCause (K.state keeper.old).faults (K.state keeper.new).faults
        (result ≡ Err LoadFault.KeeperFault) }
    ensures stays { StaysUnless (K.state keeper.old).faults (K.state keeper.new).faults
        (result ≡ Err LoadFault.KeeperFault) }
{
    let HeldAdmin { groups, items } = load_admin(keeper, alloc)?;
    let made = with_items(alloc, admin, items.into_vec())?;
    Ok((groups, made))
}

/// The groups that the keeper holds, and what is set up with the items that it holds. Every row is
/// read, and put anew where it is of the first form.
#[tactic(auto, unfolding(misp_store::specs::Renewing::opened))]
pub(crate) fn load_whole<K: Keeper>(
    keeper: &mut K,
    alloc: Global,
    admin: Admin,
) -> Result<(Groups, Admin), LoadFault>
    ensures ok { IfOk result (λ setup. HoldsGroups (K.state keeper.new).held setup.0) }
    ensures admin { IfOk result (λ setup. IfSome (K.state keeper.new).held
        (λ held. setup.1 ≡ with_items admin (items_in held.admin))) }
    ensures renewed { OnOk result (WhereReported (K.state keeper.old).held
        (K.state keeper.new).held (λ held new. new ≡ renewed held)) }
    ensures read { OnOk result (WhereReported (K.state keeper.old).held
        (K.state keeper.new).held (λ held _. IsOk (opened held))) }
    ensures bad { IfErr result (λ fault.
        IfSome (K.state keeper.new).held (λ held. NamesFault (opened held) fault)) }
    ensures err { OnErr result (StaysHeld (K.state keeper.old).held (K.state keeper.new).held) }
    ensures cause { HasCause (K.state keeper.old).faults (K.state keeper.new).faults
        (result ≡ Err LoadFault.KeeperFault) }
    ensures stays { StaysUnless (K.state keeper.old).faults (K.state keeper.new).faults
        (result ≡ Err LoadFault.KeeperFault) }
{
    let setup = load_setup(keeper, alloc, admin)?;
    match renew(keeper, alloc) {
        Ok(_) => Ok(setup),
        Err(fault) => {
            drop(setup);
            Err(fault)
        }
    }
}
