//! What arrives by a synchronisation, and is taken.

ghost use Rattle.std.specs.Prelude.{◌≡◌, Err, Ok, [], length, List, IfErr, IfOk, IfSome, OnErr, OnOk};
ghost use Rattle.misp_ids.specs.declared.uid.EventId.{EventId as Event};
ghost use Rattle.misp_ids.specs.declared.uid.OrgId.{OrgId as Owner};
ghost use Rattle.misp_elem.specs.declared.row.RowFields.{RowFields};
ghost use Rattle.misp_outside.specs.Causes.{HasCause, StaysUnless};
ghost use Rattle.misp_outside.specs.Reporting.{StaysHeld, WhereReported};
ghost use Rattle.misp_effects.specs.Batches.{batch};
ghost use Rattle.misp_ids.specs.Same.{Inst};
ghost use Rattle.misp_package.specs.Landing.{IsLanding};
ghost use Rattle.misp_store.specs.Loading.{NamesFault};
ghost use Rattle.misp_store.specs.Seen.{seen_in};
ghost use Rattle.misp_store.specs.Sharing.{HoldsGroups};
ghost use Rattle.misp_store.specs.declared.fault.LoadFault.TheVariants as faults;
ghost use Rattle.misp_store.specs.declared.reach.Reach.TheVariants as reach;
ghost use Rattle.misp_core.specs.Planning.{batch_of};
ghost use Rattle.misp_core.specs.Synced.{IsOwnLanding, IsSynced};
ghost use Rattle.misp_core.specs.Taking.{package_taken, with_rows};
ghost use Rattle.misp_core.specs.Wanting.{TakesOf};

use crate::planning::Batch;
use crate::settling::settle;
use crate::synced::{OwnRows, own_after, own_landing};
use misp_elem::Row;
use misp_groups::Groups;
use misp_ids::{InstId, Items, OrgId};
use misp_model::Package;
use misp_outside::{Keeper, KeeperFault};
use misp_package::Landing;
use misp_store::LoadFault;
use std::alloc::Global;

// These rows together, and no groups.
fn rows_alone(alloc: Global, rows: Vec<Row>) -> Batch
    ensures { batch_of result ≡ batch rows.items [] }
{
    Batch {
        rows: Items::of(rows),
        groups: Items::of(Vec::new(alloc)),
    }
}

// Puts the rows in one batch, and no rows in none.
fn put_rows<K: Keeper>(
    keeper: &mut K,
    groups: &mut Groups,
    alloc: Global,
    rows: Vec<Row>,
) -> Result<(), KeeperFault>
    ensures put { OnOk result (WhereReported (K.state keeper.old).held (K.state keeper.new).held
        (λ held new. new ≡ with_rows rows.items held)) }
    ensures none { rows.items ≡ [] → keeper.new ≡ keeper.old }
    ensures err { OnErr result (StaysHeld (K.state keeper.old).held (K.state keeper.new).held) }
    ensures groups { groups.new ≡ groups.old }
    ensures beside { HoldsGroups (K.state keeper.old).held groups.old →
        HoldsGroups (K.state keeper.new).held groups.new }
    ensures cause { HasCause (K.state keeper.old).faults (K.state keeper.new).faults
        (result ≡ Err KeeperFault.Failed) }
    ensures stays { StaysUnless (K.state keeper.old).faults (K.state keeper.new).faults
        (result ≡ Err KeeperFault.Failed) }
{
    let [_, ..] = rows.as_slice() else {
        return Ok(());
    };
    settle(keeper, groups, alloc, rows_alone(alloc, rows))
}

/// Takes what is new of the package to the owner of the landing: all memory first, then one batch
/// of these rows, or none where there are none. What the owner has then is kept where memory
/// suffices.
pub(crate) fn take_package<K: Keeper>(
    keeper: &mut K,
    groups: &mut Groups,
    synced: &mut Option<OwnRows>,
    alloc: Global,
    landing: Landing,
    coming: &Package,
) -> Result<u64, KeeperFault>
    ensures count { IfOk result (λ count. (i : Inst) (w : Owner) (held : List RowFields) →
        IsLanding landing i w coming.now.event held →
        count ≡ length (package_taken i held groups.old w coming.now)) }
    ensures put { OnOk result ((i : Inst) (w : Owner) (rows : List RowFields) →
        IsLanding landing i w coming.now.event rows →
        WhereReported (K.state keeper.old).held (K.state keeper.new).held (λ held new.
        new ≡ with_rows (package_taken i rows groups.old w coming.now) held)) }
    ensures synced { (i : Inst) (w : Owner) (e : Event) →
        IsOwnLanding i (K.state keeper.old).held w e landing →
        IfSome synced.new (IsSynced i (K.state keeper.new).held) }
    ensures none { result ≡ Ok 0 → StaysHeld (K.state keeper.old).held (K.state keeper.new).held }
    ensures err { OnErr result (StaysHeld (K.state keeper.old).held (K.state keeper.new).held) }
    ensures groups { groups.new ≡ groups.old }
    ensures beside { HoldsGroups (K.state keeper.old).held groups.old →
        HoldsGroups (K.state keeper.new).held groups.new }
    ensures cause { HasCause (K.state keeper.old).faults (K.state keeper.new).faults
        (result ≡ Err KeeperFault.Failed) }
    ensures stays { StaysUnless (K.state keeper.old).faults (K.state keeper.new).faults
        (result ≡ Err KeeperFault.Failed) }
{
    *synced = None;
    let taken = landing.taken(alloc, coming, groups)?;
    let count = taken.len() as u64;
    let after = own_after(landing, &taken);
    match put_rows(keeper, groups, alloc, taken) {
        Ok(()) => {
            *synced = after;
            Ok(count)
        }
        Err(stop) => {
            drop(after);
            Err(stop)
        }
    }
}

/// Takes what is new of the package to its owner, and keeps what it has then.
pub(crate) fn take_part<K: Keeper>(
    keeper: &mut K,
    groups: &mut Groups,
    synced: &mut Option<OwnRows>,
    alloc: Global,
    owner: &OrgId,
    here: &InstId,
    coming: &Package,
) -> Result<u64, LoadFault>
    requires synced { IfSome synced.old (IsSynced here.now (K.state keeper.old).held) }
    requires groups { HoldsGroups (K.state keeper.old).held groups.old }
    ensures taken { IfOk result (λ count.
        WhereReported (K.state keeper.old).held (K.state keeper.new).held
        (TakesOf here.now owner.now coming.now count)) }
    ensures synced { IfSome synced.new (IsSynced here.now (K.state keeper.new).held) }
    ensures bad { IfErr result (λ fault. IfSome (K.state keeper.new).held (λ held.
        NamesFault ((seen_in held).rows (reach.Own owner.now coming.now.event)) fault)) }
    ensures none { result ≡ Ok 0 → StaysHeld (K.state keeper.old).held (K.state keeper.new).held }
    ensures err { OnErr result (StaysHeld (K.state keeper.old).held (K.state keeper.new).held) }
    ensures beside { HoldsGroups (K.state keeper.new).held groups.new }
    ensures cause { HasCause (K.state keeper.old).faults (K.state keeper.new).faults
        (result ≡ Err faults.KeeperFault) }
    ensures stays { StaysUnless (K.state keeper.old).faults (K.state keeper.new).faults
        (result ≡ Err faults.KeeperFault) }
{
    let event = coming.get().event;
    let landing = match own_landing(keeper, synced, alloc, owner, &event, here) {
        Ok(landing) => landing,
        Err(fault) => return Err(fault),
    };
    match take_package(keeper, groups, synced, alloc, landing, coming) {
        Ok(count) => Ok(count),
        Err(KeeperFault::Failed) => Err(LoadFault::KeeperFault),
        Err(KeeperFault::NoMemory) => Err(LoadFault::NoMemory),
    }
}
