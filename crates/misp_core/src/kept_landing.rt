//! What an owner has of an event, as it is kept for the packages that follow.

ghost use Rattle.std.specs.Prelude.{◌≡◌, true, Err, IfOk, IfSome, IsSomeAnd, OnErr, OnOk};
ghost use Rattle.std.specs.List.{list_all};
ghost use Rattle.misp_elem.specs.Parents.{event_of};
ghost use Rattle.misp_elem.specs.Row.{AreRows};
ghost use Rattle.misp_ids.specs.Same.{same_event};
ghost use Rattle.misp_ids.specs.Same.{Inst};
ghost use Rattle.misp_outside.specs.Causes.{HasCause, StaysUnless};
ghost use Rattle.misp_outside.specs.Reporting.{StaysHeld, WhereReported};
ghost use Rattle.misp_outside.specs.Held.{with_batch};
ghost use Rattle.misp_store.specs.Batches.{spelled};
ghost use Rattle.misp_store.specs.Sharing.{AreStorable, HoldsGroups};
ghost use Rattle.misp_core.specs.KeptLanding.{GoesOn, IsLandedOf, IsOf, LandsBeside};
ghost use Rattle.misp_core.specs.Planning.{batch_of};

use crate::by_event::is_of;
use crate::planning::Batch;
use crate::settling::settle;
use misp_elem::Row;
use misp_groups::Groups;
use misp_ids::{EventId, InstId, NoMemory, OrgId};
use misp_model::Package;
use misp_orgs::Caller;
use misp_outside::{Keeper, KeeperFault};
use misp_package::Landing;
use std::alloc::Global;

// Shows what holds of all that is read: they are rows.
#[tactic(auto, using(misp_copies::proofs::RowLists::rows_all))]
fn are_rows(rows: &[Row])
    ensures { AreRows rows.now }
{
    for row in rows {
        let _stamp = row.stamp;
    }
}

/// What the owner has of the event, by all rows that are read of it.
pub(crate) fn landing_of(
    alloc: Global,
    rows: &[Row],
    owner: &OrgId,
    event: &EventId,
    here: &InstId,
) -> Result<Landing, NoMemory>
    ensures { IfOk result (IsLandedOf here.now owner.now event.now rows.now) }
{
    are_rows(rows);
    Landing::of(alloc, rows, owner, event, here)
}

/// Whether it is what the caller has of the event of the package.
pub(crate) fn is_for(landing: &Landing, caller: &Caller, coming: &Package) -> bool
    ensures { result ≡ true → IsOf caller.now.org coming.now.event landing.now }
{
    landing.owner == caller.org && landing.event == coming.get().event
}

// Whether all rows are of the event.
fn are_of(rows: &[Row], event: &EventId) -> bool
    ensures { result ≡ list_all (λ row. same_event (event_of row.key) event.now) rows.now }
{
    rows.iter().all(|row| is_of(row, event))
}

/// What the owner has once these rows are put: where all are of the event, and memory suffices.
pub(crate) fn going_on(kept: Option<Landing>, rows: &[Row]) -> Option<Landing>
    ensures { IfSome result (λ new. IsSomeAnd kept (λ old. GoesOn rows.now old new)) }
{
    let Some(mut landing) = kept else {
        return None;
    };
    if !are_of(rows, &landing.event) {
        return None;
    }
    are_rows(rows);
    match landing.put(rows) {
        Ok(()) => Some(landing),
        Err(NoMemory) => None,
    }
}

/// Settles a batch, and keeps what the owner has of the event where it goes on with its rows.
pub(crate) fn settle_beside<K: Keeper>(
    keeper: &mut K,
    groups: &mut Groups,
    landed: &mut Option<Landing>,
    alloc: Global,
    put: Batch,
) -> Result<(), KeeperFault>
    ensures put { OnOk result (WhereReported (K.state keeper.old).held (K.state keeper.new).held
        (λ held new. new ≡ with_batch (spelled (batch_of put)) held)) }
    ensures storable { OnOk result (AreStorable put.groups) }
    ensures err { OnErr result (StaysHeld (K.state keeper.old).held (K.state keeper.new).held) }
    ensures groups { HoldsGroups (K.state keeper.old).held groups.old →
        HoldsGroups (K.state keeper.new).held groups.new }
    ensures landed { (here : Inst) →
        IfSome landed.old (LandsBeside here (K.state keeper.old).held) →
        IfSome landed.new (LandsBeside here (K.state keeper.new).held) }
    ensures cause { HasCause (K.state keeper.old).faults (K.state keeper.new).faults
        (result ≡ Err KeeperFault.Failed) }
    ensures stays { StaysUnless (K.state keeper.old).faults (K.state keeper.new).faults
        (result ≡ Err KeeperFault.Failed) }
{
    let after = going_on(landed.take(), put.rows.as_slice());
    match settle(keeper, groups, alloc, put) {
        Ok(()) => {
            *landed = after;
            Ok(())
        }
        Err(stop) => Err(stop),
    }
}
