//! An owner's own rows of an event, as they are kept for the packages that follow.

ghost use Rattle.std.specs.Prelude.{◌≡◌, true, Err, None, Option, IfErr, IfOk, IfSome};
ghost use Rattle.std.specs.List.{list_all};
ghost use Rattle.misp_ids.specs.Same.{same_org};
ghost use Rattle.misp_outside.specs.Causes.{HasCause, StaysUnless};
ghost use Rattle.misp_outside.specs.Reporting.{StaysHeld};
ghost use Rattle.misp_outside.specs.Held.{Held};
ghost use Rattle.misp_store.specs.Loading.{NamesFault};
ghost use Rattle.misp_store.specs.Seen.{seen_in};
ghost use Rattle.misp_store.specs.declared.fault.LoadFault.TheVariants as faults;
ghost use Rattle.misp_store.specs.declared.reach.Reach.TheVariants as reach;
ghost use Rattle.misp_core.specs.Synced.{AreOwn, IsOwn, IsOwnLanding, IsSynced, StaysSynced};
ghost use Rattle.misp_ids.specs.Same.{Inst};

use crate::kept_landing::{going_on, landing_of};
use misp_copies::is_owned;
use misp_elem::Row;
use misp_ids::{EventId, InstId, NoMemory, OrgId};
use misp_outside::Keeper;
use misp_package::Landing;
use misp_store::{LoadFault, Reach, load};
use misp_wanted::ascend;
use std::alloc::Global;

/// All own rows of an owner and event: as they are loaded, or as far as they decide what is taken.
#[derive(Drop)]
pub(crate) enum Own {
    Loaded(Vec<Row>),
    Landed(Landing),
}

/// The own rows of an owner and event.
#[derive(Drop)]
pub(crate) struct OwnRows {
    pub(crate) owner: OrgId,
    pub(crate) event: EventId,
    pub(crate) own: Own,
}

// Whether they are those of this owner and event.
fn is_of(kept: &OwnRows, owner: &OrgId, event: &EventId) -> bool
    ensures { result ≡ true → (kept.now.owner ≡ owner.now) × (kept.now.event ≡ event.now) }
{
    kept.owner == *owner && kept.event == *event
}

// What is kept of this owner and event. Nothing stays.
fn take_kept(synced: &mut Option<OwnRows>, owner: &OrgId, event: &EventId) -> Option<Own>
    ensures kept { (here : Inst) (held : Option Held) → IfSome synced.old (IsSynced here held) →
        IfSome result (IsOwn here held owner.now event.now) }
    ensures left { synced.new ≡ None }
{
    let Some(kept) = synced.take() else {
        return None;
    };
    if !is_of(&kept, owner, event) {
        drop(kept);
        return None;
    }
    Some(kept.own)
}

// The rows that are loaded. Those that do not ascend by their keys become a landing at once.
fn own_of(
    alloc: Global,
    rows: Vec<Row>,
    owner: &OrgId,
    event: &EventId,
    here: &InstId,
) -> Result<Own, NoMemory>
    ensures { IfOk result (λ own. (held : Option Held) →
        AreOwn held owner.now event.now rows.items →
        IsOwn here.now held owner.now event.now own) }
{
    if ascend(&rows) {
        return Ok(Own::Loaded(rows));
    }
    match landing_of(alloc, &rows, owner, event, here) {
        Ok(landing) => Ok(Own::Landed(landing)),
        Err(NoMemory) => Err(NoMemory),
    }
}

// The owner's own rows of the event, as they are loaded.
fn load_own<K: Keeper>(
    keeper: &mut K,
    alloc: Global,
    owner: &OrgId,
    event: &EventId,
    here: &InstId,
) -> Result<Own, LoadFault>
    ensures own { IfOk result
        (IsOwn here.now (K.state keeper.new).held owner.now event.now) }
    ensures bad { IfErr result (λ fault. IfSome (K.state keeper.new).held
        (λ held. NamesFault ((seen_in held).rows (reach.Own owner.now event.now)) fault)) }
    ensures held { StaysHeld (K.state keeper.old).held (K.state keeper.new).held }
    ensures cause { HasCause (K.state keeper.old).faults (K.state keeper.new).faults
        (result ≡ Err faults.KeeperFault) }
    ensures stays { StaysUnless (K.state keeper.old).faults (K.state keeper.new).faults
        (result ≡ Err faults.KeeperFault) }
{
    let rows = match load(keeper, alloc, &Reach::Own(*owner, *event)) {
        Ok(rows) => rows,
        Err(fault) => return Err(fault),
    };
    match own_of(alloc, rows, owner, event, here) {
        Ok(own) => Ok(own),
        Err(NoMemory) => Err(LoadFault::NoMemory),
    }
}

/// The owner's own rows of the event: those that are kept, or as they are loaded. Nothing stays
/// kept.
pub(crate) fn own_rows<K: Keeper>(
    keeper: &mut K,
    synced: &mut Option<OwnRows>,
    alloc: Global,
    owner: &OrgId,
    event: &EventId,
    here: &InstId,
) -> Result<Own, LoadFault>
    requires { IfSome synced.old (IsSynced here.now (K.state keeper.old).held) }
    ensures own { IfOk result
        (IsOwn here.now (K.state keeper.new).held owner.now event.now) }
    ensures left { synced.new ≡ None }
    ensures bad { IfErr result (λ fault. IfSome (K.state keeper.new).held
        (λ held. NamesFault ((seen_in held).rows (reach.Own owner.now event.now)) fault)) }
    ensures held { StaysHeld (K.state keeper.old).held (K.state keeper.new).held }
    ensures cause { HasCause (K.state keeper.old).faults (K.state keeper.new).faults
        (result ≡ Err faults.KeeperFault) }
    ensures stays { StaysUnless (K.state keeper.old).faults (K.state keeper.new).faults
        (result ≡ Err faults.KeeperFault) }
{
    match take_kept(synced, owner, event) {
        Some(own) => Ok(own),
        None => load_own(keeper, alloc, owner, event, here),
    }
}

// The landing of the owner's own rows.
fn landing_by(
    alloc: Global,
    own: Own,
    owner: &OrgId,
    event: &EventId,
    here: &InstId,
) -> Result<Landing, NoMemory>
    ensures { IfOk result (λ landing. (held : Option Held) →
        IsOwn here.now held owner.now event.now own →
        IsOwnLanding here.now held owner.now event.now landing) }
{
    match own {
        Own::Loaded(rows) => landing_of(alloc, &rows, owner, event, here),
        Own::Landed(landing) => Ok(landing),
    }
}

/// The landing of the owner's own rows of the event: of those that are kept, or as they are loaded.
/// Nothing stays kept.
pub(crate) fn own_landing<K: Keeper>(
    keeper: &mut K,
    synced: &mut Option<OwnRows>,
    alloc: Global,
    owner: &OrgId,
    event: &EventId,
    here: &InstId,
) -> Result<Landing, LoadFault>
    requires { IfSome synced.old (IsSynced here.now (K.state keeper.old).held) }
    ensures landing { IfOk result
        (IsOwnLanding here.now (K.state keeper.new).held owner.now event.now) }
    ensures left { synced.new ≡ None }
    ensures bad { IfErr result (λ fault. IfSome (K.state keeper.new).held
        (λ held. NamesFault ((seen_in held).rows (reach.Own owner.now event.now)) fault)) }
    ensures held { StaysHeld (K.state keeper.old).held (K.state keeper.new).held }
    ensures cause { HasCause (K.state keeper.old).faults (K.state keeper.new).faults
        (result ≡ Err faults.KeeperFault) }
    ensures stays { StaysUnless (K.state keeper.old).faults (K.state keeper.new).faults
        (result ≡ Err faults.KeeperFault) }
{
    let own = match own_rows(keeper, synced, alloc, owner, event, here) {
        Ok(own) => own,
        Err(fault) => return Err(fault),
    };
    match landing_by(alloc, own, owner, event, here) {
        Ok(landing) => Ok(landing),
        Err(NoMemory) => Err(LoadFault::NoMemory),
    }
}

// Whether all rows are the owner's.
fn are_owned(rows: &[Row], owner: &OrgId) -> bool
    ensures { result ≡ list_all (λ row. same_org row.owner owner.now) rows.now }
{
    rows.iter().all(|row| is_owned(row, owner))
}

/// What is kept once these rows are put: where all are the owner's, of the event, and memory
/// suffices.
pub(crate) fn own_after(landing: Landing, rows: &[Row]) -> Option<OwnRows>
    ensures { IfSome result (StaysSynced rows.now landing) }
{
    if !are_owned(rows, &landing.owner) {
        drop(landing);
        return None;
    }
    match going_on(Some(landing), rows) {
        Some(landing) => Some(OwnRows {
            owner: landing.owner,
            event: landing.event,
            own: Own::Landed(landing),
        }),
        None => None,
    }
}
