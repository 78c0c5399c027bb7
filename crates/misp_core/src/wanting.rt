//! What an owner wants of the packages of an event.

ghost use Rattle.std.specs.Prelude.{◌≡◌, Err, Option, IfErr, IfOk, IfSome};
ghost use Rattle.misp_outside.specs.Causes.{HasCause, StaysUnless};
ghost use Rattle.misp_outside.specs.Reporting.{StaysHeld};
ghost use Rattle.misp_outside.specs.Held.{Held};
ghost use Rattle.misp_store.specs.Loading.{NamesFault};
ghost use Rattle.misp_store.specs.Seen.{seen_in};
ghost use Rattle.misp_store.specs.declared.fault.LoadFault.TheVariants as faults;
ghost use Rattle.misp_store.specs.declared.reach.Reach.TheVariants as reach;
ghost use Rattle.misp_core.specs.Synced.{AreWanted, IsOwn, IsSynced};
ghost use Rattle.misp_core.specs.Wanting.{IsSomeWanted, WantsOf};

use crate::synced::{Own, OwnRows, own_rows};
use misp_elem::Key;
use misp_ids::{EventId, InstId, NoMemory, OrgId};
use misp_manifest::KeyStamp;
use misp_outside::Keeper;
use misp_store::LoadFault;
use misp_wanted::{wanted, wanted_over};
use std::alloc::Global;

// The keys that the owner wants over its own rows, in their order.
fn wanted_by(
    alloc: Global,
    own: &Own,
    owner: &OrgId,
    event: &EventId,
    here: &InstId,
    keys: &[KeyStamp],
) -> Result<Vec<Key>, NoMemory>
    ensures { IfOk result (λ wanted. (held : Option Held) →
        IsOwn here.now held owner.now event.now own.now →
        AreWanted here.now held owner.now event.now keys.now wanted.items) }
{
    match own {
        Own::Loaded(rows) => wanted(alloc, event, keys, rows, owner, here),
        Own::Landed(landing) => wanted_over(alloc, landing, keys),
    }
}

/// The keys of a package of an event of which the owner wants the rows, in their order. Its own
/// rows of the event are kept.
pub(crate) fn wanted_keys<K: Keeper>(
    keeper: &mut K,
    synced: &mut Option<OwnRows>,
    alloc: Global,
    owner: &OrgId,
    event: &EventId,
    here: &InstId,
    keys: &[KeyStamp],
) -> Result<Vec<Key>, LoadFault>
    requires { IfSome synced.old (IsSynced here.now (K.state keeper.old).held) }
    ensures found { IfOk result (λ wanted. IfSome (K.state keeper.new).held
        (WantsOf here.now owner.now event.now keys.now wanted.items)) }
    ensures some { IfOk result (λ wanted.
        IsSomeWanted here.now owner.now event.now keys.now wanted.items) }
    ensures synced { IfSome synced.new (IsSynced here.now (K.state keeper.new).held) }
    ensures bad { IfErr result (λ fault. IfSome (K.state keeper.new).held
        (λ held. NamesFault ((seen_in held).rows (reach.Own owner.now event.now)) fault)) }
    ensures held { StaysHeld (K.state keeper.old).held (K.state keeper.new).held }
    ensures cause { HasCause (K.state keeper.old).faults (K.state keeper.new).faults
        (result ≡ Err faults.KeeperFault) }
    ensures stays { StaysUnless (K.state keeper.old).faults (K.state keeper.new).faults
        (result ≡ Err faults.KeeperFault) }
{
    let own = match own_rows(keeper, synced, alloc, owner, event, here) {
        Ok(own) => own,
        Err(fault) => return Err(fault),
    };
    let wanted = wanted_by(alloc, &own, owner, event, here, keys);
    *synced = Some(OwnRows {
        owner: *owner,
        event: *event,
        own,
    });
    match wanted {
        Ok(wanted) => Ok(wanted),
        Err(NoMemory) => Err(LoadFault::NoMemory),
    }
}
