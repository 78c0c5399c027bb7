//! What a permitted request comes to, by what is kept for it, or over the rows that are read.

ghost use Rattle.std.specs.Prelude.{◌≡◌, true, Ok, Err, Some, IfOk, IfErr, IfSome};
ghost use Rattle.misp_outside.specs.Causes.{HasCause, StaysUnless};
ghost use Rattle.misp_outside.specs.Reporting.{StaysHeld};
ghost use Rattle.misp_model.specs.Permission.{is_permitted};
ghost use Rattle.misp_model.specs.View.{IsTable};
ghost use Rattle.misp_model.specs.Looking.{more_for_change, more_looks, over};
ghost use Rattle.misp_model.specs.Scene.{Scene};
ghost use Rattle.misp_model.specs.declared.ask.Ask.TheVariants.{View};
ghost use Rattle.misp_store.specs.Loading.{NamesFault};
ghost use Rattle.misp_store.specs.Reach.{reach_of};
ghost use Rattle.misp_store.specs.Seeking.{HasKeysInOrder, IsInOrder};
ghost use Rattle.misp_store.specs.Seen.{seen_in};
ghost use Rattle.misp_core.specs.Ahead.{IsBeside};
ghost use Rattle.misp_core.specs.Answers.{IsBuilt};
ghost use Rattle.misp_core.specs.Effects.{by_keeper, requested};
ghost use Rattle.misp_core.specs.Handing.{host_at, scene_in};
ghost use Rattle.misp_core.specs.Planning.{IsPlanned, stop_planned};
ghost use Rattle.misp_core.specs.Reading.{rows_read};
ghost use Rattle.misp_core.specs.Sound.{IsSoundAnswer, syncs};

use crate::ahead::{Ahead, take_kept};
use crate::answering::unread;
use crate::decide::plan_request;
use crate::handing_in::{is_landed, plan_kept};
use crate::planning::{NoPlan, Plan};
use crate::pulling::show_part;
use crate::site::{Site, asker};
use misp_copies::has_copy;
use misp_elem::{NoMemory, Row};
use misp_ids::{EventId, OrgId};
use misp_model::{Ask, Looks};
use misp_outside::Keeper;
use misp_package::Landing;
use misp_store::{LoadFault, Reach, at_shown, beside, load};
use misp_view::shown_owner;
use std::alloc::Global;

// What a change looks at in place of the own rows, by those that are found.
fn more_for_change(
    alloc: Global,
    org: &OrgId,
    looks: Looks,
    rows: &[Row],
) -> Result<Option<Looks>, NoMemory>
    requires order { HasKeysInOrder looks }
    ensures value { (s : Scene) → s.by ≡ org.now → IfOk result (λ more.
        more ≡ more_for_change (over s rows.now) (Some looks)) }
    ensures order { IfOk result (λ more. IfSome more HasKeysInOrder) }
{
    if has_copy(rows, org, &looks.event) {
        drop(looks);
        return Ok(None);
    }
    Ok(Some(beside(alloc, looks)?))
}

// What a view looks at then: the copy that is shown, by the rows of the event in each copy.
fn more_for_view(
    site: &Site<'_>,
    event: &EventId,
    owner: Option<OrgId>,
    rows: &[Row],
) -> Option<Looks>
    ensures value { result
        ≡ more_looks (over (scene_in site.now) rows.now) (View event.now owner) }
    ensures order { IfSome result HasKeysInOrder }
{
    let org = asker(site.caller);
    match shown_owner(rows, site.groups, site.here, &org, event, owner) {
        Some(owner) => Some(at_shown(owner, *event)),
        None => None,
    }
}

// What an ask looks at in place of what is within its reach, by the rows that are found there.
fn more(
    alloc: Global,
    site: &Site<'_>,
    ask: &Ask,
    reach: Reach,
    rows: &[Row],
) -> Result<Option<Looks>, NoMemory>
    requires reach { reach ≡ reach_of site.now.here.now site.now.caller.now.org ask.now }
    requires order { IsInOrder reach }
    ensures value { IfOk result (λ more.
        more ≡ more_looks (over (scene_in site.now) rows.now) ask.now) }
    ensures order { IfOk result (λ more. IfSome more HasKeysInOrder) }
{
    match (ask, reach) {
        (Ask::View { event, owner }, reach) => {
            drop(reach);
            Ok(more_for_view(site, event, *owner, rows))
        }
        (Ask::Change(_), Reach::Looked(looks)) => {
            more_for_change(alloc, &asker(site.caller), looks, rows)
        }
        (_, reach) => {
            drop(reach);
            Ok(None)
        }
    }
}

// The rows that an ask looks at: those within its reach, or those that it looks at then.
fn rows_for<K: Keeper>(
    keeper: &mut K,
    alloc: Global,
    site: &Site<'_>,
    ask: &Ask,
) -> Result<Vec<Row>, LoadFault>
    ensures found { IfOk result (λ found. IfSome (K.state keeper.new).held (λ held.
        rows_read (scene_in site.now) ask.now (seen_in held).rows ≡ Ok found.items)) }
    ensures table { IfOk result (λ found. IfSome (K.state keeper.new).held
        (λ _. IsTable found.items)) }
    ensures bad { IfErr result (λ fault. IfSome (K.state keeper.new).held (λ held.
        NamesFault (rows_read (scene_in site.now) ask.now (seen_in held).rows) fault)) }
    ensures held { StaysHeld (K.state keeper.old).held (K.state keeper.new).held }
    ensures cause { HasCause (K.state keeper.old).faults (K.state keeper.new).faults
        (result ≡ Err LoadFault.KeeperFault) }
    ensures stays { StaysUnless (K.state keeper.old).faults (K.state keeper.new).faults
        (result ≡ Err LoadFault.KeeperFault) }
{
    let org = asker(site.caller);
    let reach = Reach::of(alloc, site.here, &org, ask)?;
    match load(keeper, alloc, &reach) {
        Ok(rows) => match more(alloc, site, ask, reach, &rows)? {
            Some(looks) => {
                drop(rows);
                load(keeper, alloc, &Reach::Looked(looks))
            }
            None => Ok(rows),
        },
        Err(fault) => {
            drop(reach);
            Err(fault)
        }
    }
}

/// What is planned for a request that the role of its caller permits. Nothing is read where what is
/// kept beside the keeper answers it.
pub(crate) fn plan_permitted<K: Keeper>(
    keeper: &mut K,
    alloc: Global,
    site: &Site<'_>,
    ask: Ask,
    ahead: &mut Option<Ahead>,
    landed: &mut Option<Landing>,
) -> Result<Plan, NoPlan>
    requires built { IsBuilt ask }
    requires permitted { is_permitted site.now.caller.now ask ≡ true }
    requires beside { IsBeside (host_at site.now) (K.state keeper.old).held
        site.now.groups.now ahead.old landed.old }
    ensures planned { IfSome (K.state keeper.new).held (λ held. IsPlanned result
        (requested (host_at site.now) site.now.moment (site.now.caller.now, ask) (seen_in held))) }
    ensures sound { syncs ask ≡ true → IfOk result (λ plan. IsSoundAnswer plan.answer) }
    ensures held { StaysHeld (K.state keeper.old).held (K.state keeper.new).held }
    ensures beside { IsBeside (host_at site.now) (K.state keeper.new).held
        site.now.groups.now ahead.new landed.new }
    ensures cause { HasCause (K.state keeper.old).faults (K.state keeper.new).faults
        (stop_planned result ≡ by_keeper) }
    ensures stays { StaysUnless (K.state keeper.old).faults (K.state keeper.new).faults
        (stop_planned result ≡ by_keeper) }
{
    match take_kept(alloc, ahead, site.caller, &ask) {
        Ok(Some(part)) => {
            drop(ask);
            return Ok(show_part(part));
        }
        Ok(None) => {}
        Err(NoMemory) => {
            drop(ask);
            return Err(NoPlan::NoMemory);
        }
    }
    if is_landed(site, &ask, landed) {
        let plan = plan_kept(alloc, site, &ask, landed);
        drop(ask);
        return plan;
    }
    match rows_for(keeper, alloc, site, &ask) {
        Ok(rows) => plan_request(alloc, site, ask, rows, ahead, landed),
        Err(fault) => {
            drop(ask);
            Err(unread(alloc, fault))
        }
    }
}
