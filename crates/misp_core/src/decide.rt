//! What a request comes to over the rows of its event.

ghost use Rattle.std.specs.Prelude.{◌≡◌, List, IfOk, OnOk, false, true};
ghost use Rattle.misp_elem.specs.declared.row.RowFields.{RowFields};
ghost use Rattle.misp_model.specs.View.{IsTable};
ghost use Rattle.misp_model.specs.Machine.{seeing};
ghost use Rattle.misp_model.specs.declared.ask.Ask.TheVariants.{View};
ghost use Rattle.misp_model.specs.declared.ask.Ask.TheVariants as asks;
ghost use Rattle.misp_core.specs.Ahead.{StaysOrIsPacked};
ghost use Rattle.misp_core.specs.Answers.{IsBuilt};
ghost use Rattle.misp_core.specs.Handing.{ChangesNone, IsOwn, scene_in, scene_for, pull_scene, knowing};
ghost use Rattle.misp_core.specs.KeptLanding.{StaysOrLands};
ghost use Rattle.misp_core.specs.Effects.{asked, by_keeper};
ghost use Rattle.misp_core.specs.Sound.{IsSoundAnswer, syncs};
ghost use Rattle.misp_core.specs.Planning.{Plans, stop_planned};

use crate::ahead::Ahead;
use crate::changing::plan_change;
use crate::handing_in::plan_package;
use crate::manifest::plan_manifest;
use crate::naming::named;
use crate::planning::{NoPlan, Plan, told};
use crate::pulling::{plan_event_list, plan_part, plan_pulled_groups, plan_rows};
use crate::reply::Answer;
use crate::searching::{plan_index, plan_search};
use crate::site::{Site, asker, known_at};
use crate::stating::{plan_judgement, plan_proposal, plan_sighting};
use misp_elem::{NoMemory, Row};
use misp_ids::{EventId, Items, OrgId, Refusal, RuleName};
use misp_model::{Ask, Change};
use misp_package::Landing;
use misp_view::{concerning, shown};
use std::alloc::Global;

// Changes an event, over all rows of it that are read, of which the caller sees what it knows.
fn change_known(
    alloc: Global,
    site: &Site<'_>,
    change: Change,
    rows: Vec<Row>,
) -> Result<Plan, NoPlan>
    requires { IsBuilt (asks.Change change) }
    ensures { Plans result (asked site.now.admin.now
        (seeing (scene_in site.now) rows.items) (asks.Change change)) }
{
    match known_at(alloc, site, rows) {
        Ok(rows) => plan_change(alloc, site, change, &rows),
        Err(NoMemory) => {
            drop(change);
            Err(NoPlan::NoMemory)
        }
    }
}

// Shows an event, over all rows of it here. In a table of rows the caller sees of them what it sees
// of those that it knows.
fn view(
    alloc: Global,
    site: &Site<'_>,
    event: &EventId,
    owner: Option<OrgId>,
    rows: &[Row],
) -> Result<Plan, NoPlan>
    ensures all { Plans result (asked site.now.admin.now
        (knowing (scene_in site.now) rows.now) (View event.now owner)) }
    ensures known { IsTable rows.now → Plans result (asked site.now.admin.now
        (seeing (scene_in site.now) rows.now) (View event.now owner)) }
{
    let org = asker(site.caller);
    match shown(alloc, rows, site.groups, site.here, &org, event, owner)? {
        Some(seen) => {
            let seen = named(alloc, site.admin, site.groups, seen)?;
            Ok(told(Answer::Event(seen)))
        }
        None => {
            let refusal = Refusal::bare(alloc, RuleName::NotGranted);
            Err(NoPlan::Refused(refusal))
        }
    }
}

// Tells the groups that concern the caller.
fn list(alloc: Global, site: &Site<'_>) -> Result<Plan, NoPlan>
    ensures { (rows : List RowFields) → Plans result (asked site.now.admin.now
        (knowing (scene_in site.now) rows) asks.Groups) }
{
    let org = asker(site.caller);
    let groups = concerning(alloc, site.groups, &org, site.here)?;
    Ok(told(Answer::Groups(Items::of(groups))))
}

// What is planned for a request that neither changes an event, nor pulls, nor hands in, over the
// rows that are read for it.
#[tactic(auto, unfolding(misp_model::specs::Machine::pulls))]
fn plan_own(alloc: Global, site: &Site<'_>, ask: &Ask, rows: Vec<Row>) -> Result<Plan, NoPlan>
    requires built { IsBuilt ask.now }
    requires own { IsOwn ask.now }
    ensures plan { IsTable rows.items → Plans result (asked site.now.admin.now
        (seeing (scene_in site.now) rows.items) ask.now) }
    ensures apart { syncs ask.now ≡ false }
    ensures no_fault { stop_planned result ≡ by_keeper → ⊥ }
{
    match ask {
        Ask::View { event, owner } => view(alloc, site, event, *owner, &rows),
        Ask::Groups => list(alloc, site),
        Ask::Index(page) => plan_index(alloc, site, *page, rows),
        Ask::Search { filter, whole } => plan_search(alloc, site, filter, *whole, rows),
        Ask::Propose(draft) => plan_proposal(alloc, site, draft, rows),
        Ask::Judge {
            event,
            proposal,
            accept,
        } => plan_judgement(alloc, site, event, proposal, *accept, rows),
        Ask::Sight {
            event,
            target,
            draft,
        } => plan_sighting(alloc, site, event, target, draft, rows),
        _ => unreachable!(),
    }
}

// What is planned for a request that changes no event, over the rows that are read for it.
#[tactic(auto, unfolding(misp_model::specs::Machine::pulls))]
fn plan_unchanged(
    alloc: Global,
    site: &Site<'_>,
    ask: &Ask,
    rows: Vec<Row>,
    kept: &mut Option<Ahead>,
    landed: &mut Option<Landing>,
) -> Result<Plan, NoPlan>
    requires built { IsBuilt ask.now }
    requires unchanged { ChangesNone ask.now }
    ensures plan { IsTable rows.items → Plans result (asked site.now.admin.now
        (seeing (scene_for site.now ask.now) rows.items) ask.now) }
    ensures kept { IsTable rows.items →
        StaysOrIsPacked (seeing (pull_scene site.now) rows.items) site.now.caller.now
        ask.now kept.old kept.new }
    ensures landed { StaysOrLands site.now.here.now site.now.caller.now.org rows.items
        ask.now landed.old landed.new }
    ensures sound { syncs ask.now ≡ true → IfOk result (λ plan. IsSoundAnswer plan.answer) }
    ensures no_fault { stop_planned result ≡ by_keeper → ⊥ }
{
    match ask {
        Ask::SyncGroups => plan_pulled_groups(alloc, site),
        Ask::SyncEvents => plan_event_list(alloc, site, rows),
        Ask::SyncPart { event, part } => plan_part(alloc, site, event, *part, rows, kept),
        Ask::SyncManifest => plan_manifest(alloc, site, rows),
        Ask::SyncRows(wanted) => plan_rows(alloc, site, wanted, rows, kept),
        Ask::TakePart(part) => plan_package(alloc, site, part, rows, landed),
        own => plan_own(alloc, site, own, rows),
    }
}

/// What is planned for a request, over the rows that are read for it. Of a pull the packages that
/// are not asked for yet are kept, and of a package that is handed in what its caller has of the
/// event.
#[tactic(auto, unfolding(misp_model::specs::Machine::pulls))]
pub(crate) fn plan_request(
    alloc: Global,
    site: &Site<'_>,
    ask: Ask,
    rows: Vec<Row>,
    kept: &mut Option<Ahead>,
    landed: &mut Option<Landing>,
) -> Result<Plan, NoPlan>
    requires { IsBuilt ask }
    ensures plan { IsTable rows.items → Plans result (asked site.now.admin.now
        (seeing (scene_for site.now ask) rows.items) ask) }
    ensures kept { IsTable rows.items →
        StaysOrIsPacked (seeing (pull_scene site.now) rows.items) site.now.caller.now
        ask kept.old kept.new }
    ensures landed { StaysOrLands site.now.here.now site.now.caller.now.org rows.items
        ask landed.old landed.new }
    ensures sound { syncs ask ≡ true → IfOk result (λ plan. IsSoundAnswer plan.answer) }
    ensures no_fault { stop_planned result ≡ by_keeper → ⊥ }
{
    match ask {
        Ask::Change(change) => change_known(alloc, site, change, rows),
        other => {
            let plan = plan_unchanged(alloc, site, &other, rows, kept, landed);
            drop(other);
            plan
        }
    }
}
