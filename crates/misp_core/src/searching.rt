//! Plans lists of events and searches.

ghost use Rattle.std.specs.Prelude.{◌≡◌, map, IfOk, false, true};
ghost use Rattle.misp_model.specs.Machine.{seeing};
ghost use Rattle.misp_model.specs.View.{IsTable};
ghost use Rattle.misp_model.specs.declared.ask.Ask.TheVariants as asks;
ghost use Rattle.misp_core.specs.Answers.{named_event};
ghost use Rattle.misp_core.specs.Effects.{asked, by_keeper};
ghost use Rattle.misp_core.specs.Handing.{scene_in};
ghost use Rattle.misp_core.specs.Planning.{Plans, stop_planned};

use crate::listing::{found_attributes, found_events, page_of_events};
use crate::naming::named;
use crate::planning::{NoPlan, Plan, told};
use crate::reply::{Answer, Hits};
use crate::site::Site;
use misp_elem::{NoMemory, Row, VisibleEvent};
use misp_ids::Items;
use misp_search::{Filter, Page};
use misp_view::hit_names;
use std::alloc::Global;

/// Lists a page of the events that the caller sees, over all rows that are read.
pub(crate) fn plan_index(
    alloc: Global,
    site: &Site<'_>,
    page: Page,
    rows: Vec<Row>,
) -> Result<Plan, NoPlan>
    ensures plan { IsTable rows.items → Plans result (asked site.now.admin.now
        (seeing (scene_in site.now) rows.items) (asks.Index page)) }
    ensures no_fault { stop_planned result ≡ by_keeper → ⊥ }
{
    let events = page_of_events(alloc, site, page, rows)?;
    Ok(told(Answer::Index(Items::of(events))))
}

// Finds attributes, with the names of the groups that their labels name.
fn plan_attributes(
    alloc: Global,
    site: &Site<'_>,
    filter: &Filter,
    rows: Vec<Row>,
) -> Result<Plan, NoPlan>
    ensures plan { IsTable rows.items → Plans result (asked site.now.admin.now
        (seeing (scene_in site.now) rows.items) (asks.Search filter.now false)) }
    ensures no_fault { stop_planned result ≡ by_keeper → ⊥ }
{
    let found = found_attributes(alloc, site, filter, rows)?;
    let names = hit_names(alloc, site.groups, &found)?;
    Ok(told(Answer::Hits(Hits {
        attributes: Items::of(found),
        group_names: Items::of(names),
    })))
}

// The events, each with the name of its holder and those of the groups that its labels name.
fn all_named(
    alloc: Global,
    site: &Site<'_>,
    events: Vec<VisibleEvent>,
) -> Result<Vec<VisibleEvent>, NoMemory>
    ensures { IfOk result (λ named. named.items
        ≡ map (named_event site.now.admin.now site.now.groups.now) events.items) }
{
    let mut all = Vec::with_capacity(alloc, events.len())?;
    for event in events {
        all.push(named(alloc, site.admin, site.groups, event)?)?;
    }
    Ok(all)
}

// Finds whole events.
fn plan_events(
    alloc: Global,
    site: &Site<'_>,
    filter: &Filter,
    rows: Vec<Row>,
) -> Result<Plan, NoPlan>
    ensures plan { IsTable rows.items → Plans result (asked site.now.admin.now
        (seeing (scene_in site.now) rows.items) (asks.Search filter.now true)) }
    ensures no_fault { stop_planned result ≡ by_keeper → ⊥ }
{
    let found = found_events(alloc, site, filter, rows)?;
    let events = all_named(alloc, site, found)?;
    Ok(told(Answer::Events(Items::of(events))))
}

/// Searches what the caller sees, over all rows that are read: for whole events, or for attributes.
pub(crate) fn plan_search(
    alloc: Global,
    site: &Site<'_>,
    filter: &Filter,
    whole: bool,
    rows: Vec<Row>,
) -> Result<Plan, NoPlan>
    ensures plan { IsTable rows.items → Plans result (asked site.now.admin.now
        (seeing (scene_in site.now) rows.items) (asks.Search filter.now whole)) }
    ensures no_fault { stop_planned result ≡ by_keeper → ⊥ }
{
    if whole {
        plan_events(alloc, site, filter, rows)
    } else {
        plan_attributes(alloc, site, filter, rows)
    }
}
