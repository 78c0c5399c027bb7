//! What an organisation sees of all events, and what of it is searched for.

ghost use Rattle.std.specs.Prelude.{◌≡◌, List, [], ◌∷◌, None, IfOk, OnOk, cond, option_to_list};
ghost use Rattle.misp_elem.specs.declared.row.RowFields.{RowFields};
ghost use Rattle.misp_model.specs.Machine.{seeing};
ghost use Rattle.misp_model.specs.Shown.{index, shown};
ghost use Rattle.misp_model.specs.View.{IsTable};
ghost use Rattle.misp_search.specs.Fitting.{hits, whole_events};
ghost use Rattle.misp_search.specs.Page.{page_of};
ghost use Rattle.misp_search.specs.Window.{HaveCome};
ghost use Rattle.misp_core.specs.Handing.{scene_in};
ghost use Rattle.misp_core.specs.Listing.{seen_at};
ghost use Rattle.misp_core.specs.Pulling.{IsByEvent};

use crate::by_event::{by_event, event_at, events_of, part};
use crate::site::{Site, asker};
use misp_elem::{NoMemory, Row, VisibleAttribute, VisibleEvent};
use misp_ids::EventId;
use misp_search::{Filter, Page, Search, Window};
use misp_view::shown;
use std::alloc::Global;

// What the caller sees of an event, where these are its rows here.
fn shown_at(
    alloc: Global,
    site: &Site<'_>,
    event: &EventId,
    rows: &[Row],
) -> Result<Option<VisibleEvent>, NoMemory>
    ensures { IsTable rows.now → IfOk result (λ seen. seen
        ≡ shown (seeing (scene_in site.now) rows.now) event.now None) }
{
    let org = asker(site.caller);
    shown(alloc, rows, site.groups, site.here, &org, event, None)
}

// What the caller sees of the event of a number, over a list of rows by events.
fn seen_at(
    alloc: Global,
    site: &Site<'_>,
    list: &[Row],
    number: u128,
) -> Result<Option<VisibleEvent>, NoMemory>
    ensures { (rows : List RowFields) → IsTable rows → IsByEvent list.now rows →
        IfOk result (λ seen. seen ≡ seen_at site.now rows number) }
{
    let event = event_at(number);
    shown_at(alloc, site, &event, part(list, &event))
}

// ---- lists of events

// The event comes, where it is seen.
fn put_seen(seen: Option<VisibleEvent>, events: &mut Window<VisibleEvent>) -> Result<(), NoMemory>
    ensures { OnOk result (HaveCome (option_to_list seen) events.old events.new) }
{
    match seen {
        Some(event) => events.put(event),
        None => Ok(()),
    }
}

// The event of a number comes, where it is seen.
fn put_event(
    alloc: Global,
    site: &Site<'_>,
    list: &[Row],
    number: u128,
    events: &mut Window<VisibleEvent>,
) -> Result<(), NoMemory>
    ensures { (rows : List RowFields) → IsTable rows → IsByEvent list.now rows →
        OnOk result (HaveCome (option_to_list (seen_at site.now rows number))
        events.old events.new) }
{
    if events.is_full() {
        return Ok(());
    }
    let seen = seen_at(alloc, site, list, number)?;
    put_seen(seen, events)
}

/// The events of a page of all that the caller sees, over all rows that are read, in their order.
/// What it sees of an event is made when its turn comes.
pub(crate) fn page_of_events(
    alloc: Global,
    site: &Site<'_>,
    page: Page,
    rows: Vec<Row>,
) -> Result<Vec<VisibleEvent>, NoMemory>
    ensures { IsTable rows.items → IfOk result (λ events. events.items
        ≡ page_of page (index (seeing (scene_in site.now) rows.items))) }
{
    let list = by_event(rows)?;
    let numbers = events_of(alloc, &list)?;
    let mut events = Window::of(alloc, page);
    for number in numbers.as_slice() {
        put_event(alloc, site, &list, *number, &mut events)?;
    }
    Ok(events.into_items())
}

// ---- searches

// Those attributes of the event come that fit, where it is seen.
fn put_fitting(
    search: &Search<'_>,
    seen: Option<VisibleEvent>,
    found: &mut Window<VisibleAttribute>,
) -> Result<(), NoMemory>
    ensures { OnOk result (HaveCome (hits search.now (option_to_list seen)) found.old found.new) }
{
    match seen {
        Some(event) => search.put_hits(event, found),
        None => Ok(()),
    }
}

// The attributes of the event of a number come that fit, where it is seen.
fn put_hits(
    alloc: Global,
    site: &Site<'_>,
    list: &[Row],
    number: u128,
    search: &Search<'_>,
    found: &mut Window<VisibleAttribute>,
) -> Result<(), NoMemory>
    ensures { (rows : List RowFields) → IsTable rows → IsByEvent list.now rows →
        OnOk result (HaveCome (hits search.now (option_to_list (seen_at site.now rows number)))
        found.old found.new) }
{
    if found.is_full() {
        return Ok(());
    }
    let seen = seen_at(alloc, site, list, number)?;
    put_fitting(search, seen, found)
}

/// The attributes on the page of all that the caller sees and that fit, over all rows that are
/// read. What it sees of an event is made when its turn comes.
pub(crate) fn found_attributes(
    alloc: Global,
    site: &Site<'_>,
    filter: &Filter,
    rows: Vec<Row>,
) -> Result<Vec<VisibleAttribute>, NoMemory>
    ensures { IsTable rows.items → IfOk result (λ found. found.items ≡ page_of filter.now.page
        (hits filter.now (index (seeing (scene_in site.now) rows.items)))) }
{
    let list = by_event(rows)?;
    let numbers = events_of(alloc, &list)?;
    let search = Search::of(alloc, filter)?;
    let mut found = Window::of(alloc, filter.page);
    for number in numbers.as_slice() {
        put_hits(alloc, site, &list, *number, &search, &mut found)?;
    }
    Ok(found.into_items())
}

// The event comes, where it has an attribute that fits.
fn put_if(
    event: VisibleEvent,
    has_hit: bool,
    found: &mut Window<VisibleEvent>,
) -> Result<(), NoMemory>
    ensures { OnOk result (HaveCome (cond has_hit (event ∷ []) []) found.old found.new) }
{
    if has_hit {
        found.put(event)?;
    }
    Ok(())
}

// The event comes, where it is seen and has an attribute that fits.
fn put_with_hit(
    search: &Search<'_>,
    seen: Option<VisibleEvent>,
    found: &mut Window<VisibleEvent>,
) -> Result<(), NoMemory>
    ensures { OnOk result
        (HaveCome (whole_events search.now (option_to_list seen)) found.old found.new) }
{
    match seen {
        Some(event) => {
            let has_hit = search.has_hit(&event);
            put_if(event, has_hit, found)
        }
        None => Ok(()),
    }
}

// The event of a number comes, where it is seen and has an attribute that fits.
fn put_whole(
    alloc: Global,
    site: &Site<'_>,
    list: &[Row],
    number: u128,
    search: &Search<'_>,
    found: &mut Window<VisibleEvent>,
) -> Result<(), NoMemory>
    ensures { (rows : List RowFields) → IsTable rows → IsByEvent list.now rows →
        OnOk result (HaveCome
        (whole_events search.now (option_to_list (seen_at site.now rows number)))
        found.old found.new) }
{
    if found.is_full() {
        return Ok(());
    }
    let seen = seen_at(alloc, site, list, number)?;
    put_with_hit(search, seen, found)
}

/// The events on the page of all that the caller sees and that have an attribute that fits, over
/// all rows that are read. What it sees of an event is made when its turn comes.
pub(crate) fn found_events(
    alloc: Global,
    site: &Site<'_>,
    filter: &Filter,
    rows: Vec<Row>,
) -> Result<Vec<VisibleEvent>, NoMemory>
    ensures { IsTable rows.items → IfOk result (λ found. found.items ≡ page_of filter.now.page
        (whole_events filter.now (index (seeing (scene_in site.now) rows.items)))) }
{
    let list = by_event(rows)?;
    let numbers = events_of(alloc, &list)?;
    let search = Search::of(alloc, filter)?;
    let mut found = Window::of(alloc, filter.page);
    for number in numbers.as_slice() {
        put_whole(alloc, site, &list, *number, &search, &mut found)?;
    }
    Ok(found.into_items())
}
