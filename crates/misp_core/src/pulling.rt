//! What a pull by the partner of the caller's key brings.

ghost use Rattle.std.specs.Prelude.{◌≡◌, ◌++◌, ℕ, List, None, true, filter, length, map, option_to_list, IfOk, IfSome, OnOk};
ghost use Rattle.std.specs.List.{AllByRecursion, list_all};
ghost use Rattle.misp_elem.specs.declared.row.RowFields.{RowFields};
ghost use Rattle.misp_elem.specs.Parents.{event_of};
ghost use Rattle.misp_ids.specs.Same.{same_event};
ghost use Rattle.misp_groups.specs.Group.{IsGroup};
ghost use Rattle.misp_model.specs.declared.ask.Ask.TheVariants as asks;
ghost use Rattle.misp_model.specs.Machine.{seeing};
ghost use Rattle.misp_model.specs.Package.{IsPackage};
ghost use Rattle.misp_model.specs.Packing.{packages};
ghost use Rattle.misp_model.specs.Pulling.{pull_route, pulled_events, pulled_groups, pulled_part, pulled_rows};
ghost use Rattle.misp_model.specs.View.{IsTable};
ghost use Rattle.misp_package.specs.Packing.{AreNumbered};
ghost use Rattle.misp_package.specs.Passing.{route_of};
ghost use Rattle.misp_core.specs.Ahead.{StaysOrIsPacked, kept_part};
ghost use Rattle.misp_core.specs.Answers.{event_parts};
ghost use Rattle.misp_core.specs.Effects.{asked, by_keeper};
ghost use Rattle.misp_core.specs.Handing.{knowing, pull_scene};
ghost use Rattle.misp_core.specs.Partners.{partner_at};
ghost use Rattle.misp_core.specs.Planning.{Plans, stop_planned};
ghost use Rattle.misp_core.specs.Pulling.{IsByEvent, IsCountOf, Rises, carries_to, parts_where};
ghost use Rattle.misp_core.specs.Sound.{AreListed, IsSoundAnswer};
ghost use Rattle.misp_core.specs.declared.reply.Answer.{Answer as Answered};

use crate::ahead::Ahead;
use crate::by_event::{by_event, event_at, events_of, of_event, part};
use crate::planning::{NoPlan, Plan, told};
use crate::reply::{Answer, EventParts};
use crate::site::{Site, asker, partner, pull_way};
use misp_elem::{NoMemory, Row};
use misp_groups::{Group, Groups, carries};
use misp_ids::{EventId, InstId, Items, OrgId, Refusal, RuleName};
use misp_manifest::Wanted;
use misp_model::Package;
use misp_package::{Via, count_outgoing, outgoing};
use misp_wanted::only;
use std::alloc::Global;

// The same group once more.
fn copy_of(group: &Group) -> Result<Group, NoMemory>
    ensures copy { IfOk result (λ copy. copy ≡ group.now) }
    ensures fits { IfOk result IsGroup }
{
    let _id = group.id;
    group.copied()
}

/// Those of the groups that carry what the organisation takes to the instance, in their order.
pub(crate) fn carrying(
    alloc: Global,
    groups: &Groups,
    org: &OrgId,
    dest: &InstId,
) -> Result<Vec<Group>, NoMemory>
    ensures all { IfOk result (λ some. some.items
        ≡ filter (carries_to org.now dest.now) groups.now) }
    ensures fits { IfOk result (λ some. AllByRecursion IsGroup some.items) }
{
    let mut some = Vec::new(alloc);
    for group in groups.as_slice() {
        if carries(group, org, dest) {
            some.push(copy_of(group)?)?;
        }
    }
    Ok(some)
}

// The groups that a pull brings.
#[tactic(auto, unfolding(misp_model::specs::Pulling::pulled_groups))]
fn pulled_groups(alloc: Global, site: &Site<'_>) -> Result<Vec<Group>, NoMemory>
    ensures all { IfOk result (λ groups. groups.items ≡ pulled_groups (pull_scene site.now)) }
    ensures fits { IfOk result (λ groups. AllByRecursion IsGroup groups.items) }
{
    match partner(site.caller) {
        Some(dest) => carrying(alloc, site.groups, &asker(site.caller), &dest),
        None => Ok(Vec::new(alloc)),
    }
}

/// Tells the groups that a pull brings.
pub(crate) fn plan_pulled_groups(alloc: Global, site: &Site<'_>) -> Result<Plan, NoPlan>
    ensures plan { (rows : List RowFields) → Plans result (asked site.now.admin.now
        (knowing (pull_scene site.now) rows) asks.SyncGroups) }
    ensures sound { IfOk result (λ plan. IsSoundAnswer plan.answer) }
{
    let groups = pulled_groups(alloc, site)?;
    Ok(told(Answer::Groups(Items::of(groups))))
}

/// A pull to this instance.
pub(crate) fn via_to<'a>(site: &Site<'a>, dest: InstId) -> Via<'a>
    ensures groups { result.groups.now ≡ site.now.groups.now }
    ensures route { route_of result ≡ pull_route (pull_scene site.now)
        (partner_at site.now.caller.now.internal dest) }
{
    Via {
        way: pull_way(site.caller),
        groups: site.groups,
        here: *site.here,
        org: asker(site.caller),
        dest,
    }
}

// The packages of an event that a pull brings, where these are its rows here.
fn pulled_packages(
    alloc: Global,
    site: &Site<'_>,
    event: &EventId,
    rows: &[Row],
) -> Result<Vec<Package>, NoMemory>
    ensures packed { IsTable rows.now →
        list_all (λ row. same_event (event_of row.key) event.now) rows.now ≡ true →
        IfOk result (λ ps. map (λ p. p.rows) ps.items
        ≡ packages (pulled_rows (seeing (pull_scene site.now) rows.now))) }
    ensures numbered { IfOk result (λ ps. AreNumbered event.now ps.items) }
{
    match partner(site.caller) {
        Some(dest) => outgoing(alloc, rows, event, &via_to(site, dest)),
        None => Ok(Vec::new(alloc)),
    }
}

// All packages of an event that a pull brings, over all rows that are read.
fn packed(
    alloc: Global,
    site: &Site<'_>,
    event: &EventId,
    rows: Vec<Row>,
) -> Result<Ahead, NoMemory>
    ensures caller { IfOk result (λ ahead. ahead.caller ≡ site.now.caller.now) }
    ensures event { IfOk result (λ ahead. ahead.event ≡ event.now) }
    ensures parts { IsTable rows.items → IfOk result (λ ahead. (n : ℕ) →
        pulled_part (seeing (pull_scene site.now) rows.items) event.now n ≡ kept_part ahead n) }
{
    let rows = of_event(rows, event);
    let packages = pulled_packages(alloc, site, event, &rows)?;
    Ahead::of(alloc, *site.caller, *event, packages)
}

// The package of a number that a pull brings of an event, over all rows that are read. The others
// are kept until they are asked for.
fn handed_out(
    alloc: Global,
    site: &Site<'_>,
    event: &EventId,
    number: u32,
    rows: Vec<Row>,
    kept: &mut Option<Ahead>,
) -> Result<Option<Package>, NoMemory>
    ensures part { IsTable rows.items → IfOk result (λ part.
        part ≡ pulled_part (seeing (pull_scene site.now) rows.items) event.now number) }
    ensures kept { IsTable rows.items →
        StaysOrIsPacked (seeing (pull_scene site.now) rows.items) site.now.caller.now
        (asks.SyncPart event.now number) kept.old kept.new }
{
    let mut ahead = packed(alloc, site, event, rows)?;
    let part = ahead.take(number);
    *kept = Some(ahead);
    Ok(part)
}

/// Shows a package.
pub(crate) fn show_part(part: Package) -> Plan
    ensures plan { result ≡ record { answer = Answered.Part part; batch = None } }
    ensures sound { IsPackage part }
{
    let _number = part.get().part;
    told(Answer::Part(part))
}

/// Shows one package of an event, as a pull brings it, over all rows that are read. The others are
/// kept until they are asked for.
pub(crate) fn plan_part(
    alloc: Global,
    site: &Site<'_>,
    event: &EventId,
    number: u32,
    rows: Vec<Row>,
    kept: &mut Option<Ahead>,
) -> Result<Plan, NoPlan>
    ensures plan { IsTable rows.items → Plans result (asked site.now.admin.now
        (seeing (pull_scene site.now) rows.items) (asks.SyncPart event.now number)) }
    ensures kept { IsTable rows.items →
        StaysOrIsPacked (seeing (pull_scene site.now) rows.items) site.now.caller.now
        (asks.SyncPart event.now number) kept.old kept.new }
    ensures sound { IfOk result (λ plan. IsSoundAnswer plan.answer) }
    ensures no_fault { stop_planned result ≡ by_keeper → ⊥ }
{
    match handed_out(alloc, site, event, number, rows, kept)? {
        Some(package) => Ok(show_part(package)),
        None => {
            let refusal = Refusal::bare(alloc, RuleName::NotGranted);
            Err(NoPlan::Refused(refusal))
        }
    }
}

/// Shows of one package of an event, as a pull brings it, the event's own row and the wanted rows,
/// over all rows that are read. The other packages are kept until they are asked for.
pub(crate) fn plan_rows(
    alloc: Global,
    site: &Site<'_>,
    wanted: &Wanted,
    rows: Vec<Row>,
    kept: &mut Option<Ahead>,
) -> Result<Plan, NoPlan>
    ensures plan { IsTable rows.items → Plans result (asked site.now.admin.now
        (seeing (pull_scene site.now) rows.items) (asks.SyncRows wanted.now)) }
    ensures kept { IsTable rows.items →
        StaysOrIsPacked (seeing (pull_scene site.now) rows.items) site.now.caller.now
        (asks.SyncRows wanted.now) kept.old kept.new }
    ensures sound { IfOk result (λ plan. IsSoundAnswer plan.answer) }
    ensures no_fault { stop_planned result ≡ by_keeper → ⊥ }
{
    let fields = wanted.get();
    match handed_out(alloc, site, &fields.event, fields.part, rows, kept)? {
        Some(package) => {
            let some = only(alloc, package, fields.keys.as_slice())?;
            Ok(show_part(some))
        }
        None => {
            let refusal = Refusal::bare(alloc, RuleName::NotGranted);
            Err(NoPlan::Refused(refusal))
        }
    }
}

// How many packages of an event a pull brings, where these are its rows here.
fn count_pulled(
    alloc: Global,
    site: &Site<'_>,
    event: &EventId,
    rows: &[Row],
) -> Result<u32, NoMemory>
    ensures { IsTable rows.now →
        list_all (λ row. same_event (event_of row.key) event.now) rows.now ≡ true →
        IfOk result (λ count. count
        ≡ length (packages (pulled_rows (seeing (pull_scene site.now) rows.now)))) }
{
    match partner(site.caller) {
        Some(dest) => count_outgoing(alloc, rows, event, &via_to(site, dest)),
        None => Ok(0),
    }
}

// An event with the number of its packages, where there is one and these are its rows here.
fn event_parts(
    alloc: Global,
    site: &Site<'_>,
    event: EventId,
    rows: &[Row],
) -> Result<Option<EventParts>, NoMemory>
    ensures parts { IsTable rows.now →
        list_all (λ row. same_event (event_of row.key) event) rows.now ≡ true →
        IfOk result (λ parts. parts ≡ parts_where event
        (length (packages (pulled_rows (seeing (pull_scene site.now) rows.now))))) }
    ensures counted { IfOk result (λ parts. IfSome parts (IsCountOf event)) }
{
    match count_pulled(alloc, site, &event, rows)? {
        0 => Ok(None),
        parts => Ok(Some(EventParts { event, parts })),
    }
}

/// Adds what there is.
pub(crate) fn put<T: Drop>(list: &mut Vec<T>, more: Option<T>) -> Result<(), NoMemory>
    ensures { OnOk result (list.new.items ≡ list.old.items ++ option_to_list more) }
{
    if let Some(item) = more {
        list.push(item)?;
    }
    Ok(())
}

// The events of which a pull brings something, over a list of rows by events.
fn pulled_events(alloc: Global, site: &Site<'_>, list: &[Row]) -> Result<Vec<EventParts>, NoMemory>
    ensures events { (rows : List RowFields) → IsTable rows → IsByEvent list.now rows →
        IfOk result (λ events. events.items
        ≡ map event_parts (pulled_events (seeing (pull_scene site.now) rows))) }
    ensures listed { Rises list.now → IfOk result (λ events. AreListed events.items) }
{
    let numbers = events_of(alloc, list)?;
    let mut events = Vec::new(alloc);
    for number in numbers.as_slice() {
        let event = event_at(*number);
        put(
            &mut events,
            event_parts(alloc, site, event, part(list, &event))?,
        )?;
    }
    Ok(events)
}

/// Lists the events of which a pull brings something, each with the number of its packages, over
/// all rows that are read.
pub(crate) fn plan_event_list(
    alloc: Global,
    site: &Site<'_>,
    rows: Vec<Row>,
) -> Result<Plan, NoPlan>
    ensures plan { IsTable rows.items → Plans result (asked site.now.admin.now
        (seeing (pull_scene site.now) rows.items) asks.SyncEvents) }
    ensures sound { IfOk result (λ plan. IsSoundAnswer plan.answer) }
    ensures no_fault { stop_planned result ≡ by_keeper → ⊥ }
{
    let list = by_event(rows)?;
    let events = pulled_events(alloc, site, &list)?;
    Ok(told(Answer::Parts(Items::of(events))))
}
