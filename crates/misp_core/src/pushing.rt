//! What a push sends.

ghost use Rattle.std.specs.Prelude.{◌≡◌, ◌++◌, [], ◌∷◌, true, Err, Ok, List, IfErr, IfOk, IfSome, IsOk, OnOk};
ghost use Rattle.std.specs.List.{AllByRecursion, list_all};
ghost use Rattle.misp_elem.specs.declared.row.RowFields.{RowFields};
ghost use Rattle.misp_elem.specs.Parents.{event_of};
ghost use Rattle.misp_ids.specs.Same.{same_event};
ghost use Rattle.misp_outside.specs.Causes.{HasCause, StaysUnless};
ghost use Rattle.misp_outside.specs.Reporting.{StaysHeld};
ghost use Rattle.misp_model.specs.Package.{IsPackage};
ghost use Rattle.misp_model.specs.Packing.{packages};
ghost use Rattle.misp_model.specs.Passing.{route_to};
ghost use Rattle.misp_model.specs.View.{IsTable};
ghost use Rattle.misp_history.specs.Merging.{arriving_rows};
ghost use Rattle.misp_package.specs.Passing.{route_of};
ghost use Rattle.misp_store.specs.Loading.{NamesFault};
ghost use Rattle.misp_store.specs.Seen.{seen_in};
ghost use Rattle.misp_store.specs.declared.fault.LoadFault.TheVariants as faults;
ghost use Rattle.misp_store.specs.declared.reach.Reach.TheVariants as reach;
ghost use Rattle.misp_core.specs.Pulling.{IsByEvent};
ghost use Rattle.misp_core.specs.Sending.{all_numbered, events_packed, numbered};

use crate::by_event::{by_event, event_at, events_of, part};
use misp_elem::{NoMemory, Row};
use misp_groups::Groups;
use misp_ids::{EventId, InstId, OrgId, Way};
use misp_model::Package;
use misp_outside::Keeper;
use misp_package::{Via, outgoing};
use misp_store::{LoadFault, Reach, load};
use std::alloc::Global;

/// A synchronisation on this way from here, where these groups are known.
pub(crate) fn via_from<'a>(
    way: Way,
    here: &InstId,
    groups: &'a Groups,
    org: &OrgId,
    dest: &InstId,
) -> Via<'a>
    ensures groups { result.groups.now ≡ groups.now }
    ensures route { route_of result ≡ route_to way here.now org.now dest.now }
{
    Via {
        way,
        groups,
        here: *here,
        org: *org,
        dest: *dest,
    }
}

// Adds a package to others.
fn add(all: &mut Vec<Package>, next: Package) -> Result<(), NoMemory>
    ensures added { OnOk result (all.new.items ≡ all.old.items ++ next ∷ []) }
    ensures fits { IsPackage next }
{
    let _number = next.get().part;
    all.push(next)?;
    Ok(())
}

// Adds packages to others.
fn add_all(all: &mut Vec<Package>, more: Vec<Package>) -> Result<(), NoMemory>
    ensures added { OnOk result (all.new.items ≡ all.old.items ++ more.items) }
    ensures each { AllByRecursion IsPackage all.old.items →
        OnOk result (AllByRecursion IsPackage all.new.items) }
{
    for package in more {
        add(all, package)?;
    }
    Ok(())
}

// Adds the packages of what passes of an event, where these are its rows here.
fn add_event(
    alloc: Global,
    all: &mut Vec<Package>,
    event: &EventId,
    rows: &[Row],
    via: &Via<'_>,
) -> Result<(), NoMemory>
    ensures added { IsTable rows.now →
        list_all (λ row. same_event (event_of row.key) event.now) rows.now ≡ true →
        OnOk result (all.new.items ≡ all.old.items ++ numbered event.now
        (packages (arriving_rows rows.now via.now.groups.now (route_of via.now)))) }
    ensures each { AllByRecursion IsPackage all.old.items →
        OnOk result (AllByRecursion IsPackage all.new.items) }
{
    let more = outgoing(alloc, rows, event, via)?;
    add_all(all, more)
}

// The packages of all that passes, event after event, over a list of rows by events.
fn outgoing_events(alloc: Global, list: &[Row], via: &Via<'_>) -> Result<Vec<Package>, NoMemory>
    ensures packed { (rows : List RowFields) → IsTable rows → IsByEvent list.now rows →
        IfOk result (λ all. all.items ≡ all_numbered
        (events_packed (arriving_rows rows via.now.groups.now (route_of via.now)))) }
    ensures each { IfOk result (λ all. AllByRecursion IsPackage all.items) }
{
    let numbers = events_of(alloc, list)?;
    let mut all = Vec::new(alloc);
    for number in numbers.as_slice() {
        let event = event_at(*number);
        add_event(alloc, &mut all, &event, part(list, &event), via)?;
    }
    Ok(all)
}

// The same over rows as they are read.
fn outgoing_rows(alloc: Global, rows: Vec<Row>, via: &Via<'_>) -> Result<Vec<Package>, NoMemory>
    ensures packed { IsTable rows.items → IfOk result (λ all. all.items ≡ all_numbered
        (events_packed (arriving_rows rows.items via.now.groups.now (route_of via.now)))) }
    ensures each { IfOk result (λ all. AllByRecursion IsPackage all.items) }
{
    let list = by_event(rows)?;
    outgoing_events(alloc, &list, via)
}

/// The packages of all that passes of what a keeper holds, event after event. All rows are read
/// once.
pub(crate) fn load_outgoing<K: Keeper>(
    keeper: &mut K,
    alloc: Global,
    via: &Via<'_>,
) -> Result<Vec<Package>, LoadFault>
    ensures packed { IfOk result (λ all. IfSome (K.state keeper.new).held (λ held.
        (rows : List RowFields) → (seen_in held).rows reach.All ≡ Ok rows → all.items ≡ all_numbered
        (events_packed (arriving_rows rows via.now.groups.now (route_of via.now))))) }
    ensures read { OnOk result
        (IfSome (K.state keeper.new).held (λ held. IsOk ((seen_in held).rows reach.All))) }
    ensures each { IfOk result (λ all. AllByRecursion IsPackage all.items) }
    ensures bad { IfErr result (λ fault. IfSome (K.state keeper.new).held
        (λ held. NamesFault ((seen_in held).rows reach.All) fault)) }
    ensures held { StaysHeld (K.state keeper.old).held (K.state keeper.new).held }
    ensures cause { HasCause (K.state keeper.old).faults (K.state keeper.new).faults
        (result ≡ Err faults.KeeperFault) }
    ensures stays { StaysUnless (K.state keeper.old).faults (K.state keeper.new).faults
        (result ≡ Err faults.KeeperFault) }
{
    let rows = match load(keeper, alloc, &Reach::All) {
        Ok(rows) => rows,
        Err(fault) => return Err(fault),
    };
    match outgoing_rows(alloc, rows, via) {
        Ok(all) => Ok(all),
        Err(NoMemory) => Err(LoadFault::NoMemory),
    }
}
