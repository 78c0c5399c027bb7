//! Packages that are made ahead of their being asked for.

ghost use Rattle.std.specs.Prelude.{◌≡◌, None, Some, true, get_or, map, set, IfOk, IfSome, IsSomeAnd};
ghost use Rattle.misp_model.specs.declared.ask.Ask.TheVariants as asks;
ghost use Rattle.misp_core.specs.Ahead.{IsKept, IsKeptFor, IsLeftOf, kept_part};

use misp_ids::{EventId, InstId, NoMemory};
use misp_manifest::Wanted;
use misp_model::{Ask, Package};
use misp_orgs::Caller;
use misp_wanted::only;
use std::alloc::Global;
use std::mem;

/// The packages of the event that a partner asked for last, each until it is handed out.
#[derive(Drop)]
pub(crate) struct Ahead {
    pub(crate) caller: Caller,
    pub(crate) event: EventId,
    pub(crate) parts: Vec<Option<Package>>,
}

// Takes what is in the slot of a number.
fn take_out(parts: &mut Vec<Option<Package>>, number: u32) -> Option<Package>
    ensures taken { result ≡ get_or parts.old.items number None }
    ensures left { parts.new.items ≡ set parts.old.items number None }
{
    let place = number as usize;
    if place < parts.len() {
        mem::replace(&mut parts[place], None)
    } else {
        None
    }
}

impl Ahead {
    /// All packages of an event, in their order, for a caller.
    pub(crate) fn of(
        alloc: Global,
        caller: Caller,
        event: EventId,
        packages: Vec<Package>,
    ) -> Result<Ahead, NoMemory>
        ensures caller { IfOk result (λ ahead. ahead.caller ≡ caller) }
        ensures event { IfOk result (λ ahead. ahead.event ≡ event) }
        ensures parts { IfOk result (λ ahead. ahead.parts.items ≡ map Some packages.items) }
    {
        Ok(Ahead {
            caller,
            event,
            parts: packages
                .into_iter()
                .map(|package| Some(package))
                .collect(alloc)?,
        })
    }

    /// The package of a number, where it is not handed out yet. It is handed out once.
    pub(crate) fn take(&mut self, number: u32) -> Option<Package>
        ensures taken { result ≡ kept_part self.old number }
        ensures left { IsLeftOf self.old self.new }
    {
        take_out(&mut self.parts, number)
    }
}

// Both are the same instance, or there is neither.
fn is_partner(a: Option<InstId>, b: Option<InstId>) -> bool
    ensures { result ≡ true → a ≡ b }
{
    match (a, b) {
        (Some(a), Some(b)) => a.text() == b.text(),
        (None, None) => true,
        _ => false,
    }
}

// Both ask alike: for one organisation, in one role, and through one instance on one way.
fn is_caller(a: &Caller, b: &Caller) -> bool
    ensures { result ≡ true → a.now ≡ b.now }
{
    a.org == b.org
        && a.role == b.role
        && is_partner(a.partner, b.partner)
        && a.internal == b.internal
}

// They are kept for this caller, and are of this event.
fn is_for(ahead: &Ahead, caller: &Caller, event: &EventId) -> bool
    ensures { result ≡ true → (ahead.now.caller ≡ caller.now) × (ahead.now.event ≡ event.now) }
{
    is_caller(&ahead.caller, caller) && ahead.event == *event
}

// The package of a number that is kept for the caller, where there is one. Where another event or
// another caller is meant, no package stays.
fn take_part(
    ahead: &mut Option<Ahead>,
    caller: &Caller,
    event: &EventId,
    number: u32,
) -> Option<Package>
    ensures kept { IfSome result (λ part.
        IsSomeAnd ahead.old (λ a. IsKept a caller.now event.now number part)) }
    ensures left { IfSome ahead.new (λ new. IsSomeAnd ahead.old (λ old. IsLeftOf old new)) }
{
    let Some(mut kept) = ahead.take() else {
        return None;
    };
    if !is_for(&kept, caller, event) {
        drop(kept);
        return None;
    }
    let found = kept.take(number);
    *ahead = Some(kept);
    found
}

// The event's own row and the wanted rows of the package that is kept for the caller. It is gone
// then, also where memory runs out.
fn take_rows(
    alloc: Global,
    ahead: &mut Option<Ahead>,
    caller: &Caller,
    wanted: &Wanted,
) -> Result<Option<Package>, NoMemory>
    ensures kept { IfOk result (λ found. IfSome found (λ part.
        IsSomeAnd ahead.old (λ a. IsKeptFor a caller.now (asks.SyncRows wanted.now) part))) }
    ensures left { IfSome ahead.new (λ new. IsSomeAnd ahead.old (λ old. IsLeftOf old new)) }
{
    let fields = wanted.get();
    match take_part(ahead, caller, &fields.event, fields.part) {
        Some(whole) => Ok(Some(only(alloc, whole, fields.keys.as_slice())?)),
        None => Ok(None),
    }
}

/// The package that is kept for what the caller asks, or those of its rows that are asked for,
/// where there is one. Where something is asked for of another event or by another caller, no
/// package stays.
pub(crate) fn take_kept(
    alloc: Global,
    ahead: &mut Option<Ahead>,
    caller: &Caller,
    ask: &Ask,
) -> Result<Option<Package>, NoMemory>
    ensures kept { IfOk result (λ found. IfSome found (λ part.
        IsSomeAnd ahead.old (λ a. IsKeptFor a caller.now ask.now part))) }
    ensures left { IfSome ahead.new (λ new. IsSomeAnd ahead.old (λ old. IsLeftOf old new)) }
{
    match ask {
        Ask::SyncPart { event, part } => Ok(take_part(ahead, caller, event, *part)),
        Ask::SyncRows(wanted) => take_rows(alloc, ahead, caller, wanted),
        _ => Ok(None),
    }
}
