//! Reading manifests.

ghost use Rattle.std.specs.Prelude.{◌≡◌, ◌-◌, ◌^◌, IfOk, List, None, Ok};
ghost use Rattle.std.specs.List.{AllByRecursion};
ghost use Rattle.misp_elem.specs.Reading.{answer};
ghost use Rattle.misp_manifest.specs.declared.manifest.ManifestFields.{ManifestFields as Fields};
ghost use Rattle.misp_manifest.specs.Manifest.{IsManifestEvent};
ghost use Rattle.misp_package.specs.PackageReading.{Gives, GivesAll};
ghost use Rattle.misp_wanted.specs.ManifestSpelling.{spell_manifest};
ghost use Rattle.misp_wanted.specs.Manifests.{IsManifest};
ghost use Rattle.misp_wanted.specs.ManifestReading.{AnswersBy, any_part, counted_at, event_after_at, event_before, items_after, key_before, key_stamp_at, manifest_at, manifest_event_at, manifest_of_bytes, part_at, parts_at, stands_after};

use crate::reading::keys::framed_key;
use crate::reading::stamp;
use crate::writing::MANIFEST;
use misp_elem::{DecodeFault, Key};
use misp_ids::{EventId, Items, NoMemory};
use misp_manifest::{KeyStamp, ManifestEvent, ManifestFields};
use misp_package::{Reader, Stop};
use std::alloc::Global;

// Whether an event stands after the one before it.
fn stands_after(before: Option<EventId>, event: &EventId) -> bool
    ensures { result ≡ stands_after before event.now }
{
    match before {
        Some(before) => before.0.0 < event.0.0,
        None => true,
    }
}

// The key of a row, and its stamp.
#[tactic(auto, unfolding(crate::specs::ManifestReading::key_stamp_at))]
fn key_stamp(reader: &mut Reader<'_>, event: EventId, before: Option<Key>) -> Result<KeyStamp, Stop>
    ensures { Gives result reader.new (key_stamp_at event before reader.old) }
{
    let key = framed_key(reader, event, before, true)?;
    let stamp = stamp(reader)?;
    Ok(KeyStamp { key, stamp })
}

// So many of these.
fn key_stamps(
    alloc: Global,
    reader: &mut Reader<'_>,
    event: EventId,
    count: u32,
) -> Result<Items<KeyStamp>, Stop>
    ensures { Gives result reader.new
        (items_after (key_stamp_at event) key_before None count reader.old) }
{
    let mut keys: Vec<KeyStamp> = Vec::new(alloc);
    let mut before = None;
    for _ in 0..count {
        let told = key_stamp(reader, event, before)?;
        before = Some(told.key);
        keys.push(told)?;
    }
    Ok(Items::of(keys))
}

// The keys of a package.
#[tactic(auto, unfolding(crate::specs::ManifestReading::part_at, crate::specs::ManifestReading::counted_at))]
fn part(alloc: Global, reader: &mut Reader<'_>, event: EventId) -> Result<Items<KeyStamp>, Stop>
    ensures { Gives result reader.new (part_at event reader.old) }
{
    let count = reader.count(1, 65)?;
    key_stamps(alloc, reader, event, count)
}

// Those of so many packages.
fn some_parts(
    alloc: Global,
    reader: &mut Reader<'_>,
    event: EventId,
    count: u32,
) -> Result<Items<Items<KeyStamp>>, Stop>
    ensures { Gives result reader.new
        (items_after (λ (u : Unit {0}). part_at event) any_part tt count reader.old) }
{
    let mut parts: Vec<Items<KeyStamp>> = Vec::new(alloc);
    for _ in 0..count {
        let part = part(alloc, reader, event)?;
        parts.push(part)?;
    }
    Ok(Items::of(parts))
}

// Those of the packages of an event.
#[tactic(auto, unfolding(crate::specs::ManifestReading::parts_at, crate::specs::ManifestReading::counted_at))]
fn parts(
    alloc: Global,
    reader: &mut Reader<'_>,
    event: EventId,
) -> Result<Items<Items<KeyStamp>>, Stop>
    ensures { Gives result reader.new (parts_at event reader.old) }
{
    let count = reader.count(1, 4_294_967_295)?;
    some_parts(alloc, reader, event, count)
}

// An event that stands after the one before it.
#[tactic(auto, unfolding(crate::specs::ManifestReading::event_after_at))]
fn event_after(reader: &mut Reader<'_>, before: Option<EventId>) -> Result<EventId, Stop>
    ensures { Gives result reader.new (event_after_at before reader.old) }
{
    let bad = reader.bad();
    let event = reader.event()?;
    if stands_after(before, &event) {
        Ok(event)
    } else {
        Err(bad)
    }
}

// What a manifest says of an event.
#[tactic(auto, unfolding(crate::specs::ManifestReading::manifest_event_at))]
fn manifest_event(
    alloc: Global,
    reader: &mut Reader<'_>,
    before: Option<EventId>,
) -> Result<ManifestFields, Stop>
    ensures { Gives result reader.new (manifest_event_at before reader.old) }
{
    let event = event_after(reader, before)?;
    let parts = parts(alloc, reader, event)?;
    Ok(ManifestFields { event, parts })
}

// The same of so many events.
fn events(alloc: Global, reader: &mut Reader<'_>, count: u32) -> Result<Items<ManifestFields>, Stop>
    ensures { Gives result reader.new
        (items_after manifest_event_at event_before None count reader.old) }
{
    let mut events: Vec<ManifestFields> = Vec::new(alloc);
    let mut before = None;
    for _ in 0..count {
        let event = manifest_event(alloc, reader, before)?;
        before = Some(event.event);
        events.push(event)?;
    }
    Ok(Items::of(events))
}

// A manifest.
#[tactic(auto, unfolding(crate::specs::ManifestReading::manifest_at, crate::specs::ManifestReading::counted_at))]
fn manifest(alloc: Global, reader: &mut Reader<'_>) -> Result<Items<ManifestFields>, Stop>
    ensures { Gives result reader.new (manifest_at reader.old) }
{
    reader.form(MANIFEST)?;
    let count = reader.count(0, 4_294_967_295)?;
    events(alloc, reader, count)
}

// The manifest that all of the bytes are.
#[tactic(auto, unfolding(crate::specs::ManifestReading::manifest_of_bytes))]
fn whole_manifest(alloc: Global, bytes: &[u8]) -> Result<Items<ManifestFields>, Stop>
    ensures { GivesAll result (manifest_of_bytes bytes.now) }
{
    let mut reader = Reader { rest: bytes };
    let events = manifest(alloc, &mut reader)?;
    if !reader.rest.is_empty() {
        return Err(reader.bad());
    }
    Ok(events)
}

// Events with these fields.
fn events_with(alloc: Global, fields: Vec<ManifestFields>) -> Result<Vec<ManifestEvent>, NoMemory>
    requires { AllByRecursion IsManifestEvent fields.items }
    ensures { IfOk result (λ events. events.items ≡ fields.items) }
{
    let mut events = Vec::new(alloc);
    for event in fields {
        events.push(ManifestEvent::of(event))?;
    }
    Ok(events)
}

/// The manifest that the bytes spell, all of the bytes.
pub fn read_manifest(alloc: Global, bytes: &[u8]) -> Result<Vec<ManifestEvent>, DecodeFault>
    // What is read is spelled so.
    ensures found { IfOk result (λ events.
        IsManifest events.items × (bytes.now ≡ spell_manifest events.items)) }
    // What is spelled so is read, unless memory runs out.
    ensures only { (ms : List Fields) → IsManifest ms → bytes.now ≡ spell_manifest ms →
        AnswersBy (λ events. events.items) result (Ok ms) }
    // The place of a fault is that of the first field that is not of its form.
    ensures exact { AnswersBy (λ events. events.items) result
        (answer bytes.now (manifest_of_bytes bytes.now)) }
{
    match whole_manifest(alloc, bytes) {
        Ok(fields) => match events_with(alloc, fields.into_vec()) {
            Ok(events) => Ok(events),
            Err(NoMemory) => Err(DecodeFault::NoMemory),
        },
        Err(Stop::Bad(left)) => Err(DecodeFault::BadRow {
            place: bytes.len().saturating_sub(left),
        }),
        Err(Stop::NoMemory) => Err(DecodeFault::NoMemory),
    }
}
