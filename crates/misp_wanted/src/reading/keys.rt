//! Reading keys of an event.

ghost use Rattle.std.specs.Prelude.{◌≡◌};
ghost use Rattle.misp_package.specs.PackageReading.{Gives, GivesAll};
ghost use Rattle.misp_wanted.specs.ManifestReading.{first_key_at, first_key_of, framed_at, later_key_of, list_key_of, listed_key_of, own_key_of, wanted_key_of};

use crate::reading::{between, front, own_event};
use misp_elem::{DecodeFault, Key, KeyForm, Place, compare_keys, decode_key};
use misp_ids::EventId;
use misp_package::{Reader, Stop};

// The key of the event itself.
#[tactic(auto, unfolding(crate::specs::ManifestReading::first_key_at))]
fn first_key_at(reader: &mut Reader<'_>, event: EventId) -> Result<Key, Stop>
    ensures { Gives result reader.new (first_key_at event reader.old) }
{
    between(reader, 0, 0)?;
    let own = own_event(reader, event)?;
    between(reader, 0, 0)?;
    let _number = own.0.0;
    Ok(Key {
        form: KeyForm::Element {
            event: own,
            place: Place::Event,
        },
    })
}

// The key of the event itself that all of the bytes are.
#[tactic(auto, unfolding(crate::specs::ManifestReading::first_key_of))]
fn first_key(bytes: &[u8], event: EventId) -> Result<Key, Stop>
    ensures { GivesAll result (first_key_of event bytes.now) }
{
    let mut reader = Reader { rest: bytes };
    let key = first_key_at(&mut reader, event)?;
    if !reader.rest.is_empty() {
        return Err(reader.bad());
    }
    Ok(key)
}

// The key of the event that all of the bytes are.
#[tactic(auto, unfolding(crate::specs::ManifestReading::own_key_of))]
fn own_key(bytes: &[u8], event: EventId) -> Result<Key, Stop>
    ensures { GivesAll result (own_key_of event bytes.now) }
{
    let mut reader = Reader { rest: bytes };
    front(&mut reader, event)?;
    match decode_key(bytes) {
        Ok(key) => Ok(key),
        Err(DecodeFault::BadRow { place }) => Err(Stop::Bad(bytes.len().saturating_sub(place))),
        Err(DecodeFault::NoMemory) => Err(Stop::NoMemory),
    }
}

// The key of the event, after this one, that all of the bytes are.
#[tactic(auto, unfolding(crate::specs::ManifestReading::later_key_of))]
fn later_key(bytes: &[u8], event: EventId, before: &Key) -> Result<Key, Stop>
    ensures { GivesAll result (later_key_of event before.now bytes.now) }
{
    let key = own_key(bytes, event)?;
    if compare_keys(before, &key).is_lt() {
        Ok(key)
    } else {
        Err(Stop::Bad(bytes.len()))
    }
}

// A key of a package: the event's own comes first.
fn listed_key(bytes: &[u8], event: EventId, before: Option<Key>) -> Result<Key, Stop>
    ensures { GivesAll result (listed_key_of event before bytes.now) }
{
    match before {
        None => first_key(bytes, event),
        Some(before) => later_key(bytes, event, &before),
    }
}

// A key of a wanted list.
fn wanted_key(bytes: &[u8], event: EventId, before: Option<Key>) -> Result<Key, Stop>
    ensures { GivesAll result (wanted_key_of event before bytes.now) }
{
    match before {
        None => own_key(bytes, event),
        Some(before) => later_key(bytes, event, &before),
    }
}

// A key of a list, of whose first key the flag says whether it is the event's own.
fn list_key(bytes: &[u8], event: EventId, before: Option<Key>, own_first: bool) -> Result<Key, Stop>
    ensures { GivesAll result (list_key_of own_first event before bytes.now) }
{
    if own_first {
        listed_key(bytes, event, before)
    } else {
        wanted_key(bytes, event, before)
    }
}

// A key of a list after its length.
#[tactic(auto, unfolding(crate::specs::ManifestReading::framed_at))]
pub(super) fn framed_key(
    reader: &mut Reader<'_>,
    event: EventId,
    before: Option<Key>,
    own_first: bool,
) -> Result<Key, Stop>
    ensures { Gives result reader.new (framed_at (list_key_of own_first event before) reader.old) }
{
    let bad = reader.bad();
    let len = reader.u32()? as usize;
    if reader.rest.len() < len {
        return Err(bad);
    }
    let after_len = reader.rest.len();
    let (front, rest) = reader.rest.split_at(len);
    reader.rest = rest;
    match list_key(front, event, before, own_first) {
        Ok(key) => Ok(key),
        Err(Stop::Bad(left)) => Err(Stop::Bad(after_len.saturating_sub(
            front.len().saturating_sub(left),
        ))),
        Err(Stop::NoMemory) => Err(Stop::NoMemory),
    }
}
