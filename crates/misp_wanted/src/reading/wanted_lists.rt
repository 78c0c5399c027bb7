//! Reading wanted lists.

ghost use Rattle.std.specs.Prelude.{◌≡◌, IfOk, None, Ok};
ghost use Rattle.misp_elem.specs.Reading.{Answers, answer};
ghost use Rattle.misp_manifest.specs.declared.wanted.WantedFields.{WantedFields as Wants};
ghost use Rattle.misp_manifest.specs.Wanted.{IsWanted};
ghost use Rattle.misp_package.specs.PackageReading.{Gives, GivesAll};
ghost use Rattle.misp_wanted.specs.ManifestSpelling.{spell_wanted};
ghost use Rattle.misp_wanted.specs.ManifestReading.{counted_at, framed_at, items_after, wanted_at, wanted_before, wanted_key_of, wanted_keys_at, wanted_of_bytes};

use crate::reading::keys::framed_key;
use crate::writing::WANTED;
use misp_elem::{DecodeFault, Key};
use misp_ids::{EventId, Items};
use misp_manifest::{Wanted, WantedFields};
use misp_package::{Reader, Stop};
use std::alloc::Global;

// So many keys of a wanted list.
fn keys(
    alloc: Global,
    reader: &mut Reader<'_>,
    event: EventId,
    count: u32,
) -> Result<Items<Key>, Stop>
    ensures { Gives result reader.new
        (items_after (λ before. framed_at (wanted_key_of event before)) wanted_before None
        count reader.old) }
{
    let mut keys: Vec<Key> = Vec::new(alloc);
    let mut before = None;
    for _ in 0..count {
        let key = framed_key(reader, event, before, false)?;
        before = Some(key);
        keys.push(key)?;
    }
    Ok(Items::of(keys))
}

// The keys of a wanted list after their number.
#[tactic(auto, unfolding(crate::specs::ManifestReading::wanted_keys_at, crate::specs::ManifestReading::counted_at))]
fn wanted_keys(alloc: Global, reader: &mut Reader<'_>, event: EventId) -> Result<Items<Key>, Stop>
    ensures { Gives result reader.new (wanted_keys_at event reader.old) }
{
    let count = reader.count(1, 65)?;
    keys(alloc, reader, event, count)
}

// A wanted list.
#[tactic(auto, unfolding(crate::specs::ManifestReading::wanted_at))]
fn wanted(alloc: Global, reader: &mut Reader<'_>) -> Result<WantedFields, Stop>
    ensures { Gives result reader.new (wanted_at reader.old) }
{
    reader.form(WANTED)?;
    let event = reader.event()?;
    let part = reader.u32()?;
    let keys = wanted_keys(alloc, reader, event)?;
    Ok(WantedFields { event, part, keys })
}

// The wanted list that all of the bytes are.
#[tactic(auto, unfolding(crate::specs::ManifestReading::wanted_of_bytes))]
fn whole_wanted(alloc: Global, bytes: &[u8]) -> Result<WantedFields, Stop>
    ensures { GivesAll result (wanted_of_bytes bytes.now) }
{
    let mut reader = Reader { rest: bytes };
    let fields = wanted(alloc, &mut reader)?;
    if !reader.rest.is_empty() {
        return Err(reader.bad());
    }
    Ok(fields)
}

/// The wanted list that the bytes spell, all of the bytes.
pub fn read_wanted(alloc: Global, bytes: &[u8]) -> Result<Wanted, DecodeFault>
    // What is read is spelled so.
    ensures found { IfOk result (λ w. IsWanted w × (bytes.now ≡ spell_wanted w)) }
    // What is spelled so is read, unless memory runs out.
    ensures only { (w : Wants) → IsWanted w → bytes.now ≡ spell_wanted w →
        Answers result (Ok w) }
    // The place of a fault is that of the first field that is not of its form.
    ensures exact { Answers result (answer bytes.now (wanted_of_bytes bytes.now)) }
{
    match whole_wanted(alloc, bytes) {
        Ok(fields) => Ok(Wanted::of(fields)),
        Err(Stop::Bad(left)) => Err(DecodeFault::BadRow {
            place: bytes.len().saturating_sub(left),
        }),
        Err(Stop::NoMemory) => Err(DecodeFault::NoMemory),
    }
}
