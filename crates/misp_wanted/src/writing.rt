//! Writing manifests and wanted lists.

ghost use Rattle.std.specs.Prelude.{◌≡◌, ◌++◌, flat_map, length, IfOk, OnOk};
ghost use Rattle.misp_elem.specs.Spelling as spelling;
ghost use Rattle.misp_package.specs.Spelling.{number};
ghost use Rattle.misp_wanted.specs.ManifestSpelling.{framed_key, manifest_form, spell_event, spell_key_stamp, spell_keys, spell_manifest, spell_wanted, wanted_form};

use misp_elem::{Key, put_key};
use misp_ids::{EventId, Items, NoMemory};
use misp_manifest::{KeyStamp, ManifestEvent, Wanted};
use std::alloc::Global;

/// What a manifest begins with.
pub(crate) const MANIFEST: &[u8] = b"MSP2";

/// What a wanted list begins with.
pub(crate) const WANTED: &[u8] = b"MSP3";

/// Room that a short list fits into.
const ROOM: usize = 1024;

// Four bytes.
#[tactic(auto, unfolding(misp_package::specs::Spelling::number))]
fn put_u32(out: &mut Vec<u8>, n: u32) -> Result<(), NoMemory>
    ensures { OnOk result (out.new.items ≡ out.old.items ++ number n) }
{
    out.extend_from_slice(&n.to_be_bytes())?;
    Ok(())
}

// The number of those that follow. More of them than a `u32` counts are not written.
fn put_count(out: &mut Vec<u8>, n: usize) -> Result<(), NoMemory>
    ensures { OnOk result (out.new.items ≡ out.old.items ++ number n) }
{
    match u32::try_from(n) {
        Ok(count) => put_u32(out, count),
        Err(_) => Err(NoMemory),
    }
}

// Sixteen bytes.
#[tactic(auto, unfolding(misp_elem::specs::Spelling::uid))]
fn put_event(out: &mut Vec<u8>, event: &EventId) -> Result<(), NoMemory>
    ensures { OnOk result (out.new.items ≡ out.old.items ++ spelling.uid event.now.0) }
{
    out.extend_from_slice(&event.0.0.to_be_bytes())?;
    Ok(())
}

// A key after its length, which is known once the key is written.
#[tactic(auto, unfolding(misp_elem::specs::Spelling::text, misp_package::specs::Spelling::number))]
fn put_framed(out: &mut Vec<u8>, key: &Key) -> Result<(), NoMemory>
    ensures { OnOk result (out.new.items ≡ out.old.items ++ framed_key key.now) }
{
    let start = out.len();
    put_u32(out, 0)?;
    let from = out.len();
    put_key(out, &key.form)?;
    let Ok(len) = u32::try_from(out.len() - from) else {
        return Err(NoMemory);
    };
    out[start..from].copy_from_slice(&len.to_be_bytes());
    Ok(())
}

// The key of a row, and its stamp.
#[tactic(auto, unfolding(misp_elem::specs::Spelling::stamp))]
fn put_key_stamp(out: &mut Vec<u8>, told: &KeyStamp) -> Result<(), NoMemory>
    ensures { OnOk result (out.new.items ≡ out.old.items ++ spell_key_stamp told.now) }
{
    put_framed(out, &told.key)?;
    out.extend_from_slice(&told.stamp.get().to_be_bytes())?;
    Ok(())
}

// The keys of a package.
fn put_keys(out: &mut Vec<u8>, keys: &[KeyStamp]) -> Result<(), NoMemory>
    ensures { OnOk result (out.new.items ≡ out.old.items ++ spell_keys keys.now) }
{
    put_count(out, keys.len())?;
    for told in keys {
        put_key_stamp(out, told)?;
    }
    Ok(())
}

// The keys of each package.
fn put_parts(out: &mut Vec<u8>, parts: &[Items<KeyStamp>]) -> Result<(), NoMemory>
    ensures { OnOk result (out.new.items
        ≡ out.old.items ++ (number (length parts.now) ++ flat_map spell_keys parts.now)) }
{
    put_count(out, parts.len())?;
    for keys in parts {
        put_keys(out, keys.as_slice())?;
    }
    Ok(())
}

// What a manifest says of an event.
fn put_manifest_event(out: &mut Vec<u8>, event: &ManifestEvent) -> Result<(), NoMemory>
    ensures { OnOk result (out.new.items ≡ out.old.items ++ spell_event «event».now) }
{
    let fields = event.get();
    put_event(out, &fields.event)?;
    put_parts(out, fields.parts.as_slice())
}

// The events after their number.
fn put_events(out: &mut Vec<u8>, events: &[ManifestEvent]) -> Result<(), NoMemory>
    ensures { OnOk result (out.new.items
        ≡ out.old.items ++ (number (length events.now) ++ flat_map spell_event events.now)) }
{
    put_count(out, events.len())?;
    for event in events {
        put_manifest_event(out, event)?;
    }
    Ok(())
}

/// The one spelling of a manifest. More events than a `u32` counts are not written: the answer is
/// `NoMemory`.
pub fn manifest_bytes(alloc: Global, events: &[ManifestEvent]) -> Result<Vec<u8>, NoMemory>
    ensures { IfOk result (λ bytes. bytes.items ≡ spell_manifest events.now) }
{
    let mut bytes = Vec::with_capacity(alloc, ROOM)?;
    bytes.extend_from_slice(MANIFEST)?;
    put_events(&mut bytes, events)?;
    Ok(bytes)
}

// The keys after their number.
fn put_wanted_keys(out: &mut Vec<u8>, keys: &[Key]) -> Result<(), NoMemory>
    ensures { OnOk result (out.new.items
        ≡ out.old.items ++ (number (length keys.now) ++ flat_map framed_key keys.now)) }
{
    put_count(out, keys.len())?;
    for key in keys {
        put_framed(out, key)?;
    }
    Ok(())
}

/// The one spelling of a wanted list.
pub fn wanted_bytes(alloc: Global, wanted: &Wanted) -> Result<Vec<u8>, NoMemory>
    ensures { IfOk result (λ bytes. bytes.items ≡ spell_wanted «wanted».now) }
{
    let fields = wanted.get();
    let mut bytes = Vec::with_capacity(alloc, ROOM)?;
    bytes.extend_from_slice(WANTED)?;
    put_event(&mut bytes, &fields.event)?;
    put_u32(&mut bytes, fields.part)?;
    put_wanted_keys(&mut bytes, fields.keys.as_slice())?;
    Ok(bytes)
}
