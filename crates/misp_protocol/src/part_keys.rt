//! The parts of a manifest.

ghost use Rattle.std.specs.Prelude.{◌≡◌, ◌++◌, IfOk};
ghost use Rattle.misp_protocol.specs.Parts.{parts_listed, parts_of};

use misp_ids::{EventId, Items, NoMemory};
use misp_manifest::{KeyStamp, ManifestEvent, ManifestFields};
use std::alloc::Global;
use std::marker::Model;

/// What a manifest says of one package: its event, its number, and the keys of its rows with their
/// stamps. They are 1 to 65 keys of the event, which ascend, and the first is the event's own.
///
/// A contract sees it as its fields.
#[derive(Drop)]
pub struct PartKeys {
    pub fields: PartKeysFields,
}

/// The fields of a part, whether they fit or not.
#[derive(Drop)]
pub struct PartKeysFields {
    pub event: EventId,
    /// From 0 on.
    pub part: u32,
    pub keys: Items<KeyStamp>,
}

impl Model for PartKeys {
    ghost use Rattle.misp_protocol.specs.declared.part_keys.PartKeysFields.{PartKeysFields};

    ghost Value = { PartKeysFields };

    ghost use Rattle.misp_protocol.specs.Parts.{IsPartKeys};

    ghost view = { λ x. x.fields };

    ghost invariant = { λ x. IsPartKeys x.fields };
}

impl PartKeys {
    ghost use Rattle.std.specs.Prelude.{◌≡◌};
    ghost use Rattle.misp_protocol.specs.Parts.{IsPartKeys};

    /// The part of these fields.
    pub fn of(fields: PartKeysFields) -> PartKeys
        requires { IsPartKeys fields }
        ensures { result ≡ fields }
    {
        PartKeys { fields }
    }

    pub fn get(&self) -> &PartKeysFields
        ensures value { result.now ≡ self.now }
        ensures fits { IsPartKeys result.now }
    {
        &self.fields
    }
}

// With the parts of an event, numbered from 0.
fn with_parts(mut parts: Vec<PartKeys>, manifest: ManifestEvent) -> Result<Vec<PartKeys>, NoMemory>
    ensures { IfOk result (λ more. more.items ≡ parts.items ++ parts_of manifest) }
{
    let ManifestFields {
        event,
        parts: lists,
    } = manifest.fields;
    let mut part = 0;
    for keys in lists.into_vec() {
        parts.push(PartKeys::of(PartKeysFields { event, part, keys }))?;
        part += 1;
    }
    Ok(parts)
}

/// The parts of the events of a manifest, in their order. They are numbered from 0 in each event.
pub fn parts_listed(alloc: Global, events: Vec<ManifestEvent>) -> Result<Vec<PartKeys>, NoMemory>
    ensures { IfOk result (λ parts. parts.items ≡ parts_listed events.items) }
{
    let mut parts = Vec::new(alloc);
    for event in events {
        parts = with_parts(parts, event)?;
    }
    Ok(parts)
}
