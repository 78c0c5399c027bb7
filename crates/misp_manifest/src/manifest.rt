//! What a manifest says of an event.

use misp_elem::Key;
use misp_ids::{EventId, Items, Stamp};
use std::marker::Model;

/// The key of a row, and its stamp.
#[derive(Clone, Copy, PartialEq, Eq)]
pub struct KeyStamp {
    pub key: Key,
    pub stamp: Stamp,
}

/// An event of which something passes: for each of its packages the keys of the rows, in their
/// order, each with the stamp of its row.
///
/// A contract sees it as its fields.
#[derive(Drop)]
pub struct ManifestEvent {
    pub fields: ManifestFields,
}

/// The fields of an event of a manifest, whether they fit or not.
#[derive(Drop)]
pub struct ManifestFields {
    pub event: EventId,
    pub parts: Items<Items<KeyStamp>>,
}

impl Model for ManifestEvent {
    ghost use Rattle.misp_manifest.specs.declared.manifest.ManifestFields.{ManifestFields};

    ghost Value = { ManifestFields };

    ghost use Rattle.misp_manifest.specs.Manifest.{IsManifestEvent};

    ghost view = { λ x. x.fields };

    ghost invariant = { λ x. IsManifestEvent x.fields };
}

impl ManifestEvent {
    ghost use Rattle.std.specs.Prelude.{◌≡◌};
    ghost use Rattle.misp_manifest.specs.Manifest.{IsManifestEvent};

    /// The event of these fields.
    pub fn of(fields: ManifestFields) -> ManifestEvent
        requires { IsManifestEvent fields }
        ensures { result ≡ fields }
    {
        ManifestEvent { fields }
    }

    pub fn get(&self) -> &ManifestFields
        ensures value { result.now ≡ self.now }
        ensures fits { IsManifestEvent result.now }
    {
        &self.fields
    }
}
