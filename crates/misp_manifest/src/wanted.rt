//! Which rows of a package are wanted.

use misp_elem::Key;
use misp_ids::{EventId, Items};
use std::marker::Model;

/// The rows of one package that are wanted: 1 to 65 keys of its event, which ascend.
///
/// A contract sees it as its fields.
#[derive(Drop)]
pub struct Wanted {
    pub fields: WantedFields,
}

/// The fields of a wanted list, whether they fit or not.
#[derive(Drop)]
pub struct WantedFields {
    pub event: EventId,
    /// From 0 on.
    pub part: u32,
    pub keys: Items<Key>,
}

impl Model for Wanted {
    ghost use Rattle.misp_manifest.specs.declared.wanted.WantedFields.{WantedFields};

    ghost Value = { WantedFields };

    ghost use Rattle.misp_manifest.specs.Wanted.{IsWanted};

    ghost view = { λ x. x.fields };

    ghost invariant = { λ x. IsWanted x.fields };
}

impl Wanted {
    ghost use Rattle.std.specs.Prelude.{◌≡◌};
    ghost use Rattle.misp_manifest.specs.Wanted.{IsWanted};

    /// The wanted list of these fields.
    pub fn of(fields: WantedFields) -> Wanted
        requires { IsWanted fields }
        ensures { result ≡ fields }
    {
        Wanted { fields }
    }

    pub fn get(&self) -> &WantedFields
        ensures value { result.now ≡ self.now }
        ensures fits { IsWanted result.now }
    {
        &self.fields
    }
}
