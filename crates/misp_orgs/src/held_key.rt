//! Keys in memory of their own.

ghost use Rattle.std.specs.Prelude.{◌≡◌, IfOk};

use crate::key::KeyRecord;
use std::alloc::{AllocError, Global};
use std::marker::Model;

/// The record of a key behind one pointer, so that a list of keys moves little where one is put
/// between them. A contract sees it as the fields of the record.
#[derive(Drop)]
pub struct HeldKey {
    key: Box<KeyRecord>,
}

impl Model for HeldKey {
    ghost use Rattle.misp_orgs.specs.Keys.{KeyFields};

    ghost Value = { KeyFields };

    ghost view = { λ held. held.key.value };
}

impl HeldKey {
    /// The record, moved into memory of its own.
    pub fn of(alloc: Global, key: KeyRecord) -> Result<HeldKey, AllocError>
        ensures { IfOk result (λ held. held ≡ key) }
    {
        Ok(HeldKey {
            key: Box::new(alloc, key)?,
        })
    }

    /// The record.
    pub fn record(&self) -> &KeyRecord
        ensures { result.now ≡ self.now }
    {
        &*self.key
    }
}
