//! Packages, in which a synchronisation carries rows.

use misp_elem::Row;
use misp_ids::{EventId, Items};
use std::marker::Model;

/// A part of an event: the event's own row and at most 64 others, which ascend by their keys. The
/// rows are nobody's, carried and not held.
///
/// A contract sees it as its fields.
#[derive(Drop)]
pub struct Package {
    pub fields: PackageFields,
}

/// The fields of a package, whether they fit or not.
#[derive(Drop)]
pub struct PackageFields {
    pub event: EventId,
    /// From 0 on.
    pub part: u32,
    pub parts: u32,
    pub rows: Items<Row>,
}

impl Model for Package {
    ghost use Rattle.misp_model.specs.declared.package.PackageFields.{PackageFields};

    ghost Value = { PackageFields };

    ghost use Rattle.misp_model.specs.Package.{IsPackage};

    ghost view = { λ x. x.fields };

    ghost invariant = { λ x. IsPackage x.fields };
}

impl Package {
    ghost use Rattle.std.specs.Prelude.{◌≡◌};
    ghost use Rattle.misp_model.specs.Package.{IsPackage};

    /// The package of these fields.
    pub fn of(fields: PackageFields) -> Package
        requires { IsPackage fields }
        ensures { result ≡ fields }
    {
        Package { fields }
    }

    pub fn get(&self) -> &PackageFields
        ensures value { result.now ≡ self.now }
        ensures fits { IsPackage result.now }
    {
        &self.fields
    }
}
