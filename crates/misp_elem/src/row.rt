//! Rows.

use crate::content::Content;
use crate::key::{Key, KeyForm};
use misp_ids::{Label, OrgId, Stamp};
use std::marker::Model;

/// A row, whose content fits its key, with a label that such a row can have. A tombstone has the
/// label `Own` and no flag.
///
/// A contract sees it as its fields.
#[derive(Drop)]
pub struct Row {
    pub owner: OrgId,
    pub key: Key,
    pub stamp: Stamp,
    pub label: Label,
    /// Not yet published.
    pub held: bool,
    /// Came by a synchronisation.
    pub carried: bool,
    pub content: Content,
}

/// The forms in which a row is spelled. The first has neither the parts of objects nor moments.
#[derive(Clone, Copy, PartialEq, Eq)]
pub(crate) enum RowForm {
    First,
    Second,
}

/// The fields of a row, whether they fit or not.
#[derive(Drop)]
pub struct RowFields {
    pub owner: OrgId,
    pub key: KeyForm,
    pub stamp: Stamp,
    pub label: Label,
    pub held: bool,
    pub carried: bool,
    pub content: Content,
}

impl Model for Row {
    ghost use Rattle.misp_elem.specs.declared.row.RowFields.{RowFields};

    ghost Value = { RowFields };

    ghost use Rattle.misp_elem.specs.Row.{IsRow};

    ghost view = { λ r. record {
      owner = r.owner;
      key = r.key;
      stamp = r.stamp;
      label = r.label;
      held = r.held;
      carried = r.carried;
      content = r.content;
    } };

    ghost invariant = { λ r. IsRow (record {
      owner = r.owner;
      key = r.key;
      stamp = r.stamp;
      label = r.label;
      held = r.held;
      carried = r.carried;
      content = r.content;
    }) };
}

impl Row {
    ghost use Rattle.std.specs.Prelude.{◌≡◌};
    ghost use Rattle.misp_elem.specs.Row.{IsRow};

    /// The row of these fields.
    pub fn of(fields: RowFields) -> Row
        requires { IsRow fields }
        ensures { result ≡ fields }
    {
        let RowFields {
            owner,
            key,
            stamp,
            label,
            held,
            carried,
            content,
        } = fields;
        Row {
            owner,
            key: Key { form: key },
            stamp,
            label,
            held,
            carried,
            content,
        }
    }
}
