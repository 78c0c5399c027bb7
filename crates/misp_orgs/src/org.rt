//! Organisations.

ghost use Rattle.std.specs.Prelude.{◌≡◌, ◌≤◌, length, nat_le};
ghost use Rattle.std.specs.List.{list_any};
ghost use Rattle.std.specs.Str.{chars};
ghost use Rattle.std.specs.Char.{is_control};
ghost use Rattle.misp_orgs.specs.Org.{name_limit, is_org_name};

use misp_ids::{OrgId, Text};
use std::alloc::AllocError;
use std::marker::Model;

/// The most bytes that an organisation's name has.
pub const NAME_LIMIT: usize = 64;

/// A name is short enough for an organisation.
pub fn is_short(name: &str) -> bool
    ensures short { result ≡ nat_le (length name.now) name_limit }
    ensures limit { NAME_LIMIT ≡ name_limit }
{
    name.len() <= NAME_LIMIT
}

fn has_control(text: &str) -> bool
    ensures { result ≡ list_any is_control (chars text.now) }
{
    text.chars().any(|c| c.is_control())
}

/// A text can be an organisation's name.
pub fn is_org_name(text: &str) -> bool
    ensures { result ≡ is_org_name text.now }
{
    !text.is_empty() && is_short(text) && !has_control(text)
}

/// An organisation and its name.
///
/// A contract sees it as its fields.
#[derive(Drop)]
pub struct Org {
    pub uuid: OrgId,
    pub name: Text,
}

impl Model for Org {
    ghost use Rattle.misp_orgs.specs.Org.{OrgFields, IsOrg};

    ghost Value = { OrgFields };

    ghost view = { λ o. record { uuid = o.uuid; name = o.name } };

    ghost invariant = { λ o. IsOrg (record { uuid = o.uuid; name = o.name }) };
}

impl Clone for Org {
    ghost use Rattle.std.specs.Prelude.{◌≡◌};

    ghost is_clone = { λ org copy. copy ≡ org };

    fn clone(&self) -> Result<Org, AllocError> {
        Ok(Org {
            uuid: self.uuid,
            name: self.name.clone()?,
        })
    }
}
