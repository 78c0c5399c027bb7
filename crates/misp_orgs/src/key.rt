//! Keys, and who asks with them.

use crate::role::Role;
use misp_ids::{ApiKey, InstId, OrgId};
use std::marker::Model;

/// A key of an organisation at an instance.
///
/// A contract sees it as its fields.
#[derive(Clone, Copy, PartialEq, Eq)]
pub struct KeyRecord {
    pub key: ApiKey,
    pub org: OrgId,
    pub role: Role,
    /// The instance that asks with a key for synchronisation.
    pub partner: Option<InstId>,
    /// Nobody asks with it any more.
    pub revoked: bool,
    /// The instance that asks with it is of the same host.
    pub internal: bool,
}

impl Model for KeyRecord {
    ghost use Rattle.misp_orgs.specs.Keys.{KeyFields, IsKey};

    ghost Value = { KeyFields };

    ghost view = { λ k. record {
      key = k.key;
      org = k.org;
      role = k.role;
      partner = k.partner;
      revoked = k.revoked;
      internal = k.internal;
    } };

    ghost invariant = { λ k. IsKey (record {
      key = k.key;
      org = k.org;
      role = k.role;
      partner = k.partner;
      revoked = k.revoked;
      internal = k.internal;
    }) };

    ghost inverse = { λ v. record {
      key = v.key;
      org = v.org;
      role = v.role;
      partner = v.partner;
      revoked = v.revoked;
      internal = v.internal;
    } };
}

/// Who asks.
///
/// A contract sees it as its fields.
#[derive(Clone, Copy, PartialEq, Eq)]
pub struct Caller {
    pub org: OrgId,
    pub role: Role,
    /// The instance that asks with a key for synchronisation.
    pub partner: Option<InstId>,
    /// That instance is of the same host.
    pub internal: bool,
}

impl Model for Caller {
    ghost use Rattle.misp_orgs.specs.Keys.{CallerFields, IsCaller};

    ghost Value = { CallerFields };

    ghost view = { λ c. record {
      org = c.org;
      role = c.role;
      partner = c.partner;
      internal = c.internal;
    } };

    ghost invariant = { λ c. IsCaller (record {
      org = c.org;
      role = c.role;
      partner = c.partner;
      internal = c.internal;
    }) };

    ghost inverse = { λ v. record {
      org = v.org;
      role = v.role;
      partner = v.partner;
      internal = v.internal;
    } };
}
