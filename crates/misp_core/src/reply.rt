//! What a request is answered.

ghost use Rattle.std.specs.Prelude.{◌≡◌};
ghost use Rattle.misp_core.specs.Effects.{refused_by, rule_of_stop};
ghost use Rattle.misp_core.specs.Planning.{unplanned};

use crate::planning::NoPlan;
use misp_elem::{VisibleAttribute, VisibleEvent};
use misp_groups::Group;
use misp_ids::{EventId, GroupId, Items, Refusal, RuleName, Stamp, Text};
use misp_manifest::ManifestEvent;
use misp_model::Package;
use misp_outside::KeeperFault;
use std::alloc::Global;

/// An event of which a pull brings something, with the number of its packages.
#[derive(Clone, Copy, PartialEq, Eq)]
pub struct EventParts {
    pub event: EventId,
    pub parts: u32,
}

/// Attributes that are found, with the names of the groups that their labels name.
#[derive(Drop)]
pub struct Hits {
    pub attributes: Items<VisibleAttribute>,
    pub group_names: Items<(GroupId, Text)>,
}

/// What an accepted request is answered.
#[derive(Drop)]
pub enum Answer {
    /// So many rows of the event were written, the newest of them with this stamp.
    Saved {
        elements: u64,
        event: EventId,
        stamp: Stamp,
    },
    Event(VisibleEvent),
    /// A page of the events that the caller sees, as a list shows them.
    Index(Items<VisibleEvent>),
    Hits(Hits),
    /// Whole events that are found.
    Events(Items<VisibleEvent>),
    /// The groups that concern the caller, or that a pull brings.
    Groups(Items<Group>),
    /// So many groups were taken, or so many rows of a package.
    Taken(u64),
    /// The events of which a pull brings something, in their order.
    Parts(Items<EventParts>),
    /// A package that a pull brings, or those of its rows that were asked for.
    Part(Package),
    /// What the manifest says of each event of which a pull brings something, in their order.
    Manifest(Items<ManifestEvent>),
}

#[derive(Drop)]
pub enum Reply {
    Ok(Answer),
    Refused(Refusal),
}

impl Reply {
    /// The refusal by a rule that has no place.
    pub(crate) fn refused_by(alloc: Global, rule: RuleName) -> Reply
        ensures { result ≡ refused_by rule }
    {
        Reply::Refused(Refusal::bare(alloc, rule))
    }

    /// What is replied where nothing is planned.
    pub fn unplanned(alloc: Global, why: NoPlan) -> Reply
        ensures { result ≡ unplanned why }
    {
        match why {
            NoPlan::Refused(refusal) => Reply::Refused(refusal),
            NoPlan::KeeperFault => Reply::refused_by(alloc, RuleName::KeeperFault),
            NoPlan::NoMemory => Reply::refused_by(alloc, RuleName::NoMemory),
        }
    }

    /// The refusal of what a keeper stopped.
    pub fn stopped_by(alloc: Global, stop: KeeperFault) -> Reply
        ensures { result ≡ refused_by (rule_of_stop stop) }
    {
        let rule = match stop {
            KeeperFault::Failed => RuleName::KeeperFault,
            KeeperFault::NoMemory => RuleName::NoMemory,
        };
        Reply::refused_by(alloc, rule)
    }
}
