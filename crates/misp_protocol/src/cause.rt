//! Why a synchronisation ends before its end.

use misp_ids::Items;

/// What is read of a reply.
#[derive(Clone, Copy, Debug, PartialEq, Eq)]
pub enum Body {
    Head,
    Body,
    Groups,
    Manifest,
    Package,
    Taken,
}

/// Why a synchronisation ends before its end.
#[derive(Drop)]
pub enum Cause {
    /// The instance has no link of this name.
    NoLink,
    LinkOff,
    /// The peer of the link is none of the other instances.
    NoPeer,
    /// The peer refused a request with this status, and by the rule of this number.
    Refused { status: u16, rule: u64 },
    /// A reply has not the form of what was asked.
    Garbled(Body),
    /// A request or its reply was lost on the way.
    Link,
    /// The own keeper failed.
    Keeper,
    NoMemory,
    /// A row that the own keeper holds under this key can not be read.
    BadRow(Items<u8>),
}
