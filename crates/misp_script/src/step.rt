//! The steps of a script.

use misp_ids::{Direction, InstId, OrgId, Stamp};

/// What a line of a script says.
#[derive(Clone, Copy, PartialEq, Eq)]
pub struct Step<'a> {
    /// The moment of the step.
    pub time: Stamp,
    /// The word from which its identifiers are made.
    pub word: u128,
    pub command: Command<'a>,
}

/// What is done in a step.
#[derive(Clone, Copy, PartialEq, Eq)]
pub enum Command<'a> {
    Nothing,
    Request(RequestLine<'a>),
    Raw(RawLine<'a>),
    Group(GroupLine<'a>),
    Sync(SyncLine),
}

/// A request to an instance.
#[derive(Clone, Copy, PartialEq, Eq)]
pub struct RequestLine<'a> {
    /// The place of the instance in the description, from 0.
    pub at: usize,
    /// The text of the key, if one is given. It may be none that a key could be.
    pub key: Option<&'a str>,
    pub method: &'a str,
    pub target: &'a str,
    pub body: &'a [u8],
}

/// The bytes of a connection to an instance.
#[derive(Clone, Copy, PartialEq, Eq)]
pub struct RawLine<'a> {
    /// The place of the instance in the description, from 0.
    pub at: usize,
    /// The bytes, as an even number of lower-case hexadecimal digits.
    pub hex: &'a [u8],
}

/// The administration of a sharing group at an instance.
#[derive(Clone, Copy, PartialEq, Eq)]
pub struct GroupLine<'a> {
    /// The place of the instance in the description, from 0.
    pub at: usize,
    /// By whom it is administered: an organisation that is known there.
    pub org: OrgId,
    /// Whether the group is added; else it is edited.
    pub add: bool,
    /// The text of the group. It may be no JSON.
    pub body: &'a [u8],
}

/// A synchronisation of an instance over one of its links.
#[derive(Clone, Copy, PartialEq, Eq)]
pub struct SyncLine {
    /// The place of the instance in the description, from 0.
    pub at: usize,
    pub direction: Direction,
    /// The name of the link. There may be no such link.
    pub link: InstId,
}
