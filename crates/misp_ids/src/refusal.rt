//! Why a request is refused.

ghost use Rattle.std.specs.Prelude.{◌≡◌};
ghost use Rattle.misp_ids.specs.Refusal.{rule_number, rule_status, rule_name, bare};

use crate::text::Text;
use std::alloc::Global;

/// The rules by which requests are refused.
#[derive(Clone, Copy, PartialEq, Eq)]
pub enum RuleName {
    NoKey,
    BadRequest,
    TooLarge,
    NoRoute,
    NoMethod,
    BadJson,
    BadField,
    NoPermission,
    NotGranted,
    NotOwner,
    LockedCopy,
    EventExists,
    EventGone,
    ElementExists,
    GroupNotUsable,
    OlderTime,
    TimeLimit,
    BinaryType,
    ProposalExists,
    ProposalClosed,
    NoLink,
    LinkOff,
    PeerRefused,
    PeerGarbled,
    LinkFault,
    KeeperFault,
    NoMemory,
    BadRow,
    GroupExists,
    NoGroup,
    NotCreator,
    LockedGroup,
    OrgExists,
    NoOrg,
    KeyExists,
    UnknownKey,
    LinkExists,
    NoPeer,
    ElementFull,
}

/// A rule, and the place or the further words that belong to it.
#[derive(Drop)]
pub struct Refusal {
    pub name: RuleName,
    pub place: Text,
}

impl RuleName {
    /// The number of the rule.
    pub fn number(self) -> u8
        ensures { result ≡ rule_number self }
    {
        match self {
            RuleName::NoKey => 1,
            RuleName::BadRequest => 2,
            RuleName::TooLarge => 3,
            RuleName::NoRoute => 4,
            RuleName::NoMethod => 5,
            RuleName::BadJson => 6,
            RuleName::BadField => 7,
            RuleName::NoPermission => 8,
            RuleName::NotGranted => 9,
            RuleName::NotOwner => 10,
            RuleName::LockedCopy => 11,
            RuleName::EventExists => 12,
            RuleName::EventGone => 13,
            RuleName::ElementExists => 14,
            RuleName::GroupNotUsable => 15,
            RuleName::OlderTime => 16,
            RuleName::TimeLimit => 17,
            RuleName::BinaryType => 18,
            RuleName::ProposalExists => 19,
            RuleName::ProposalClosed => 20,
            RuleName::NoLink => 21,
            RuleName::LinkOff => 22,
            RuleName::PeerRefused => 23,
            RuleName::PeerGarbled => 24,
            RuleName::LinkFault => 25,
            RuleName::KeeperFault => 26,
            RuleName::NoMemory => 27,
            RuleName::BadRow => 28,
            RuleName::GroupExists => 29,
            RuleName::NoGroup => 30,
            RuleName::NotCreator => 31,
            RuleName::LockedGroup => 32,
            RuleName::OrgExists => 33,
            RuleName::NoOrg => 34,
            RuleName::KeyExists => 35,
            RuleName::UnknownKey => 36,
            RuleName::LinkExists => 37,
            RuleName::NoPeer => 38,
            RuleName::ElementFull => 39,
        }
    }

    /// The status of the reply, by RFC 9110, section 15, and for 507 by RFC 4918, section 11.5.
    pub fn status(self) -> u16
        ensures { result ≡ rule_status self }
    {
        match self {
            RuleName::BadRequest | RuleName::BadJson | RuleName::BadField => 400,
            RuleName::BinaryType => 400,
            RuleName::NoKey | RuleName::NoPermission | RuleName::NotOwner => 403,
            RuleName::LockedCopy | RuleName::GroupNotUsable | RuleName::LinkOff => 403,
            RuleName::NotCreator | RuleName::LockedGroup => 403,
            RuleName::NoRoute | RuleName::NotGranted | RuleName::NoLink => 404,
            RuleName::NoGroup | RuleName::NoOrg => 404,
            RuleName::UnknownKey | RuleName::NoPeer => 404,
            RuleName::NoMethod => 405,
            RuleName::EventExists | RuleName::EventGone | RuleName::ElementExists => 409,
            RuleName::OlderTime | RuleName::TimeLimit | RuleName::ProposalExists => 409,
            RuleName::ProposalClosed | RuleName::GroupExists | RuleName::OrgExists => 409,
            RuleName::KeyExists | RuleName::LinkExists | RuleName::ElementFull => 409,
            RuleName::TooLarge => 413,
            RuleName::BadRow => 500,
            RuleName::PeerRefused | RuleName::PeerGarbled | RuleName::LinkFault => 502,
            RuleName::KeeperFault => 503,
            RuleName::NoMemory => 507,
        }
    }

    /// The name, as replies show it.
    #[tactic(auto, unfolding(crate::specs::Refusal::rule_name))]
    pub fn text(self) -> &'static str
        ensures { result.now ≡ rule_name self }
    {
        match self {
            RuleName::NoKey => "NoKey",
            RuleName::BadRequest => "BadRequest",
            RuleName::TooLarge => "TooLarge",
            RuleName::NoRoute => "NoRoute",
            RuleName::NoMethod => "NoMethod",
            RuleName::BadJson => "BadJson",
            RuleName::BadField => "BadField",
            RuleName::NoPermission => "NoPermission",
            RuleName::NotGranted => "NotGranted",
            RuleName::NotOwner => "NotOwner",
            RuleName::LockedCopy => "LockedCopy",
            RuleName::EventExists => "EventExists",
            RuleName::EventGone => "EventGone",
            RuleName::ElementExists => "ElementExists",
            RuleName::GroupNotUsable => "GroupNotUsable",
            RuleName::OlderTime => "OlderTime",
            RuleName::TimeLimit => "TimeLimit",
            RuleName::BinaryType => "BinaryType",
            RuleName::ProposalExists => "ProposalExists",
            RuleName::ProposalClosed => "ProposalClosed",
            RuleName::NoLink => "NoLink",
            RuleName::LinkOff => "LinkOff",
            RuleName::PeerRefused => "PeerRefused",
            RuleName::PeerGarbled => "PeerGarbled",
            RuleName::LinkFault => "LinkFault",
            RuleName::KeeperFault => "KeeperFault",
            RuleName::NoMemory => "NoMemory",
            RuleName::BadRow => "BadRow",
            RuleName::GroupExists => "GroupExists",
            RuleName::NoGroup => "NoGroup",
            RuleName::NotCreator => "NotCreator",
            RuleName::LockedGroup => "LockedGroup",
            RuleName::OrgExists => "OrgExists",
            RuleName::NoOrg => "NoOrg",
            RuleName::KeyExists => "KeyExists",
            RuleName::UnknownKey => "UnknownKey",
            RuleName::LinkExists => "LinkExists",
            RuleName::NoPeer => "NoPeer",
            RuleName::ElementFull => "ElementFull",
        }
    }
}

impl Refusal {
    /// The refusal by a rule that has no place.
    pub fn bare(alloc: Global, name: RuleName) -> Refusal
        ensures { result ≡ bare name }
    {
        Refusal {
            name,
            place: Text::of(String::new(alloc)),
        }
    }

    /// The number of its rule.
    pub fn rule(&self) -> u8
        ensures { result ≡ rule_number self.now.name }
    {
        self.name.number()
    }

    /// The status of the reply.
    pub fn status(&self) -> u16
        ensures { result ≡ rule_status self.now.name }
    {
        self.name.status()
    }
}
