//! Why a description was not read.

ghost use Rattle.std.specs.Prelude.{◌≡◌};
ghost use Rattle.misp_script.specs.declared.fault.DescFault.TheVariants.{NoMemory};
ghost use Rattle.misp_script.specs.Faults.{need_name};

use misp_ids::Text;
use std::alloc::{AllocError, AllocFailed};

/// What was needed at the first faulty place of a description.
#[derive(Clone, Copy, PartialEq, Eq)]
pub enum DescNeed {
    /// A text of TOML.
    Toml,
    /// A member that is among those of its table, or one that is a list of tables.
    Member,
    /// A list that is no longer than its limit.
    Limit,
    /// A member that may not be absent.
    Present,
    Text,
    Flag,
    Name,
    Uuid,
    Key,
    Role,
    /// A name that the description brings.
    Known,
    /// A value that no entry before has.
    Distinct,
    /// Two instances that one organisation hosts.
    Host,
}

impl DescNeed {
    /// The word for the need.
    #[tactic(auto, unfolding(crate::specs::Faults::need_name))]
    pub fn text(self) -> &'static str
        ensures { result.now ≡ need_name self }
    {
        match self {
            DescNeed::Toml => "toml",
            DescNeed::Member => "member",
            DescNeed::Limit => "limit",
            DescNeed::Present => "present",
            DescNeed::Text => "text",
            DescNeed::Flag => "flag",
            DescNeed::Name => "name",
            DescNeed::Uuid => "uuid",
            DescNeed::Key => "key",
            DescNeed::Role => "role",
            DescNeed::Known => "known",
            DescNeed::Distinct => "distinct",
            DescNeed::Host => "host",
        }
    }
}

/// Why a description was not read.
#[derive(PartialEq, Eq, Drop)]
pub enum DescFault {
    /// At the first faulty place something else was needed. The path of the whole text is `-`; the
    /// others are as in `key[2].org`.
    Bad { path: Text, need: DescNeed },
    NoMemory,
}

impl From<AllocError> for DescFault {
    ghost from_gives = { λ _ fault. fault ≡ NoMemory };

    fn from(_error: AllocError) -> DescFault {
        DescFault::NoMemory
    }
}

impl<T: Drop> From<AllocFailed<T>> for DescFault {
    ghost from_gives = { λ _ fault. fault ≡ NoMemory };

    fn from(_error: AllocFailed<T>) -> DescFault {
        DescFault::NoMemory
    }
}
