//! Why a text or a body was not read.

ghost use Rattle.std.specs.Prelude.{◌≡◌};
ghost use Rattle.misp_format.specs.declared.fault.FormatFault.TheVariants.{NoMemory};

use misp_fields::Need;
use misp_ids::Text;
use std::alloc::{AllocError, AllocFailed};

/// Why a text or a body was not read.
#[derive(PartialEq, Eq, Drop)]
pub enum FormatFault {
    /// The text is no JSON.
    NoJson,
    /// At the first faulty place something else was needed.
    BadField { path: Text, need: Need },
    /// At the first faulty place stands a file, or a type whose values are files.
    BinaryType { path: Text },
    NoMemory,
}

impl From<AllocError> for FormatFault {
    ghost from_gives = { λ _ fault. fault ≡ NoMemory };

    fn from(_error: AllocError) -> FormatFault {
        FormatFault::NoMemory
    }
}

impl<T: Drop> From<AllocFailed<T>> for FormatFault {
    ghost from_gives = { λ _ fault. fault ≡ NoMemory };

    fn from(_error: AllocFailed<T>) -> FormatFault {
        FormatFault::NoMemory
    }
}
