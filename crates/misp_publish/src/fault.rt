//! Why a copy is not published.

ghost use Rattle.std.specs.Prelude.{◌≡◌};
ghost use Rattle.misp_publish.specs.declared.fault.PublishFault.TheVariants.{NoMemory};

use misp_ids::NoMemory;
use std::alloc::{AllocError, AllocFailed};

/// Why a copy is not published.
#[derive(Clone, Copy, PartialEq, Eq)]
pub enum PublishFault {
    /// The event has the last stamp.
    TimeLimit,
    /// Memory ran out.
    NoMemory,
}

impl From<NoMemory> for PublishFault {
    ghost from_gives = { λ _ fault. fault ≡ NoMemory };

    fn from(_error: NoMemory) -> PublishFault {
        PublishFault::NoMemory
    }
}

impl From<AllocError> for PublishFault {
    ghost from_gives = { λ _ fault. fault ≡ NoMemory };

    fn from(_error: AllocError) -> PublishFault {
        PublishFault::NoMemory
    }
}

impl<T: Drop> From<AllocFailed<T>> for PublishFault {
    ghost from_gives = { λ _ fault. fault ≡ NoMemory };

    fn from(_error: AllocFailed<T>) -> PublishFault {
        PublishFault::NoMemory
    }
}
