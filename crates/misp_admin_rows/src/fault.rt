//! Why a row was not read.

ghost use Rattle.std.specs.Prelude.{◌≡◌};
ghost use Rattle.misp_admin_rows.specs.declared.fault.Stop.TheVariants as stops;

use std::alloc::{AllocError, AllocFailed};

/// A field is not of its form.
#[derive(Clone, Copy, PartialEq, Eq)]
pub(crate) struct BadField;

/// Why reading stopped.
#[derive(Clone, Copy, PartialEq, Eq)]
pub(crate) enum Stop {
    NoMemory,
    BadField,
}

impl From<BadField> for Stop {
    ghost from_gives = { λ _ stop. stop ≡ stops.BadField };

    fn from(_bad: BadField) -> Stop {
        Stop::BadField
    }
}

impl From<AllocError> for Stop {
    ghost from_gives = { λ _ stop. stop ≡ stops.NoMemory };

    fn from(_error: AllocError) -> Stop {
        Stop::NoMemory
    }
}

impl<T: Drop> From<AllocFailed<T>> for Stop {
    ghost from_gives = { λ _ stop. stop ≡ stops.NoMemory };

    fn from(_error: AllocFailed<T>) -> Stop {
        Stop::NoMemory
    }
}
