//! Why a value is none of its type.

ghost use Rattle.std.specs.Prelude.{◌≡◌};
ghost use Rattle.misp_types.specs.declared.fault.ValueFault.TheVariants.{NoMemory};

use std::alloc::AllocError;

/// Why a value is none of its type.
#[derive(Clone, Copy, PartialEq, Eq)]
pub enum ValueFault {
    /// The value has not the number of bytes that its type wants.
    WrongLength,
    /// The place of the first wrong byte, counted from 0.
    WrongDigit(usize),
    /// The number of the first wrong part, counted from 1.
    WrongPart(u8),
    /// Values of this type are files, and are not taken.
    BinaryType,
    NoMemory,
}

impl From<AllocError> for ValueFault {
    ghost from_gives = { λ _ fault. fault ≡ NoMemory };

    fn from(_error: AllocError) -> ValueFault {
        ValueFault::NoMemory
    }
}
