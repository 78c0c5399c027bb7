//! Moments.

ghost use Rattle.std.specs.Prelude.{◌≡◌, ◌≤◌, if◌then◌else◌, nat_le, Some, None};

use std::marker::Model;

/// The greatest moment, the last microsecond of the year 9999.
pub const LAST_MICROSECOND: u64 = 253_402_300_799_999_999;

/// A moment, in microseconds since 1970, up to the end of the year 9999.
///
/// A contract sees it as the number.
#[derive(Clone, Copy, PartialEq, Eq, PartialOrd, Ord)]
pub struct Moment {
    microseconds: u64,
}

impl Model for Moment {
    ghost use Rattle.std.specs.Prelude.{ℕ, ◌≤◌};

    ghost Value = { ℕ };

    ghost view = { λ m. m.microseconds };

    ghost invariant = { λ m. m.microseconds ≤ 253402300799999999 };

    ghost inverse = { λ n. record { microseconds = n } };
}

impl Moment {
    /// The moment so many microseconds after 1970 begins, if it is no later than the last.
    pub fn new(n: u64) -> Option<Moment>
        ensures { result ≡ (if nat_le n LAST_MICROSECOND then Some n else None) }
    {
        if n <= LAST_MICROSECOND {
            Some(Moment { microseconds: n })
        } else {
            None
        }
    }

    /// The microseconds since 1970.
    pub fn get(&self) -> u64
        ensures value { result ≡ self.now }
        ensures in_range { result ≤ LAST_MICROSECOND }
    {
        self.microseconds
    }
}
