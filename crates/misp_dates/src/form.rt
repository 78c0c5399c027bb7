//! Digits, and which texts are dates.

ghost use Rattle.std.specs.Prelude.{◌≡◌, ◌<◌, true, IfSome};
ghost use Rattle.misp_dates.specs.Dates.{is_date, day_in, are_digits, two_digits};

use crate::day::Day;

pub(crate) fn are_digits(tens: u8, ones: u8) -> bool
    ensures { result ≡ are_digits tens ones }
{
    tens.is_ascii_digit() && ones.is_ascii_digit()
}

/// The number that two digits write.
pub(crate) fn two_digits(tens: u8, ones: u8) -> u8
    requires { are_digits tens ones ≡ true }
    ensures value { result ≡ two_digits tens ones }
    ensures small { result < 100 }
{
    10 * (tens - b'0') + (ones - b'0')
}

/// The day that a text of the form `YYYY-MM-DD` names.
pub(crate) fn day_in(text: &[u8]) -> Option<Day>
    ensures value { result ≡ day_in text.now }
    ensures small { IfSome result (λ d. (d.year < 10000) × (d.month < 100) × (d.day < 100)) }
{
    match text {
        [y1, y2, y3, y4, b'-', m1, m2, b'-', d1, d2] => {
            if are_digits(*y1, *y2)
                && are_digits(*y3, *y4)
                && are_digits(*m1, *m2)
                && are_digits(*d1, *d2)
            {
                Some(Day {
                    year: u16::from(two_digits(*y1, *y2)) * 100 + u16::from(two_digits(*y3, *y4)),
                    month: two_digits(*m1, *m2),
                    day: two_digits(*d1, *d2),
                })
            } else {
                None
            }
        }
        _ => None,
    }
}

/// Whether a text names a day of the calendar as `YYYY-MM-DD`.
#[tactic(auto, unfolding(crate::specs::Dates::is_date))]
pub fn is_date(text: &[u8]) -> bool
    ensures { result ≡ is_date text.now }
{
    match day_in(text) {
        Some(day) => day.is_there(),
        None => false,
    }
}
