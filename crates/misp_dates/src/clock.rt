//! Times of day, fractions of a second, and time zones.

ghost use Rattle.std.specs.Prelude.{◌≡◌, ◌<◌, IfSome, length};
ghost use Rattle.misp_dates.specs.Moments.{IsNear, minutes_in, seconds_in, clock_in, six_digits, fraction_in, zone_in};

use crate::form::{are_digits, two_digits};

/// How many seconds the clocks of a zone are ahead of UTC, or behind it.
#[derive(Clone, Copy)]
pub(crate) struct Zone {
    pub ahead: u32,
    pub behind: u32,
}

/// The minutes since midnight that `hh:mm` writes.
fn minutes_in(text: &[u8]) -> Option<u32>
    ensures value { result ≡ minutes_in text.now }
    ensures small { IfSome result (λ minutes. minutes < 1440) }
{
    match text {
        [h1, h2, b':', m1, m2] if are_digits(*h1, *h2) && are_digits(*m1, *m2) => {
            let hours = two_digits(*h1, *h2);
            let minutes = two_digits(*m1, *m2);
            if hours < 24 && minutes < 60 {
                Some(60 * u32::from(hours) + u32::from(minutes))
            } else {
                None
            }
        }
        _ => None,
    }
}

/// The seconds that `:ss` writes.
fn seconds_in(text: &[u8]) -> Option<u32>
    ensures value { result ≡ seconds_in text.now }
    ensures small { IfSome result (λ seconds. seconds < 60) }
{
    match text {
        [b':', s1, s2] if are_digits(*s1, *s2) => {
            let seconds = two_digits(*s1, *s2);
            if seconds < 60 {
                Some(u32::from(seconds))
            } else {
                None
            }
        }
        _ => None,
    }
}

/// The seconds since midnight that `hh:mm:ss` writes.
#[tactic(auto, unfolding(crate::specs::Moments::clock_in))]
pub(crate) fn clock_in(text: &[u8]) -> Option<u32>
    requires { length text.now ≡ 8 }
    ensures value { result ≡ clock_in text.now }
    ensures small { IfSome result (λ seconds. seconds < 86400) }
{
    let (minutes, seconds) = text.split_at(5);
    let minutes = minutes_in(minutes)?;
    let seconds = seconds_in(seconds)?;
    Some(60 * minutes + seconds)
}

/// The microseconds that six digits after the point write.
fn six_digits(text: &[u8]) -> Option<u32>
    ensures value { result ≡ six_digits text.now }
    ensures small { IfSome result (λ microseconds. microseconds < 1000000) }
{
    match text {
        [a, b, c, d, e, f] if are_digits(*a, *b) && are_digits(*c, *d) && are_digits(*e, *f) => {
            let tens = 100 * u32::from(two_digits(*a, *b)) + u32::from(two_digits(*c, *d));
            Some(100 * tens + u32::from(two_digits(*e, *f)))
        }
        _ => None,
    }
}

/// The microseconds that 1 to 6 digits after the point write.
#[tactic(auto, unfolding(crate::specs::Moments::fraction_in))]
pub(crate) fn fraction_in(digits: &[u8]) -> Option<u32>
    ensures value { result ≡ fraction_in digits.now }
    ensures small { IfSome result (λ microseconds. microseconds < 1000000) }
{
    if digits.is_empty() || digits.len() > 6 {
        return None;
    }
    let mut six = [b'0'; 6];
    six[..digits.len()].copy_from_slice(digits);
    six_digits(&six)
}

/// The zone that `Z`, or a sign and `hh:mm`, writes.
#[tactic(auto, unfolding(crate::specs::Moments::zone_in))]
pub(crate) fn zone_in(text: &[u8]) -> Option<Zone>
    ensures value { result ≡ zone_in text.now }
    ensures small { IfSome result IsNear }
{
    match text {
        [b'Z'] => Some(Zone {
            ahead: 0,
            behind: 0,
        }),
        [b'+', clock @ ..] => {
            let minutes = minutes_in(clock)?;
            Some(Zone {
                ahead: 60 * minutes,
                behind: 0,
            })
        }
        [b'-', clock @ ..] => {
            let minutes = minutes_in(clock)?;
            Some(Zone {
                ahead: 0,
                behind: 60 * minutes,
            })
        }
        _ => None,
    }
}
