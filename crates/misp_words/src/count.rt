//! Counts in decimal digits.

ghost use Rattle.std.specs.Prelude.{◌≡◌};
ghost use Rattle.misp_words.specs.Count.{count_of, events_of, is_numeral};

use crate::{MAX_COUNT, MAX_EVENTS};
use misp_ids::{are_digits, decimal_value};

const MAX_DIGITS: usize = 7;

fn is_numeral(text: &[u8]) -> bool
    ensures { result ≡ is_numeral text.now }
{
    match text {
        [] => false,
        [b'0', ..] => false,
        [_, ..] => are_digits(text),
    }
}

// How many events are generated: a number from 1 to `MAX_EVENTS`, in digits without a leading zero.
pub(crate) fn read_events(text: &str) -> Option<u32>
    ensures { result ≡ events_of text.now }
{
    let count = read_count(text)?;
    if count > MAX_EVENTS {
        return None;
    }
    Some(count)
}

// A number from 1 to `MAX_COUNT`, in digits without a leading zero.
pub(crate) fn read_count(text: &str) -> Option<u32>
    ensures { result ≡ count_of text.now }
{
    let digits = text.as_bytes();
    if digits.len() > MAX_DIGITS || !is_numeral(digits) {
        return None;
    }
    let count = u32::try_from(decimal_value(digits)).ok()?;
    if count > MAX_COUNT {
        return None;
    }
    Some(count)
}
