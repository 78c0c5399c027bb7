//! An event and the number of a part at the end of a path.

ghost use Rattle.std.specs.Prelude.{◌≡◌, position};
ghost use Rattle.misp_api.specs.Path.{is_numeral, number_in, part_by, part_in, part_of};
ghost use Rattle.misp_api.specs.Pattern.{is_slash};

use crate::path_ids::ending;
use misp_ids::{Uid, are_digits, decimal_value};

const MAX_DIGITS: usize = 10;

fn is_numeral(text: &[u8]) -> bool
    ensures { result ≡ is_numeral text.now }
{
    match text {
        [] => false,
        [b'0', _, ..] => false,
        [_, ..] => are_digits(text),
    }
}

// A number below 2^32, in digits without leading zeros.
fn number_in(text: &str) -> Option<u32>
    ensures { result ≡ number_in text.now }
{
    let digits = text.as_bytes();
    if digits.len() > MAX_DIGITS || !is_numeral(digits) {
        return None;
    }
    u32::try_from(decimal_value(digits)).ok()
}

fn part_by(event: Option<Uid>, number: Option<u32>) -> Option<(Uid, u32)>
    ensures { result ≡ part_by event number }
{
    match (event, number) {
        (Some(event), Some(number)) => Some((event, number)),
        _ => None,
    }
}

// An event and a number in a text, with the first slash between them.
fn part_in(text: &str) -> Option<(Uid, u32)>
    ensures { result ≡ part_in text.now (position is_slash text.now) }
{
    match text.split_once('/') {
        Some((event, number)) => part_by(Uid::read(event), number_in(number)),
        None => None,
    }
}

/// The event and the number of a part of a path, behind its third slash.
pub(crate) fn part_of(path: &str) -> Option<(Uid, u32)>
    ensures { result ≡ part_of path.now }
{
    part_in(ending(path))
}
