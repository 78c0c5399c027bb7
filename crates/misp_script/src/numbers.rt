//! The moments and words of lines.

ghost use Rattle.std.specs.Prelude.{◌≡◌, ◌≤◌, length, true};
ghost use Rattle.std.specs.Char.{digit_value};
ghost use Rattle.std.specs.List.{list_all};
ghost use Rattle.std.specs.Str.Parse.{digits_value};
ghost use Rattle.misp_script.specs.Numbers.{is_numeral, is_lower_hex, time_of, word_of};

use misp_ids::{Stamp, are_digits, decimal_value};

fn is_numeral(text: &[u8]) -> bool
    ensures { result ≡ is_numeral text.now }
{
    match text {
        [] => false,
        [b'0', _, ..] => false,
        [_, ..] => are_digits(text),
    }
}

/// The moment that a field says.
pub(crate) fn time(text: &[u8]) -> Option<Stamp>
    ensures { result ≡ time_of text.now }
{
    if text.len() > 12 || !is_numeral(text) {
        return None;
    }
    Stamp::new(decimal_value(text))
}

fn is_lower_hex(byte: u8) -> bool
    ensures { result ≡ is_lower_hex byte }
{
    matches!(byte, b'0'..=b'9' | b'a'..=b'f')
}

fn are_lower_hex(text: &[u8]) -> bool
    ensures { result ≡ list_all is_lower_hex text.now }
{
    text.iter().all(|byte| is_lower_hex(*byte))
}

fn digit(byte: u8) -> u8
    requires { is_lower_hex byte ≡ true }
    ensures value { result ≡ digit_value byte }
    ensures small { result ≤ 15 }
{
    if byte <= b'9' {
        byte - b'0'
    } else {
        byte - b'a' + 10
    }
}

fn hex_value(digits: &[u8]) -> u128
    requires digits { list_all is_lower_hex digits.now ≡ true }
    requires few { length digits.now ≤ 32 }
    ensures { result ≡ digits_value 16 digits.now }
{
    let mut value = 0;
    for byte in digits {
        value = 16 * value + u128::from(digit(*byte));
    }
    value
}

/// The word that a field says.
pub(crate) fn word(text: &[u8]) -> Option<u128>
    ensures { result ≡ word_of text.now }
{
    if text.len() != 32 || !are_lower_hex(text) {
        return None;
    }
    Some(hex_value(text))
}
