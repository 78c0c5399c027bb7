//! Addresses.

ghost use Rattle.std.specs.Prelude.{◌≡◌, ◌==◌, count_by, position};
ghost use Rattle.std.specs.List.{list_all, list_any, slice_split};
ghost use Rattle.misp_types.specs.Numbers.{is_number};
ghost use Rattle.misp_types.specs.Addresses.{is_slash, is_colon, is_dot, is_colon_byte, has_colon, is_colon_form, is_dotted_form, is_address, most_bits};

use crate::numbers::is_number;

pub(crate) fn first_slash(text: &[u8]) -> Option<usize>
    ensures { result ≡ position is_slash text.now }
{
    text.iter().position(|byte| *byte == b'/')
}

fn has_colon(text: &[u8]) -> bool
    ensures { result ≡ has_colon text.now }
{
    text.iter().any(|byte| *byte == b':')
}

fn count_of(text: &[u8], byte: u8) -> usize
    ensures { result ≡ count_by (λ b. b == byte) text.now }
{
    text.iter().filter(|b| **b == byte).count()
}

fn are_colon_bytes(text: &[u8]) -> bool
    ensures { result ≡ list_all is_colon_byte text.now }
{
    text.iter().all(|byte| byte.is_ascii_hexdigit() || *byte == b':' || *byte == b'.')
}

fn is_colon_form(text: &[u8]) -> bool
    ensures { result ≡ is_colon_form text.now }
{
    2 <= text.len() && text.len() <= 45 && are_colon_bytes(text) && 2 <= count_of(text, b':')
}

fn are_octets(text: &[u8]) -> bool
    ensures { result ≡ list_all (is_number 0 255) (slice_split is_dot text.now) }
{
    text.split(|byte| *byte == b'.')
        .all(|part| is_number(part, 0, 255))
}

fn is_dotted_form(text: &[u8]) -> bool
    ensures { result ≡ is_dotted_form text.now }
{
    count_of(text, b'.') == 3 && are_octets(text)
}

/// Whether a text has the form of an address, with colons or with dots.
pub(crate) fn is_address(text: &[u8]) -> bool
    ensures { result ≡ is_address text.now }
{
    if has_colon(text) {
        is_colon_form(text)
    } else {
        is_dotted_form(text)
    }
}

/// The greatest number that may follow an address of this form.
pub(crate) fn most_bits(address: &[u8]) -> u32
    ensures { result ≡ most_bits address.now }
{
    if has_colon(address) { 128 } else { 32 }
}
