//! A text of one form, as it is kept.

ghost use Rattle.std.specs.Prelude.{◌≡◌, not, position, string_bytes};
ghost use Rattle.std.specs.Char.{is_ascii_hexdigit};
ghost use Rattle.misp_types.specs.Checked.{Shows};
ghost use Rattle.misp_types.specs.Addresses.{most_bits};
ghost use Rattle.misp_types.specs.Forms.{is_barred, after_mark, digest, domain, address_fault, address, port, system, by_form, text_of};

use crate::address::{first_slash, is_address, most_bits};
use crate::fault::ValueFault;
use crate::kinds::Form;
use crate::numbers::{is_number, number_in};
use std::alloc::Global;

fn first_no_digit(text: &[u8]) -> Option<usize>
    ensures { result ≡ position (λ byte. not (is_ascii_hexdigit byte)) text.now }
{
    text.iter().position(|byte| !byte.is_ascii_hexdigit())
}

fn digest(alloc: Global, digits: usize, text: &str) -> Result<String, ValueFault>
    ensures { Shows string_bytes result (digest digits text.now) }
{
    if text.len() != digits {
        return Err(ValueFault::WrongLength);
    }
    if let Some(place) = first_no_digit(text.as_bytes()) {
        return Err(ValueFault::WrongDigit(place));
    }
    Ok(text.to_ascii_lowercase(alloc)?)
}

fn first_barred(text: &[u8]) -> Option<usize>
    ensures { result ≡ position is_barred text.now }
{
    text.iter().position(|byte| matches!(*byte, b' ' | b'\t' | b'\n' | b'\r' | b'/'))
}

fn domain(alloc: Global, text: &str) -> Result<String, ValueFault>
    ensures { Shows string_bytes result (domain text.now) }
{
    if text.len() > 255 {
        return Err(ValueFault::WrongLength);
    }
    if let Some(place) = first_barred(text.as_bytes()) {
        return Err(ValueFault::WrongDigit(place));
    }
    Ok(text.to_ascii_lowercase(alloc)?)
}

/// The number of the wrong part, where there is one.
fn address_fault(text: &[u8]) -> Option<u8>
    ensures { result ≡ address_fault text.now }
{
    match first_slash(text) {
        None if is_address(text) => None,
        Some(at) if is_address(&text[..at]) => {
            if is_number(&text[at + 1..], 0, most_bits(&text[..at])) {
                None
            } else {
                Some(2)
            }
        }
        _ => Some(1),
    }
}

fn address(alloc: Global, text: &str) -> Result<String, ValueFault>
    ensures { Shows string_bytes result (address text.now) }
{
    match address_fault(text.as_bytes()) {
        Some(part) => Err(ValueFault::WrongPart(part)),
        None => Ok(text.to_ascii_lowercase(alloc)?),
    }
}

fn port(alloc: Global, text: &str) -> Result<String, ValueFault>
    ensures { Shows string_bytes result (port text.now) }
{
    if !is_number(text.as_bytes(), 1, 65535) {
        return Err(ValueFault::WrongPart(1));
    }
    Ok(String::from_str(alloc, text)?)
}

fn after_mark(text: &[u8]) -> &[u8]
    ensures { result.now ≡ after_mark text.now }
{
    match text {
        [b'A', b'S', number @ ..] => number,
        [b'a', b's', number @ ..] => number,
        _ => text,
    }
}

fn system(alloc: Global, text: &str) -> Result<String, ValueFault>
    ensures { Shows string_bytes result (system text.now) }
{
    match number_in(after_mark(text.as_bytes()), 0, u32::MAX) {
        Some(number) => Ok(format!(in alloc; "AS{number}")?),
        None => Err(ValueFault::WrongPart(1)),
    }
}

fn by_form(alloc: Global, form: Form, text: &str) -> Result<String, ValueFault>
    ensures { Shows string_bytes result (by_form form text.now) }
{
    match form {
        Form::Digest(digits) => digest(alloc, digits, text),
        Form::Address => address(alloc, text),
        Form::Domain => domain(alloc, text),
        Form::Port => port(alloc, text),
        Form::System => system(alloc, text),
        Form::Any => Ok(String::from_str(alloc, text)?),
    }
}

/// A text of this form as it is kept. No text is empty.
pub(crate) fn text_of(alloc: Global, form: Form, text: &str) -> Result<String, ValueFault>
    ensures { Shows string_bytes result (text_of form text.now) }
{
    if text.is_empty() {
        return Err(ValueFault::WrongLength);
    }
    by_form(alloc, form, text)
}
