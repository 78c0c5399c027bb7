//! What the headers of a head say.

ghost use Rattle.std.specs.Prelude.{◌≡◌, [], ◌∷◌, Some, codes, length, option_map, IfOk, MatchOption};
ghost use Rattle.std.specs.List.{AllByRecursion};
ghost use Rattle.std.specs.Str.{str_eq_ignore_ascii_case};
ghost use Rattle.httparse.specs.Spans.{IsHeaderWithin};
ghost use Rattle.misp_http.specs.Headers.{headers_at, values_of, first_of, length_in, content_length, body_length, text_in, key_of, asks_to_close, only_content_length};

use crate::fault::HeadFault;
use crate::{MAX_BODY, MAX_HEADERS};
use httparse::spans::HeaderSpan;
use misp_ids::{NoMemory, Text, are_digits, decimal_value};
use std::alloc::Global;

// Names are compared without case (RFC 9110, section 5.1).
fn is_same_name(name: &[u8], other: &[u8]) -> bool
    ensures { result ≡ str_eq_ignore_ascii_case name.now other.now }
{
    name.eq_ignore_ascii_case(other)
}

// The value of the first header of this name, and the spans of the headers after it.
#[tactic(auto, unfolding(crate::specs::Headers::values_of))]
fn find_header<'a, 'b>(
    bytes: &'a [u8],
    spans: &'b [HeaderSpan],
    name: &[u8],
) -> Option<(&'a [u8], &'b [HeaderSpan])>
    requires { AllByRecursion (IsHeaderWithin (length bytes.now)) spans.now }
    ensures { MatchOption result (values_of name.now (headers_at bytes.now spans.now) ≡ [])
        (λ found. AllByRecursion (IsHeaderWithin (length bytes.now)) found.1.now
        × (values_of name.now (headers_at bytes.now spans.now)
        ≡ found.0.now ∷ values_of name.now (headers_at bytes.now found.1.now))) }
{
    match spans {
        [] => None,
        [first, rest @ ..] => {
            if is_same_name(first.name.of(bytes), name) {
                Some((first.value.of(bytes), rest))
            } else {
                find_header(bytes, rest, name)
            }
        }
    }
}

fn first_value<'a>(bytes: &'a [u8], spans: &[HeaderSpan], name: &[u8]) -> Option<&'a [u8]>
    requires { AllByRecursion (IsHeaderWithin (length bytes.now)) spans.now }
    ensures { option_map (λ value. value.now) result
        ≡ first_of (values_of name.now (headers_at bytes.now spans.now)) }
{
    match find_header(bytes, spans, name) {
        Some((value, _)) => Some(value),
        None => None,
    }
}

fn read_length(value: &[u8]) -> Result<usize, HeadFault>
    ensures { result ≡ length_in value.now }
{
    if value.is_empty() || value.len() >= 20 || !are_digits(value) {
        return Err(HeadFault::Length);
    }
    Ok(decimal_value(value) as usize)
}

// By RFC 9112, section 6.3, a request that does not say a length has no body.
fn content_length(bytes: &[u8], spans: &[HeaderSpan]) -> Result<usize, HeadFault>
    requires { AllByRecursion (IsHeaderWithin (length bytes.now)) spans.now }
    ensures { result ≡ content_length
        (values_of (codes "content-length") (headers_at bytes.now spans.now)) }
{
    let Some((value, rest)) = find_header(bytes, spans, b"content-length") else {
        return Ok(0);
    };
    match find_header(bytes, rest, b"content-length") {
        Some(_) => Err(HeadFault::Length),
        None => read_length(value),
    }
}

/// How long the body is, or the first thing that is wrong with the headers.
#[tactic(auto, unfolding(crate::specs::Headers::body_length))]
pub fn body_length(bytes: &[u8], spans: &[HeaderSpan]) -> Result<usize, HeadFault>
    requires { AllByRecursion (IsHeaderWithin (length bytes.now)) spans.now }
    ensures { result ≡ body_length (headers_at bytes.now spans.now) }
{
    if spans.len() > MAX_HEADERS {
        return Err(HeadFault::ManyHeaders);
    }
    if find_header(bytes, spans, b"transfer-encoding").is_some() {
        return Err(HeadFault::Encoding);
    }
    match content_length(bytes, spans) {
        Ok(n) if n > MAX_BODY => Err(HeadFault::LongBody),
        known => known,
    }
}

// The bytes as a text, where they are one.
fn text_if_utf8(alloc: Global, bytes: &[u8]) -> Result<Option<Text>, NoMemory>
    ensures { IfOk result (λ text. text ≡ text_in (Some bytes.now)) }
{
    match str::from_utf8(bytes) {
        Ok(text) => Ok(Some(Text::of(String::from_str(alloc, text)?))),
        Err(_) => Ok(None),
    }
}

/// The key that the headers show (RFC 9110, section 11.6.2).
#[tactic(auto, unfolding(crate::specs::Headers::key_of))]
pub fn key(alloc: Global, bytes: &[u8], spans: &[HeaderSpan]) -> Result<Option<Text>, NoMemory>
    requires { AllByRecursion (IsHeaderWithin (length bytes.now)) spans.now }
    ensures { IfOk result (λ key. key ≡ key_of (headers_at bytes.now spans.now)) }
{
    match first_value(bytes, spans, b"authorization") {
        Some(value) => text_if_utf8(alloc, value),
        None => Ok(None),
    }
}

/// Whether the connection is to be closed (RFC 9112, sections 9.3 and 9.6). The minor version is
/// that of HTTP/1.
#[tactic(auto, unfolding(crate::specs::Headers::asks_to_close))]
pub fn asks_to_close(bytes: &[u8], spans: &[HeaderSpan], minor: u8) -> bool
    requires { AllByRecursion (IsHeaderWithin (length bytes.now)) spans.now }
    ensures { result ≡ asks_to_close minor (headers_at bytes.now spans.now) }
{
    if minor == 0 {
        return true;
    }
    match first_value(bytes, spans, b"connection") {
        Some(value) => value.eq_ignore_ascii_case(b"close"),
        None => false,
    }
}

/// The length of the body of a reply, where just one header says it.
#[tactic(auto, unfolding(crate::specs::Headers::only_content_length))]
pub fn only_content_length(bytes: &[u8], spans: &[HeaderSpan]) -> Option<usize>
    requires { AllByRecursion (IsHeaderWithin (length bytes.now)) spans.now }
    ensures { result ≡ only_content_length (headers_at bytes.now spans.now) }
{
    let (value, rest) = find_header(bytes, spans, b"content-length")?;
    match find_header(bytes, rest, b"content-length") {
        Some(_) => None,
        None => read_length(value).ok(),
    }
}
