//! Writes requests and replies.

ghost use Rattle.std.specs.Prelude.{◌≡◌, ◌++◌, ◌+◌, ◌≤◌, ◌<◌, length, vec_len, vec_capacity, IfOk, OnOk, OnErr, codes, decimal, option_map};
ghost use Rattle.http.specs.StatusCode.{IsStatusCode};
ghost use Rattle.misp_http.specs.Texts.{reason_of, IsReplyStatus, status_line, content_type_line, content_length_line, connection_line, authorization_line, reply_text, request_text};
ghost use Rattle.misp_http.specs.Reply.{IsReply};

use crate::BodyKind;
use http::StatusCode;
use itoa::Buffer;
use misp_ids::NoMemory;
use std::alloc::Global;

fn put_text(out: &mut Vec<u8>, text: &str) -> Result<(), NoMemory>
    ensures text { OnOk result (out.new.items ≡ out.old.items ++ text.now) }
    ensures size { OnOk result (vec_len out.new ≡ vec_len out.old + length text.now) }
    ensures room { vec_capacity out.old ≤ vec_capacity out.new }
    ensures full { OnErr result (vec_capacity out.old < vec_len out.old + length text.now) }
{
    Ok(out.extend_from_slice(text.as_bytes())?)
}

// A number in decimal digits.
fn put_number(out: &mut Vec<u8>, number: usize) -> Result<(), NoMemory>
    ensures text { OnOk result (out.new.items ≡ out.old.items ++ decimal number) }
    ensures size { OnOk result (vec_len out.new ≡ vec_len out.old + length (decimal number)) }
    ensures room { vec_capacity out.old ≤ vec_capacity out.new }
    ensures full { OnErr result (vec_capacity out.old < vec_len out.old + length (decimal number)) }
{
    let mut buffer = Buffer::new();
    put_text(out, buffer.format(number))
}

// The reason phrase of a status (RFC 9110, section 15).
#[tactic(auto, unfolding(crate::specs::Texts::reason_of))]
fn reason(status: u16) -> &'static str
    requires { IsStatusCode status }
    ensures { result.now ≡ reason_of status }
{
    let Ok(code) = StatusCode::from_u16(status) else {
        return "";
    };
    match code.canonical_reason() {
        Some(reason) => reason,
        None => "",
    }
}

// The line that says what the body is.
fn content_type_line(kind: BodyKind) -> &'static str
    ensures { result.now ≡ content_type_line kind }
{
    match kind {
        BodyKind::Json => "Content-Type: application/json\r\n",
        BodyKind::Octets => "Content-Type: application/octet-stream\r\n",
    }
}

// The line that says that the connection ends, where it is to end (RFC 9112, section 9.6).
fn connection_line(close: bool) -> &'static str
    ensures { result.now ≡ connection_line close }
{
    if close { "Connection: close\r\n" } else { "" }
}

// RFC 9112, section 4.
fn put_status_line(out: &mut Vec<u8>, status: u16) -> Result<(), NoMemory>
    requires { IsStatusCode status }
    ensures text { OnOk result (out.new.items ≡ out.old.items ++ status_line status) }
    ensures size { OnOk result
        (vec_len out.new ≡ vec_len out.old + length (status_line status)) }
    ensures room { vec_capacity out.old ≤ vec_capacity out.new }
    ensures full { OnErr result
        (vec_capacity out.old < vec_len out.old + length (status_line status)) }
{
    put_text(out, "HTTP/1.1 ")?;
    put_number(out, usize::from(status))?;
    put_text(out, " ")?;
    put_text(out, reason(status))?;
    put_text(out, "\r\n")
}

fn put_content_length(out: &mut Vec<u8>, count: usize) -> Result<(), NoMemory>
    ensures text { OnOk result (out.new.items ≡ out.old.items ++ content_length_line count) }
    ensures size { OnOk result
        (vec_len out.new ≡ vec_len out.old + length (content_length_line count)) }
    ensures room { vec_capacity out.old ≤ vec_capacity out.new }
    ensures full { OnErr result
        (vec_capacity out.old < vec_len out.old + length (content_length_line count)) }
{
    put_text(out, "Content-Length: ")?;
    put_number(out, count)?;
    put_text(out, "\r\n")
}

/// Puts a reply (RFC 9112, section 4) after the bytes. It takes no memory where there is room.
#[tactic(auto, unfolding(crate::specs::Texts::reply_text))]
pub fn put_reply(
    out: &mut Vec<u8>,
    status: u16,
    kind: BodyKind,
    body: &[u8],
    close: bool,
) -> Result<(), NoMemory>
    requires { IsReplyStatus status }
    ensures text { OnOk result (out.new.items ≡ out.old.items
        ++ reply_text status kind body.now close) }
    ensures room { vec_capacity out.old ≤ vec_capacity out.new }
    ensures full { OnErr result (vec_capacity out.old < vec_len out.old
        + length (reply_text status kind body.now close)) }
{
    put_status_line(out, status)?;
    put_text(out, content_type_line(kind))?;
    put_content_length(out, body.len())?;
    put_text(out, connection_line(close))?;
    put_text(out, "\r\n")?;
    Ok(out.extend_from_slice(body)?)
}

/// The bytes of a reply. It is read back as what it was made of.
pub fn reply_bytes(
    alloc: Global,
    status: u16,
    kind: BodyKind,
    body: &[u8],
    close: bool,
) -> Result<Vec<u8>, NoMemory>
    requires { IsReplyStatus status }
    ensures text { IfOk result (λ bytes. bytes.items ≡ reply_text status kind body.now close) }
    ensures reads_back { IfOk result (λ bytes. IsReply bytes.items status body.now) }
{
    let mut out = Vec::new(alloc);
    put_reply(&mut out, status, kind, body, close)?;
    Ok(out)
}

fn put_authorization(out: &mut Vec<u8>, key: Option<&str>) -> Result<(), NoMemory>
    ensures { OnOk result (out.new.items
        ≡ out.old.items ++ authorization_line (option_map (λ text. text.now) key.entry)) }
{
    let Some(key) = key else {
        return Ok(());
    };
    put_text(out, "Authorization: ")?;
    put_text(out, key)?;
    put_text(out, "\r\n")
}

/// The bytes of a request (RFC 9112, section 3). Its parts are written as they are given:
/// `a_request_is_read_back` says which parts are read back.
#[tactic(auto, unfolding(crate::specs::Texts::request_text))]
pub fn request_bytes(
    alloc: Global,
    method: &str,
    target: &str,
    key: Option<&str>,
    body: &[u8],
    close: bool,
) -> Result<Vec<u8>, NoMemory>
    ensures { IfOk result (λ bytes. bytes.items ≡ request_text method.now target.now
        (option_map (λ text. text.now) key.entry) body.now close) }
{
    let mut out = Vec::new(alloc);
    put_text(&mut out, method)?;
    put_text(&mut out, " ")?;
    put_text(&mut out, target)?;
    put_text(&mut out, " HTTP/1.1\r\n")?;
    put_authorization(&mut out, key)?;
    put_content_length(&mut out, body.len())?;
    put_text(&mut out, connection_line(close))?;
    put_text(&mut out, "\r\n")?;
    out.extend_from_slice(body)?;
    Ok(out)
}
